//! Each call that takes memory, where there is enough.
use pm_items::{Boxed, Items, Shared};
use std::test::Fail;

/// `Items` grow by each way that they can.
#[test]
fn items_take_memory(rt: HostRuntime) -> Result<(), Fail> {
    let alloc = rt.alloc();
    let mut items: Items<u32> = Items::with_capacity(alloc, 1)?;
    items.reserve(2)?;
    items.push(3)?;
    items.insert(0, 1)?;
    items.append(Items::from_slice(alloc, &[4, 6])?)?;
    items.extend_from_slice(&[7])?;
    let shown = format!(in alloc; "{items:?}")?;
    assert_eq!(rt; shown.as_str(), "[1, 3, 4, 6, 7]");
    Ok(())
}

/// A `Boxed`, and a `Shared` with two owners.
#[test]
fn a_box_and_an_rc_take_memory(rt: HostRuntime) -> Result<(), Fail> {
    let alloc = rt.alloc();
    let boxed: Boxed<u32> = Boxed::new(alloc, 5)?;
    let shared: Shared<u32> = Shared::new(alloc, 5)?;
    let again = shared.share()?;
    assert!(rt; shared == again);
    let shown = format!(in alloc; "{boxed:?} {again:?}")?;
    assert_eq!(rt; shown.as_str(), "5 5");
    Ok(())
}
