//! The limit on operations.

use crate::terms::term;
use justify::{Instance, Method, justify};
use pm_term::{BuildFault, Typed};
use pm_wide::IntType;
use std::alloc::Global;

/// A name, turned so many times.
fn turned(alloc: Global, times: u32) -> Result<Typed, BuildFault> {
    let mut text = String::new(alloc);
    text.push_str("x")?;
    for _ in 0..times {
        text.push_str("~")?;
    }
    term(alloc, &text, IntType::int())
}

#[test]
fn many_operations(rt: HostRuntime) -> Result<(), BuildFault> {
    let rows = [
        (4096, 0, Some(Method::Ring)),
        (0, 4096, Some(Method::Ring)),
        (4097, 1, None),
        (1, 4097, None),
    ];
    for (left, right, method) in rows {
        let instance = Instance {
            left: turned(rt.alloc(), left)?,
            right: turned(rt.alloc(), right)?,
        };
        assert_eq!(rt; justify(rt.alloc(), &instance)?, method, "{left} {right}");
    }
    Ok(())
}
