//! Copies of the parts of a pattern.
ghost use Rattle.std.specs.Prelude.{◌≡◌, IfOk};

use pd_ast::{Cap, Pat};
use pm_items::{Items, Shared};
use pm_ops::OutOfMemory;
use std::alloc::Global;

/// The same patterns, shared.
pub fn shared_patterns(
    alloc: Global,
    patterns: &[Shared<Pat>],
) -> Result<Items<Shared<Pat>>, OutOfMemory>
    ensures { IfOk result (λ made. made ≡ patterns.now) }
{
    let mut made = Items::new(alloc);
    for pattern in patterns {
        made.push(pattern.share()?)?;
    }
    Ok(made)
}

/// A copy of a capture that may be absent.
pub fn copied_cap(alloc: Global, cap: &Option<Cap>) -> Result<Option<Cap>, OutOfMemory>
    ensures { IfOk result (λ c. c ≡ cap.now) }
{
    match cap {
        Some(cap) => Ok(Some(cap.copy(alloc)?)),
        None => Ok(None),
    }
}
