//! Parts of patterns, copied and shared.
ghost use Rattle.std.specs.Prelude.{◌≡◌, IfOk};

use pd_ast::{CDecl, Cap, Pat};
use pm_items::{Items, Shared};
use pm_ops::{OutOfMemory, Text};
use std::alloc::Global;

/// The same patterns, shared.
pub fn shared_patterns(
    alloc: Global,
    patterns: &[Shared<Pat>],
) -> Result<Items<Shared<Pat>>, OutOfMemory>
    ensures { IfOk result (λ made. made ≡ patterns.now) }
{
    let mut made = Items::new(alloc);
    for pattern in patterns {
        made.push(pattern.share()?)?;
    }
    Ok(made)
}

/// A copy of a capture that may be absent.
pub fn copied_cap(alloc: Global, cap: &Option<Cap>) -> Result<Option<Cap>, OutOfMemory>
    ensures { IfOk result (λ c. c ≡ cap.now) }
{
    match cap {
        Some(cap) => Ok(Some(cap.copy(alloc)?)),
        None => Ok(None),
    }
}

/// Copies of names.
pub fn copied_names(alloc: Global, names: &[Text]) -> Result<Items<Text>, OutOfMemory>
    ensures { IfOk result (λ made. made ≡ names.now) }
{
    let mut made = Items::new(alloc);
    for name in names {
        made.push(name.copy(alloc)?)?;
    }
    Ok(made)
}

/// Equal declarations.
pub fn copied_decls(alloc: Global, decls: &[CDecl]) -> Result<Items<CDecl>, OutOfMemory>
    ensures { IfOk result (λ made. made ≡ decls.now) }
{
    let mut made = Items::new(alloc);
    for decl in decls {
        made.push(decl.copy(alloc)?)?;
    }
    Ok(made)
}
