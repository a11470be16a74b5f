//! The captures of a pattern.
ghost use Rattle.std.specs.Prelude.{◌≡◌, map, IfOk};
ghost use Rattle.pattern_uses.specs.Captures.{capture_names, capture_names_of_node, capture_of};
ghost use Rattle.pattern_uses.specs.Captures.{captured, is_hole, joined, own_name};

use crate::sharing::{copied_cap, shared_patterns};
use pd_ast::{Cap, Pat, PatNode};
use pm_items::{Items, Shared};
use pm_ops::{OutOfMemory, Text};
use std::alloc::Global;

/// A pattern's own capture.
pub fn capture_of(alloc: Global, pattern: &Pat) -> Result<Option<Cap>, OutOfMemory>
    ensures { IfOk result (λ cap. cap ≡ capture_of pattern.now) }
{
    match pattern {
        Pat::Hole(cap) => Ok(Some(cap.copy(alloc)?)),
        Pat::Test(_, cap) => copied_cap(alloc, cap),
        Pat::Call(_, _, cap) => copied_cap(alloc, cap),
        Pat::Node(node) => copied_cap(alloc, &node.cap),
    }
}

/// The pattern with this capture as its own.
pub fn captured(alloc: Global, cap: &Cap, pattern: &Pat) -> Result<Pat, OutOfMemory>
    ensures { IfOk result (λ made. made ≡ captured cap.now pattern.now) }
{
    match pattern {
        Pat::Hole(_) => Ok(Pat::Hole(cap.copy(alloc)?)),
        Pat::Test(pred, _) => Ok(Pat::Test(*pred, Some(cap.copy(alloc)?))),
        Pat::Call(name, args, _) => {
            let args = shared_patterns(alloc, args.as_slice())?;
            Ok(Pat::Call(name.copy(alloc)?, args, Some(cap.copy(alloc)?)))
        }
        Pat::Node(node) => Ok(Pat::Node(PatNode {
            op: node.op.copy(alloc)?,
            flags: node.flags,
            cap: Some(cap.copy(alloc)?),
            args: shared_patterns(alloc, node.args.as_slice())?,
            at: node.at,
            len: node.len,
        })),
    }
}

/// Whether a pattern is a capture alone.
pub fn is_hole(pattern: &Pat) -> bool
    ensures { result ≡ is_hole pattern.now }
{
    match pattern {
        Pat::Hole(_) => true,
        Pat::Test(_, _) | Pat::Call(_, _, _) | Pat::Node(_) => false,
    }
}

/// The names of all captures of a pattern, in preorder.
#[cycle(capture_names)]
pub fn capture_names(alloc: Global, pattern: &Pat) -> Result<Items<Text>, OutOfMemory>
    ensures { IfOk result (λ made. made ≡ capture_names pattern.now) }
{
    match pattern {
        Pat::Hole(cap) => {
            let mut made = Items::new(alloc);
            made.push(cap.name.copy(alloc)?)?;
            Ok(made)
        }
        Pat::Test(_, cap) => own_name(alloc, cap),
        Pat::Call(_, args, cap) => {
            let mut made = own_name(alloc, cap)?;
            made.append(names_among(alloc, args.as_slice())?)?;
            Ok(made)
        }
        Pat::Node(node) => capture_names_of_node(alloc, node),
    }
}

#[cycle(capture_names)]
fn capture_names_of_node(alloc: Global, node: &PatNode) -> Result<Items<Text>, OutOfMemory>
    ensures { IfOk result (λ made. made ≡ capture_names_of_node node.now) }
{
    let mut made = own_name(alloc, &node.cap)?;
    made.append(names_among(alloc, node.args.as_slice())?)?;
    Ok(made)
}

#[cycle(capture_names)]
fn names_among(alloc: Global, patterns: &[Shared<Pat>]) -> Result<Items<Text>, OutOfMemory>
    ensures { IfOk result (λ made. made ≡ joined (map capture_names patterns.now)) }
{
    let mut made = Items::new(alloc);
    for pattern in patterns {
        made.append(capture_names(alloc, pattern.get())?)?;
    }
    Ok(made)
}

fn own_name(alloc: Global, cap: &Option<Cap>) -> Result<Items<Text>, OutOfMemory>
    ensures { IfOk result (λ made. made ≡ own_name cap.now) }
{
    let mut made = Items::new(alloc);
    if let Some(cap) = cap {
        made.push(cap.name.copy(alloc)?)?;
    }
    Ok(made)
}
