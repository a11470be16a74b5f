//! Optional operations, present or absent by their groups.
ghost use Rattle.std.specs.Prelude.{◌≡◌, map, unwrap_or, IfOk, Some};
ghost use Rattle.std.specs.List.{flat_map};
ghost use Rattle.commute_expand.specs.Groups.{captured, group_choices, has_group, is_of_group, left_out};
ghost use Rattle.commute_expand.specs.Groups.{node_has_group, not_optional, operation, optional_choices};
ghost use Rattle.commute_expand.specs.Groups.{settled, settled_node, some_true};

use crate::sharing::{copied_cap, shared_patterns};
use pd_ast::{Cap, Flags, Pat, PatNode};
use pm_items::{Items, Shared};
use pm_ops::OutOfMemory;
use std::alloc::Global;

/// The patterns that stand for this one where its optional operations are present or absent: the
/// groups 0, 1 and 2, of which an earlier one is slower, each present before absent. There are at
/// most eight.
pub fn optional(alloc: Global, pattern: &Shared<Pat>) -> Result<Items<Shared<Pat>>, OutOfMemory>
    ensures { IfOk result (λ made. made ≡ optional_choices pattern.now) }
{
    let by_first = group_choices(alloc, pattern, 0)?;
    let by_second = choices_of_each(alloc, by_first.as_slice(), 1)?;
    choices_of_each(alloc, by_second.as_slice(), 2)
}

/// The choices of one group, of each of these patterns.
fn choices_of_each(
    alloc: Global,
    patterns: &[Shared<Pat>],
    group: u8,
) -> Result<Items<Shared<Pat>>, OutOfMemory>
    ensures { IfOk result (λ made. made ≡ flat_map (group_choices group) patterns.now) }
{
    let mut made = Items::new(alloc);
    for pattern in patterns {
        made.append(group_choices(alloc, pattern, group)?)?;
    }
    Ok(made)
}

/// The choices of one group: present, then absent, where the pattern has it.
fn group_choices(
    alloc: Global,
    pattern: &Shared<Pat>,
    group: u8,
) -> Result<Items<Shared<Pat>>, OutOfMemory>
    ensures { IfOk result (λ made. made ≡ group_choices group pattern.now) }
{
    let mut made = Items::new(alloc);
    if has_group(pattern.get(), group) {
        let with = settled(alloc, pattern.get(), group, true)?;
        made.push(Shared::new(alloc, with)?)?;
        let without = settled(alloc, pattern.get(), group, false)?;
        made.push(Shared::new(alloc, without)?)?;
        return Ok(made);
    }
    made.push(pattern.share()?)?;
    Ok(made)
}

/// Whether a pattern has an operation of the group.
#[cycle(has_group)]
fn has_group(pattern: &Pat, group: u8) -> bool
    ensures { result ≡ has_group group pattern.now }
{
    match pattern {
        Pat::Hole(_) | Pat::Test(_, _) => false,
        Pat::Call(_, args, _) => some_have_group(args.as_slice(), group),
        Pat::Node(node) => node_has_group(node, group),
    }
}

#[cycle(has_group)]
fn node_has_group(node: &PatNode, group: u8) -> bool
    ensures { result ≡ node_has_group group node.now }
{
    is_of_group(node.flags.optional, group) || some_have_group(node.args.as_slice(), group)
}

#[cycle(has_group)]
fn some_have_group(patterns: &[Shared<Pat>], group: u8) -> bool
    ensures { result ≡ some_true (map (has_group group) patterns.now) }
{
    for pattern in patterns {
        if has_group(pattern.get(), group) {
            return true;
        }
    }
    false
}

/// Whether the group of an operation is this one.
fn is_of_group(optional: Option<u8>, group: u8) -> bool
    ensures { result ≡ is_of_group group optional }
{
    match optional {
        Some(own) => own == group,
        None => false,
    }
}

/// The pattern, with the operations of the group present or absent.
#[cycle(settled)]
fn settled(alloc: Global, pattern: &Pat, group: u8, present: bool) -> Result<Pat, OutOfMemory>
    ensures { IfOk result (λ made. made ≡ settled group present pattern.now) }
{
    match pattern {
        Pat::Hole(cap) => Ok(Pat::Hole(cap.copy(alloc)?)),
        Pat::Test(pred, cap) => Ok(Pat::Test(*pred, copied_cap(alloc, cap)?)),
        Pat::Call(name, args, cap) => {
            let args = all_settled(alloc, args.as_slice(), group, present)?;
            Ok(Pat::Call(name.copy(alloc)?, args, copied_cap(alloc, cap)?))
        }
        Pat::Node(node) => settled_node(alloc, node, group, present),
    }
}

#[cycle(settled)]
fn settled_node(alloc: Global, node: &PatNode, group: u8, present: bool) -> Result<Pat, OutOfMemory>
    ensures { IfOk result (λ made. made ≡ settled_node group present node.now) }
{
    let args = all_settled(alloc, node.args.as_slice(), group, present)?;
    if !is_of_group(node.flags.optional, group) {
        return operation(alloc, node, node.flags, args);
    }
    if present {
        return operation(alloc, node, not_optional(node.flags), args);
    }
    left_out(alloc, node, args)
}

#[cycle(settled)]
fn all_settled(
    alloc: Global,
    patterns: &[Shared<Pat>],
    group: u8,
    present: bool,
) -> Result<Items<Shared<Pat>>, OutOfMemory>
    ensures { IfOk result (λ made. made ≡ map (settled group present) patterns.now) }
{
    let mut made = Items::new(alloc);
    for pattern in patterns {
        let anew = settled_anew(alloc, pattern.get(), group, present)?;
        made.push(or_shared(alloc, anew, pattern)?)?;
    }
    Ok(made)
}

/// The pattern with the operations of the group present or absent; none where it has none of them
/// and stays as it is.
#[tactic(auto, using(crate::proofs::Untouched::untouched))]
#[cycle(settled)]
fn settled_anew(
    alloc: Global,
    pattern: &Pat,
    group: u8,
    present: bool,
) -> Result<Option<Pat>, OutOfMemory>
    ensures { IfOk result (λ made. unwrap_or made pattern.now ≡ settled group present pattern.now) }
{
    if has_group(pattern, group) {
        return Ok(Some(settled(alloc, pattern, group, present)?));
    }
    Ok(None)
}

/// The pattern made anew, or else this one, shared.
fn or_shared(
    alloc: Global,
    anew: Option<Pat>,
    pattern: &Shared<Pat>,
) -> Result<Shared<Pat>, OutOfMemory>
    ensures { IfOk result (λ made. made ≡ unwrap_or anew pattern.now) }
{
    match anew {
        Some(anew) => Ok(Shared::new(alloc, anew)?),
        None => Ok(pattern.share()?),
    }
}

/// The flags of an operation that is no longer optional.
fn not_optional(flags: Flags) -> Flags
    ensures { result ≡ not_optional flags }
{
    Flags {
        commute: flags.commute,
        single: flags.single,
        optional: None,
    }
}

/// The operation with these flags, on these operands.
fn operation(
    alloc: Global,
    node: &PatNode,
    flags: Flags,
    args: Items<Shared<Pat>>,
) -> Result<Pat, OutOfMemory>
    ensures { IfOk result (λ made. made ≡
        operation node.now.op flags node.now.cap args node.now.at node.now.len) }
{
    Ok(Pat::Node(PatNode {
        op: node.op.copy(alloc)?,
        flags,
        cap: copied_cap(alloc, &node.cap)?,
        args,
        at: node.at,
        len: node.len,
    }))
}

/// What stands in the place of an absent operation: its operand, which takes its capture.
fn left_out(alloc: Global, node: &PatNode, args: Items<Shared<Pat>>) -> Result<Pat, OutOfMemory>
    ensures { IfOk result (λ made. made ≡
        left_out node.now.op node.now.flags node.now.cap args node.now.at node.now.len) }
{
    match args.as_slice() {
        [operand] => captured(alloc, &node.cap, operand.get()),
        _ => operation(alloc, node, not_optional(node.flags), args),
    }
}

/// The pattern, with this capture in place of its own.
fn captured(alloc: Global, cap: &Option<Cap>, pattern: &Pat) -> Result<Pat, OutOfMemory>
    ensures { IfOk result (λ made. made ≡ captured cap.now pattern.now) }
{
    match cap {
        None => pattern.copy(alloc),
        Some(cap) => with_capture(alloc, cap, pattern),
    }
}

fn with_capture(alloc: Global, cap: &Cap, pattern: &Pat) -> Result<Pat, OutOfMemory>
    ensures { IfOk result (λ made. made ≡ captured (Some cap.now) pattern.now) }
{
    match pattern {
        Pat::Hole(_) => Ok(Pat::Hole(cap.copy(alloc)?)),
        Pat::Test(pred, _) => Ok(Pat::Test(*pred, Some(cap.copy(alloc)?))),
        Pat::Call(name, args, _) => {
            let args = shared_patterns(alloc, args.as_slice())?;
            Ok(Pat::Call(name.copy(alloc)?, args, Some(cap.copy(alloc)?)))
        }
        Pat::Node(node) => Ok(Pat::Node(PatNode {
            op: node.op.copy(alloc)?,
            flags: node.flags,
            cap: Some(cap.copy(alloc)?),
            args: shared_patterns(alloc, node.args.as_slice())?,
            at: node.at,
            len: node.len,
        })),
    }
}
