//! The pattern of a case as it stands for a use.
ghost use Rattle.std.specs.Prelude.{◌≡◌, ◌++◌, map, option_map, IfOk, OnOk};
ghost use Rattle.std.specs.Option.{option_copied};
ghost use Rattle.pattern_uses.specs.Captures.{capture_of};
ghost use Rattle.pd_substitution.specs.Chosen.{cap_with};
ghost use Rattle.pred_inline.specs.Filled.{all_filled, all_holes, case_filled, filling, hole_filled};
ghost use Rattle.pred_inline.specs.Filled.{in_place, node_filling, standing};

use crate::arguments::{argument_for, moved, occurs_again};
use crate::case::Case;
use pattern_uses::{capture_of, captured, is_among};
use pd_ast::{Cap, Pat, PatNode};
use pd_substitution::{Substitution, cap_with};
use pm_items::{Items, Shared};
use pm_ops::{OutOfMemory, Text};
use std::alloc::Global;

/// The pattern of a case, its captures called by this renaming, with the arguments of a use in it.
pub fn case_filled(
    alloc: Global,
    by: &Substitution,
    case: &Case,
    args: &[Shared<Pat>],
) -> Result<Shared<Pat>, OutOfMemory>
    ensures { IfOk result (λ made. made ≡ case_filled by.now case.now args.now) }
{
    let mut before = Items::new(alloc);
    filled(alloc, case.row.pattern.get(), by, case, args, &mut before)
}

/// A pattern behind captures alone of these names, to which its own are added.
#[cycle(filling)]
fn filled(
    alloc: Global,
    pattern: &Pat,
    by: &Substitution,
    case: &Case,
    args: &[Shared<Pat>],
    before: &mut Items<Text>,
) -> Result<Shared<Pat>, OutOfMemory>
    ensures holes { OnOk result (before.new ≡
        before.old ++ (filling by.now case.now args.now pattern.now).holes) }
    ensures pattern { IfOk result (λ made. made ≡
        (filling by.now case.now args.now pattern.now).filled before.old) }
{
    match pattern {
        Pat::Hole(cap) => {
            let made = hole_filled(alloc, by, case, args, cap, before.as_slice())?;
            before.push(cap.name.copy(alloc)?)?;
            Ok(made)
        }
        Pat::Test(pred, cap) => {
            let made = Pat::Test(*pred, maybe_cap_with(alloc, by, cap)?);
            Ok(Shared::new(alloc, made)?)
        }
        Pat::Call(name, inner, cap) => {
            let inner = all_filled(alloc, inner.as_slice(), by, case, args, before)?;
            let made = Pat::Call(name.copy(alloc)?, inner, maybe_cap_with(alloc, by, cap)?);
            Ok(Shared::new(alloc, made)?)
        }
        Pat::Node(node) => {
            let made = Pat::Node(node_filled(alloc, node, by, case, args, before)?);
            Ok(Shared::new(alloc, made)?)
        }
    }
}

#[cycle(filling)]
fn node_filled(
    alloc: Global,
    node: &PatNode,
    by: &Substitution,
    case: &Case,
    args: &[Shared<Pat>],
    before: &mut Items<Text>,
) -> Result<PatNode, OutOfMemory>
    ensures holes { OnOk result (before.new ≡
        before.old ++ (node_filling by.now case.now args.now node.now).holes) }
    ensures node { IfOk result (λ made. made ≡
        (node_filling by.now case.now args.now node.now).filled before.old) }
{
    let inner = all_filled(alloc, node.args.as_slice(), by, case, args, before)?;
    Ok(PatNode {
        op: node.op.copy(alloc)?,
        flags: node.flags,
        cap: maybe_cap_with(alloc, by, &node.cap)?,
        args: inner,
        at: node.at,
        len: node.len,
    })
}

#[cycle(filling)]
fn all_filled(
    alloc: Global,
    patterns: &[Shared<Pat>],
    by: &Substitution,
    case: &Case,
    args: &[Shared<Pat>],
    before: &mut Items<Text>,
) -> Result<Items<Shared<Pat>>, OutOfMemory>
    ensures holes { OnOk result (before.new ≡
        before.old ++ all_holes (map (filling by.now case.now args.now) patterns.now)) }
    ensures patterns { IfOk result (λ made. made ≡
        all_filled (map (filling by.now case.now args.now) patterns.now) before.old) }
{
    let mut made = Items::new(alloc);
    for pattern in patterns {
        made.push(filled(alloc, pattern.get(), by, case, args, before)?)?;
    }
    Ok(made)
}

/// What stands in the place of a capture alone, behind those of these names.
fn hole_filled(
    alloc: Global,
    by: &Substitution,
    case: &Case,
    args: &[Shared<Pat>],
    cap: &Cap,
    before: &[Text],
) -> Result<Shared<Pat>, OutOfMemory>
    ensures { IfOk result (λ made. made ≡
        hole_filled by.now case.now args.now cap.now before.now) }
{
    let first = !is_among(&cap.name, before);
    let again = occurs_again(alloc, case, &cap.name)?;
    let own = cap_with(alloc, by, cap)?;
    let arg = moved(argument_for(case.params.as_slice(), args, &cap.name));
    in_place(alloc, first, again, own, arg)
}

fn in_place(
    alloc: Global,
    first: bool,
    again: bool,
    cap: Cap,
    arg: Option<&Shared<Pat>>,
) -> Result<Shared<Pat>, OutOfMemory>
    ensures { IfOk result (λ made. made ≡ in_place first again cap (option_copied arg.entry)) }
{
    match arg {
        Some(arg) => {
            if first {
                return standing(alloc, again, &cap, arg);
            }
            Ok(Shared::new(alloc, Pat::Hole(cap))?)
        }
        None => Ok(Shared::new(alloc, Pat::Hole(cap))?),
    }
}

/// An argument in the place of its parameter.
fn standing(
    alloc: Global,
    again: bool,
    cap: &Cap,
    arg: &Shared<Pat>,
) -> Result<Shared<Pat>, OutOfMemory>
    ensures { IfOk result (λ made. made ≡ standing again (capture_of arg.now) cap.now arg.now) }
{
    match capture_of(alloc, arg.get())? {
        Some(_) => Ok(arg.share()?),
        None => {
            if again {
                return Ok(Shared::new(alloc, captured(alloc, cap, arg.get())?)?);
            }
            Ok(arg.share()?)
        }
    }
}

/// A capture that may be absent, called as the substitution tells.
fn maybe_cap_with(
    alloc: Global,
    by: &Substitution,
    cap: &Option<Cap>,
) -> Result<Option<Cap>, OutOfMemory>
    ensures { IfOk result (λ made. made ≡ option_map (cap_with by.now) cap.now) }
{
    match cap {
        Some(cap) => Ok(Some(cap_with(alloc, by, cap)?)),
        None => Ok(None),
    }
}
