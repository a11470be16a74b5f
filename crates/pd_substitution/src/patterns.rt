//! Patterns with a substitution made. A call `.._anew` gives none where what it is asked about stays
//! as it is, and is shared.
ghost use Rattle.std.specs.Prelude.{◌≡◌, map, unwrap_or, IfOk};
ghost use Rattle.pd_ast.specs.declared.pattern.Pat.TheVariants as pats;
ghost use Rattle.pd_substitution.specs.Substituted.{pat_node_with, pattern_with};

use crate::leaves::{cap_anew, maybe_cap_anew, or_same_op};
use crate::substitution::{Substitution, new_op};
use pd_ast::{Cap, Pat, PatNode};
use pm_items::{Items, Shared};
use pm_ops::{OutOfMemory, Text};
use std::alloc::Global;

/// A pattern with the substitution made, which shares what stays as it is.
pub fn pattern_with(
    alloc: Global,
    by: &Substitution,
    pattern: &Shared<Pat>,
) -> Result<Shared<Pat>, OutOfMemory>
    ensures { IfOk result (λ made. made ≡ pattern_with by.now pattern.now) }
{
    let anew = pattern_anew(alloc, by, pattern.get())?;
    or_shared(alloc, anew, pattern)
}

/// The pattern made anew, or else this one, shared.
fn or_shared(
    alloc: Global,
    anew: Option<Pat>,
    pattern: &Shared<Pat>,
) -> Result<Shared<Pat>, OutOfMemory>
    ensures { IfOk result (λ made. made ≡ unwrap_or anew pattern.now) }
{
    match anew {
        Some(anew) => Ok(Shared::new(alloc, anew)?),
        None => Ok(pattern.share()?),
    }
}

#[cycle(pattern_with)]
fn pattern_anew(alloc: Global, by: &Substitution, pattern: &Pat) -> Result<Option<Pat>, OutOfMemory>
    ensures { IfOk result (λ made. unwrap_or made pattern.now ≡ pattern_with by.now pattern.now) }
{
    match pattern {
        Pat::Hole(cap) => match cap_anew(alloc, by, cap)? {
            Some(cap) => Ok(Some(Pat::Hole(cap))),
            None => Ok(None),
        },
        Pat::Test(pred, cap) => match maybe_cap_anew(alloc, by, cap)? {
            Some(cap) => Ok(Some(Pat::Test(*pred, cap))),
            None => Ok(None),
        },
        Pat::Call(name, args, cap) => {
            let new_args = all_anew(alloc, by, args.as_slice())?;
            let new_cap = maybe_cap_anew(alloc, by, cap)?;
            use_of(alloc, name, new_args, args.as_slice(), new_cap, cap)
        }
        Pat::Node(node) => match node_anew(alloc, by, node)? {
            Some(node) => Ok(Some(Pat::Node(node))),
            None => Ok(None),
        },
    }
}

#[cycle(pattern_with)]
fn node_anew(
    alloc: Global,
    by: &Substitution,
    node: &PatNode,
) -> Result<Option<PatNode>, OutOfMemory>
    ensures { IfOk result (λ made. unwrap_or made node.now ≡ pat_node_with by.now node.now) }
{
    let op = new_op(by, &node.op);
    let args = all_anew(alloc, by, node.args.as_slice())?;
    let cap = maybe_cap_anew(alloc, by, &node.cap)?;
    if op.is_none() && args.is_none() && cap.is_none() {
        return Ok(None);
    }
    Ok(Some(PatNode {
        op: or_same_op(alloc, op, &node.op)?,
        flags: node.flags,
        cap: or_same_cap(alloc, cap, &node.cap)?,
        args: or_all_shared(alloc, args, node.args.as_slice())?,
        at: node.at,
        len: node.len,
    }))
}

#[cycle(pattern_with)]
fn all_anew(
    alloc: Global,
    by: &Substitution,
    patterns: &[Shared<Pat>],
) -> Result<Option<Items<Shared<Pat>>>, OutOfMemory>
    ensures { IfOk result (λ made.
        unwrap_or made patterns.now ≡ map (pattern_with by.now) patterns.now) }
{
    let mut made = Items::new(alloc);
    let mut changed = false;
    for pattern in patterns {
        let anew = pattern_anew(alloc, by, pattern.get())?;
        changed = changed || anew.is_some();
        made.push(or_shared(alloc, anew, pattern)?)?;
    }
    Ok(if changed { Some(made) } else { None })
}

/// A use of a predicate, where its arguments or its capture are others.
fn use_of(
    alloc: Global,
    name: &Text,
    new_args: Option<Items<Shared<Pat>>>,
    args: &[Shared<Pat>],
    new_cap: Option<Option<Cap>>,
    cap: &Option<Cap>,
) -> Result<Option<Pat>, OutOfMemory>
    ensures { IfOk result (λ made. unwrap_or made (pats.Call name.now args.now cap.now) ≡
        pats.Call name.now (unwrap_or new_args args.now) (unwrap_or new_cap cap.now)) }
{
    if new_args.is_none() && new_cap.is_none() {
        return Ok(None);
    }
    let args = or_all_shared(alloc, new_args, args)?;
    let cap = or_same_cap(alloc, new_cap, cap)?;
    Ok(Some(Pat::Call(name.copy(alloc)?, args, cap)))
}

/// These patterns made anew, or else those, shared.
fn or_all_shared(
    alloc: Global,
    anew: Option<Items<Shared<Pat>>>,
    patterns: &[Shared<Pat>],
) -> Result<Items<Shared<Pat>>, OutOfMemory>
    ensures { IfOk result (λ made. made ≡ unwrap_or anew patterns.now) }
{
    match anew {
        Some(anew) => Ok(anew),
        None => shared_patterns(alloc, patterns),
    }
}

fn shared_patterns(
    alloc: Global,
    patterns: &[Shared<Pat>],
) -> Result<Items<Shared<Pat>>, OutOfMemory>
    ensures { IfOk result (λ made. made ≡ patterns.now) }
{
    let mut made = Items::new(alloc);
    for pattern in patterns {
        made.push(pattern.share()?)?;
    }
    Ok(made)
}

/// This capture made anew, or else a copy of that.
fn or_same_cap(
    alloc: Global,
    anew: Option<Option<Cap>>,
    cap: &Option<Cap>,
) -> Result<Option<Cap>, OutOfMemory>
    ensures { IfOk result (λ made. made ≡ unwrap_or anew cap.now) }
{
    match anew {
        Some(anew) => Ok(anew),
        None => match cap {
            Some(cap) => Ok(Some(cap.copy(alloc)?)),
            None => Ok(None),
        },
    }
}
