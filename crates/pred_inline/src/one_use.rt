//! One use of a predicate inlined by one case of it.
ghost use Rattle.std.specs.Prelude.{◌≡◌, IfOk};
ghost use Rattle.std.specs.Option.{option_copied};
ghost use Rattle.pred_inline.specs.OneUse.{args_of, case_placed, name_of, one_inlined, placed};
ghost use Rattle.pred_inline.specs.OneUse.{placed_twice, placed_with, taken_up, use_capture};
ghost use Rattle.pred_inline.specs.OneUse.{use_placed};

use crate::arguments::{naming, pointed};
use crate::case::Case;
use crate::filling::case_filled;
use crate::opened::{Opened, stay_two, united, with_pair};
use crate::uniting::pairs_united;
use pattern_uses::{asks_subject, cap_at, capture_of, captured, label, put_at, shared_patterns};
use pd_ast::{Cap, Pat, Tail};
use pd_substitution::{Substitution, tail_with};
use pm_items::{Items, Shared};
use pm_ops::{OutOfMemory, Text};
use std::alloc::Global;

/// The row with the use inlined that has so many before it, by a case of its predicate.
#[tactic(auto, unfolding(crate::specs::OneUse::one_inlined))]
pub fn one_inlined(alloc: Global, i: usize, case: &Case, row: Opened) -> Result<Opened, OutOfMemory>
    ensures { IfOk result (λ made. made ≡ one_inlined i case.now row) }
{
    let row = taken_up(alloc, i, row)?;
    let row = pairs_united(alloc, case.params.as_slice(), case.same.as_slice(), row)?;
    let own = label(alloc, i)?;
    let cap = cap_at(alloc, &own, row.pattern.get())?;
    let cap = use_capture(alloc, &own, case.row.tail.get(), cap)?;
    use_placed(alloc, &own, case, cap, row)
}

/// The use is taken up: its arguments.
#[tactic(auto, unfolding(crate::specs::OneUse::taken_up))]
fn taken_up(alloc: Global, i: usize, row: Opened) -> Result<Opened, OutOfMemory>
    ensures { IfOk result (λ made. made ≡ taken_up i row) }
{
    let args = args_of(alloc, row.uses.get(i))?;
    Ok(Opened {
        pattern: row.pattern,
        args,
        uses: row.uses,
        tails: row.tails,
        changes: row.changes,
        params: row.params,
        same: row.same,
    })
}

fn args_of(
    alloc: Global,
    args: Option<&Items<Shared<Pat>>>,
) -> Result<Items<Shared<Pat>>, OutOfMemory>
    ensures { IfOk result (λ made. made ≡ args_of (option_copied args.entry)) }
{
    match args {
        Some(args) => shared_patterns(alloc, args.as_slice()),
        None => Ok(Items::new(alloc)),
    }
}

/// The capture of the use, which it gets where the end of the case asks about `t` or `type`.
fn use_capture(
    alloc: Global,
    label: &Text,
    tail: &Tail,
    cap: Option<Cap>,
) -> Result<Option<Cap>, OutOfMemory>
    ensures { IfOk result (λ made. made ≡ use_capture label.now tail.now cap) }
{
    match cap {
        Some(cap) => Ok(Some(cap)),
        None => {
            if asks_subject(alloc, tail)? {
                return Ok(Some(Cap {
                    name: pointed(alloc, label)?,
                    by_value: false,
                }));
            }
            Ok(None)
        }
    }
}

#[tactic(auto, unfolding(crate::specs::OneUse::use_placed))]
fn use_placed(
    alloc: Global,
    label: &Text,
    case: &Case,
    cap: Option<Cap>,
    row: Opened,
) -> Result<Opened, OutOfMemory>
    ensures { IfOk result (λ made. made ≡ use_placed label.now case.now cap row) }
{
    let subject = name_of(alloc, &cap)?;
    let by = naming(alloc, label, case, row.args.as_slice(), subject)?;
    case_placed(alloc, label, &by, case, cap, row)
}

fn name_of(alloc: Global, cap: &Option<Cap>) -> Result<Option<Text>, OutOfMemory>
    ensures { IfOk result (λ name. name ≡ name_of cap.now) }
{
    match cap {
        Some(cap) => Ok(Some(cap.name.copy(alloc)?)),
        None => Ok(None),
    }
}

/// The pattern and the end of the case, as they stand for the use.
#[tactic(auto, unfolding(crate::specs::OneUse::case_placed))]
fn case_placed(
    alloc: Global,
    label: &Text,
    by: &Substitution,
    case: &Case,
    cap: Option<Cap>,
    row: Opened,
) -> Result<Opened, OutOfMemory>
    ensures { IfOk result (λ made. made ≡ case_placed label.now by.now case.now cap row) }
{
    let new = case_filled(alloc, by, case, row.args.as_slice())?;
    let tail = tail_with(alloc, by, &case.row.tail)?;
    let inner = capture_of(alloc, new.get())?;
    placed_with(alloc, label, new, tail, cap, inner, row)
}

/// The capture of the use goes on the pattern that stands for it.
#[tactic(auto, unfolding(crate::specs::OneUse::placed_with))]
fn placed_with(
    alloc: Global,
    label: &Text,
    new: Shared<Pat>,
    tail: Shared<Tail>,
    cap: Option<Cap>,
    inner: Option<Cap>,
    row: Opened,
) -> Result<Opened, OutOfMemory>
    ensures { IfOk result (λ made. made ≡ placed_with label.now new tail cap inner row) }
{
    match cap {
        None => placed(alloc, label, &new, tail, row),
        Some(cap) => match inner {
            None => {
                let new = Shared::new(alloc, captured(alloc, &cap, new.get())?)?;
                placed(alloc, label, &new, tail, row)
            }
            Some(inner) => placed_twice(alloc, label, new, tail, &cap, &inner, row),
        },
    }
}

/// The pattern has a capture of its own: both become that of the use, but two parameters stay two
/// names.
#[tactic(auto, unfolding(crate::specs::OneUse::placed_twice))]
fn placed_twice(
    alloc: Global,
    label: &Text,
    new: Shared<Pat>,
    tail: Shared<Tail>,
    cap: &Cap,
    inner: &Cap,
    row: Opened,
) -> Result<Opened, OutOfMemory>
    ensures { IfOk result (λ made. made ≡
        placed_twice label.now new tail cap.now inner.now row) }
{
    if stay_two(row.params.as_slice(), &inner.name, &cap.name) {
        let row = placed(alloc, label, &new, tail, row)?;
        return with_pair(alloc, &inner.name, &cap.name, row);
    }
    let new = Shared::new(alloc, captured(alloc, cap, new.get())?)?;
    let row = placed(alloc, label, &new, tail, row)?;
    united(alloc, &inner.name, &cap.name, row)
}

/// A pattern in the place of the use, with the end of the case.
#[tactic(auto, unfolding(crate::specs::OneUse::placed))]
fn placed(
    alloc: Global,
    label: &Text,
    new: &Shared<Pat>,
    tail: Shared<Tail>,
    row: Opened,
) -> Result<Opened, OutOfMemory>
    ensures { IfOk result (λ made. made ≡ placed label.now new.now tail row) }
{
    let mut tails = row.tails;
    tails.push(tail)?;
    Ok(Opened {
        pattern: put_at(alloc, row.pattern.get(), label, new)?,
        args: Items::new(alloc),
        uses: row.uses,
        tails,
        changes: row.changes,
        params: row.params,
        same: row.same,
    })
}
