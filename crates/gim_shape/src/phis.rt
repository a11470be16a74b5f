//! Whether phis fit their block.

ghost use Rattle.std.specs.Prelude.{◌≡◌, ◌&&◌, ℕ, List, true, false, map, IfOk, MatchOption};
ghost use Rattle.std.specs.List.{list_all};
ghost use Rattle.gim_ast.specs.WellFormed.{same_text, all_distinct};
ghost use Rattle.pm_places.specs.Spans.{text_of};
ghost use Rattle.gim_text.specs.Faults.{Judges};
ghost use Rattle.pm_places.specs.FirstFaults.{first_fault};
ghost use Rattle.gim_shape.specs.Tables.{has_text, HasTexts};
ghost use Rattle.gim_shape.specs.Phis.{is_each_once, named_by_args};
ghost use Rattle.gim_shape.specs.Phis.{args_fit, phi_fault, item_faults};

use crate::blocks::texts_at;
use crate::text::named_at;
use gim_text::{ArgText, GimpleFault, GimpleKind, ItemText};
use pm_ops::OutOfMemory;
use pm_places::{Span, text};
use std::alloc::Global;
use std::collections::HashSet;

/// The numbers that the arguments name, unless one of them comes again.
fn distinct_numbers<'a>(
    alloc: Global,
    source: &'a [u8],
    args: &[ArgText],
) -> Result<Option<HashSet<&'a [u8]>>, OutOfMemory>
    ensures { IfOk result (λ found. MatchOption found
        (all_distinct same_text (named_by_args source.now args.now) ≡ false)
        (λ set. (all_distinct same_text (named_by_args source.now args.now) ≡ true) ×
        HasTexts set (named_by_args source.now args.now))) }
{
    let mut set = HashSet::new(alloc);
    for arg in args {
        if !set.insert(named_at(source, arg.from))? {
            return Ok(None);
        }
    }
    Ok(Some(set))
}

/// Whether each argument names one of these numbers.
fn args_are_among<'a>(source: &'a [u8], set: &HashSet<&'a [u8]>, args: &[ArgText]) -> bool
    ensures { result ≡ list_all (has_text set.now) (named_by_args source.now args.now) }
{
    for arg in args {
        let number = named_at(source, arg.from);
        if !set.contains(&number) {
            return false;
        }
    }
    true
}

/// Whether each number that stands at the places is one of these.
fn places_are_among<'a>(source: &'a [u8], set: &HashSet<&'a [u8]>, places: &[Span]) -> bool
    ensures { result ≡ list_all (has_text set.now) (map (text_of source.now) places.now) }
{
    for place in places {
        let number = text(source, *place);
        if !set.contains(&number) {
            return false;
        }
    }
    true
}

/// Whether each argument names one of these numbers, and each number at the places is among those
/// that the arguments name.
fn are_the_same<'a>(
    source: &'a [u8],
    numbers: &HashSet<&'a [u8]>,
    named: &HashSet<&'a [u8]>,
    from: &[Span],
    args: &[ArgText],
) -> bool
    ensures { result ≡ (list_all (has_text numbers.now) (named_by_args source.now args.now) &&
        list_all (has_text named.now) (map (text_of source.now) from.now)) }
{
    args_are_among(source, numbers, args) && places_are_among(source, named, from)
}

/// Whether the arguments name each of the numbers at the places once, and no other.
fn name_each_once(
    alloc: Global,
    source: &[u8],
    from: &[Span],
    args: &[ArgText],
) -> Result<bool, OutOfMemory>
    ensures { IfOk result (λ fits. fits ≡
        is_each_once (map (text_of source.now) from.now) (named_by_args source.now args.now)) }
{
    let Some(named) = distinct_numbers(alloc, source, args)? else {
        return Ok(false);
    };
    let numbers = texts_at(alloc, source, from)?;
    Ok(are_the_same(source, &numbers, &named, from, args))
}

/// Whether there is one argument at least, and one for each of the blocks whose numbers stand at
/// the places.
fn args_fit(
    alloc: Global,
    source: &[u8],
    from: &[Span],
    args: &[ArgText],
) -> Result<bool, OutOfMemory>
    ensures { IfOk result (λ fits. fits ≡ args_fit source.now from.now args.now) }
{
    match args {
        [] => Ok(false),
        _ => name_each_once(alloc, source, from, args),
    }
}

/// Checks a phi, told whether one may stand here.
fn check_phi(
    alloc: Global,
    source: &[u8],
    from: &[Span],
    may: bool,
    name: Span,
    args: &[ArgText],
) -> Result<(), GimpleFault>
    ensures { Judges (phi_fault source.now from.now may name args.now) result }
{
    if may && args_fit(alloc, source, from, args)? {
        Ok(())
    } else {
        Err(GimpleFault::at(GimpleKind::BadPhi, name))
    }
}

/// Checks the phis among the items of a block, told whether it may have phis and where the numbers
/// stand of the blocks that jump to it.
pub(crate) fn check_items(
    alloc: Global,
    source: &[u8],
    from: &[Span],
    may: bool,
    items: &[ItemText],
) -> Result<(), GimpleFault>
    ensures { Judges (first_fault (item_faults source.now from.now may items.now)) result }
{
    let mut before_stmts = may;
    for item in items {
        match item {
            ItemText::Phi(name, args) => {
                check_phi(alloc, source, from, before_stmts, *name, args.as_slice())?;
            }
            ItemText::Stmt(_, _) => before_stmts = false,
        }
    }
    Ok(())
}
