//! Results: operators, marks, captures and C parts, in the order of the text.

ghost use Rattle.std.specs.Prelude.{◌≡◌, ◌-◌, map};
ghost use Rattle.cond_subset.specs.Names.{Judges};
ghost use Rattle.pd_forms.specs.Results.{leaf_of, leaves, result_of, results};
ghost use Rattle.pd_names.specs.Results as result_rules;

use crate::blocks::check_block;
use crate::parts::{check_capture, check_part};
use crate::sight::{Sight, below};
use pd_forms::{LeafText, ResultText};
use pd_pattern_names::{Known, broken, differs, operator_arity};
use pm_items::Items;
use pm_ops::{PatternFault, PatternKind};
use pm_places::{Span, text};
use std::alloc::Global;

/// How many leaves there are.
#[tactic(auto, using(crate::proofs::Counts::counted))]
fn count(operands: &Items<LeafText>) -> usize
    ensures { result ≡ result_rules.count (leaves (map leaf_of operands.now)) }
{
    operands.len()
}

/// The head of an operation is known, and has so many operands as it takes.
fn check_operator(arity: Option<Option<usize>>, at: Span, count: usize) -> Result<(), PatternFault>
    ensures { Judges (result_rules.operator_fault arity at count) result }
{
    match arity {
        Some(asked) => broken(differs(asked, count), PatternKind::BadArity, at),
        None => broken(true, PatternKind::UnknownOperator, at),
    }
}

/// No `!` stands on an outermost operation.
fn check_mark(outermost: bool, marked: Option<Span>) -> Result<(), PatternFault>
    ensures { Judges (result_rules.mark_fault outermost marked) result }
{
    match marked {
        Some(at) => broken(outermost, PatternKind::BadFlag, at),
        None => Ok(()),
    }
}

/// A result that no condition stands round, outermost or not.
#[cycle(leaves)]
fn check_leaf(
    alloc: Global,
    source: &[u8],
    known: &Known,
    sight: &Sight,
    outermost: bool,
    leaf: &LeafText,
) -> Result<(), PatternFault>
    ensures { Judges (result_rules.leaf_fault source.now known.now sight.now outermost (leaf_of leaf.now)) result }
{
    match leaf {
        LeafText::Capture(at) => check_capture(source, sight, *at),
        LeafText::Brace(_, value) => check_part(alloc, source, known, sight, &[], value),
        LeafText::Operation(_, head, operands) => {
            let arity = operator_arity(source, known, text(source, head.name));
            check_operator(arity, head.name, count(operands))?;
            check_mark(outermost, head.marked)?;
            check_leaves(alloc, source, known, sight, operands.as_slice())
        }
    }
}

/// The operands of an operation.
#[cycle(leaves)]
fn check_leaves(
    alloc: Global,
    source: &[u8],
    known: &Known,
    sight: &Sight,
    operands: &[LeafText],
) -> Result<(), PatternFault>
    ensures { Judges (result_rules.leaves_fault source.now known.now sight.now (leaves (map leaf_of operands.now))) result }
{
    for operand in operands {
        check_leaf(alloc, source, known, sight, false, operand)?;
    }
    Ok(())
}

/// A result.
#[cycle(results)]
pub(crate) fn check_result(
    alloc: Global,
    source: &[u8],
    known: &Known,
    sight: &Sight,
    result_text: &ResultText,
) -> Result<(), PatternFault>
    ensures { Judges (result_rules.result_fault source.now known.now sight.now (result_of result_text.now)) result }
{
    match result_text {
        ResultText::Leaf(leaf) => check_leaf(alloc, source, known, sight, true, leaf),
        ResultText::If(condition, a) => {
            check_part(alloc, source, known, sight, &[], condition)?;
            check_result(alloc, source, known, sight, a.get())
        }
        ResultText::IfElse(condition, a, b) => {
            check_part(alloc, source, known, sight, &[], condition)?;
            check_result(alloc, source, known, sight, a.get())?;
            check_result(alloc, source, known, sight, b.get())
        }
        ResultText::Switch(items) => check_results(alloc, source, known, sight, items.as_slice()),
        ResultText::With(decls, a) => {
            check_block(alloc, source, known, sight, decls.as_slice())?;
            let inner = below(alloc, sight, decls.as_slice())?;
            check_result(alloc, source, known, &inner, a.get())
        }
    }
}

/// The items of a `switch`.
#[cycle(results)]
fn check_results(
    alloc: Global,
    source: &[u8],
    known: &Known,
    sight: &Sight,
    items: &[ResultText],
) -> Result<(), PatternFault>
    ensures { Judges (result_rules.results_fault source.now known.now sight.now (results (map result_of items.now))) result }
{
    for item in items {
        check_result(alloc, source, known, sight, item)?;
    }
    Ok(())
}

/// How many operations more there may be after those of a leaf, none where it has too many.
#[cycle(nodes)]
fn room_after(leaf: &LeafText, room: usize) -> usize
    ensures { result ≡ room - result_rules.nodes_of (leaf_of leaf.now) }
{
    match leaf {
        LeafText::Operation(_, _, operands) => {
            room_after_all(operands.as_slice(), room.saturating_sub(1))
        }
        _ => room,
    }
}

/// How many operations more there may be after those of these leaves.
#[cycle(nodes)]
fn room_after_all(operands: &[LeafText], room: usize) -> usize
    ensures { result ≡ room - result_rules.nodes_among (leaves (map leaf_of operands.now)) }
{
    let mut left = room;
    for operand in operands {
        left = room_after(operand, left);
    }
    left
}

/// Whether a leaf has more operations than it may have.
#[tactic(auto, using(crate::proofs::Counts::over))]
fn is_large(leaf: &LeafText) -> bool
    ensures { result ≡ result_rules.is_large (leaf_of leaf.now) }
{
    room_after(leaf, 17) == 0
}

/// Whether some leaf of a result is so.
#[cycle(large)]
pub(crate) fn has_large(result_text: &ResultText) -> bool
    ensures { result ≡ result_rules.has_large (result_of result_text.now) }
{
    match result_text {
        ResultText::Leaf(leaf) => is_large(leaf),
        ResultText::If(_, a) => has_large(a.get()),
        ResultText::IfElse(_, a, b) => has_large(a.get()) || has_large(b.get()),
        ResultText::Switch(items) => have_large(items.as_slice()),
        ResultText::With(_, a) => has_large(a.get()),
    }
}

/// Whether some leaf of these results is so.
#[cycle(large)]
fn have_large(items: &[ResultText]) -> bool
    ensures { result ≡ result_rules.have_large (results (map result_of items.now)) }
{
    for item in items {
        if has_large(item) {
            return true;
        }
    }
    false
}
