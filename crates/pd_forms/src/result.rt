//! Results.
//!
//! Each reader is told that fewer than `room` symbols are left, so that the recursion ends.

ghost use Rattle.std.specs.Prelude.{◌≡◌, ◌+◌, ◌<◌, ◌≤◌, [], ◌∷◌, true, length, map, IfOk};
ghost use Rattle.grammar.specs.Gives.{Gives, GivesInMemory};
ghost use Rattle.cond_subset.specs.Trees.{expr_of};
ghost use Rattle.cond_subset.specs.Declarations.{decl_of};
ghost use Rattle.pd_forms.specs.Results.{result_of};
ghost use Rattle.grammar.specs.Exact.{IsExact};
ghost use Rattle.pd_forms.specs.ResultGrammar.{SpellsResult};
ghost use Rattle.pd_forms.specs.ResultReaders as readers;

use crate::c_parts::{read_braced, read_condition, read_declarations};
use crate::leaf::{begins_result, read_named};
use crate::tokens::{offends, read_mark, read_word};
use crate::tree::{LeafText, ResultText};
use cond_subset::{DeclText, ExprText};
use pd_text::{Mark, Symbol, SymbolStop, Word};
use pm_items::{Boxed, Items};
use pm_places::Span;
use std::alloc::Global;

/// Whether a result is an `if` without a second part.
fn is_case(item: &ResultText) -> bool
    ensures { result ≡ readers.is_case (result_of item.now) }
{
    match item {
        ResultText::If(_, _) => true,
        _ => false,
    }
}

/// The `)` of an `if` without a second part.
fn close_if(
    alloc: Global,
    condition: ExprText,
    then: ResultText,
    symbols: &[Symbol],
) -> Result<(ResultText, &[Symbol]), SymbolStop<'_>>
    ensures reads { GivesInMemory (λ x. (result_of x.0, x.1.now)) result (readers.close_if_at (expr_of condition) (result_of then) symbols.now) }
    ensures shorter { IfOk result (λ x. length x.1.now < length symbols.now) }
{
    let (_, rest) = read_mark(Mark::Close, symbols)?;
    let then = Boxed::new(alloc, then)?;
    Ok((ResultText::If(condition, then), rest))
}

/// The `)` of an `if` with a second part.
fn close_if_else(
    alloc: Global,
    condition: ExprText,
    then: ResultText,
    second: ResultText,
    symbols: &[Symbol],
) -> Result<(ResultText, &[Symbol]), SymbolStop<'_>>
    ensures reads { GivesInMemory (λ x. (result_of x.0, x.1.now)) result (readers.close_if_else_at (expr_of condition) (result_of then) (result_of second) symbols.now) }
    ensures shorter { IfOk result (λ x. length x.1.now < length symbols.now) }
{
    let (_, rest) = read_mark(Mark::Close, symbols)?;
    let then = Boxed::new(alloc, then)?;
    let second = Boxed::new(alloc, second)?;
    Ok((ResultText::IfElse(condition, then, second), rest))
}

/// What stands after the first part of an `if`.
#[cycle(result)]
fn read_after_first(
    alloc: Global,
    room: usize,
    condition: ExprText,
    then: ResultText,
    symbols: &[Symbol],
) -> Result<(ResultText, &[Symbol]), SymbolStop<'_>>
    requires roomy { length symbols.now < room }
    ensures reads { GivesInMemory (λ x. (result_of x.0, x.1.now)) result (readers.after_first_at (readers.results_at room) (expr_of condition) (result_of then) symbols.now) }
    ensures shorter { IfOk result (λ x. length x.1.now < length symbols.now) }
{
    if begins_result(symbols) {
        let (second, rest) = read_within(alloc, room, symbols)?;
        close_if_else(alloc, condition, then, second, rest)
    } else {
        close_if(alloc, condition, then, symbols)
    }
}

/// What stands after `(if`.
#[cycle(result)]
fn read_conditional(
    alloc: Global,
    room: usize,
    symbols: &[Symbol],
) -> Result<(ResultText, &[Symbol]), SymbolStop<'_>>
    requires roomy { length symbols.now < room }
    ensures reads { GivesInMemory (λ x. (result_of x.0, x.1.now)) result (readers.conditional_at (readers.results_at room) symbols.now) }
    ensures shorter { IfOk result (λ x. length x.1.now < length symbols.now) }
{
    let (condition, rest) = read_condition(alloc, symbols)?;
    let (then, rest) = read_within(alloc, room, rest)?;
    read_after_first(alloc, room, condition, then, rest)
}

/// A case of a `switch`.
#[cycle(result)]
fn read_case(
    alloc: Global,
    room: usize,
    symbols: &[Symbol],
) -> Result<(ResultText, &[Symbol]), SymbolStop<'_>>
    requires roomy { length symbols.now < room }
    ensures reads { GivesInMemory (λ x. (result_of x.0, x.1.now)) result (readers.case_at (readers.results_at room) symbols.now) }
    ensures shorter { IfOk result (λ x. length x.1.now < length symbols.now) }
{
    let (_, rest) = read_mark(Mark::Open, symbols)?;
    let (_, rest) = read_word(Word::If, rest)?;
    let (condition, rest) = read_condition(alloc, rest)?;
    let (then, rest) = read_within(alloc, room, rest)?;
    close_if(alloc, condition, then, rest)
}

/// Further items of a `switch`, as long as the last is a case.
#[cycle(result)]
fn read_items(
    alloc: Global,
    room: usize,
    first: Items<ResultText>,
    symbols: &[Symbol],
) -> Result<(Items<ResultText>, &[Symbol]), SymbolStop<'_>>
    requires roomy { length symbols.now < room }
    requires case { readers.ends_with_case (map result_of first) ≡ true }
    ensures reads { GivesInMemory (λ x. (map result_of x.0, x.1.now)) result (readers.items_at (readers.results_at room) (map result_of first) symbols.now) }
    ensures no_longer { IfOk result (λ x. length x.1.now ≤ length symbols.now) }
{
    let mut items = first;
    let mut rest = symbols;
    let mut after_case = true;
    while after_case && begins_result(rest) {
        let (item, after) = read_within(alloc, room, rest)?;
        after_case = is_case(&item);
        items.push(item)?;
        rest = after;
    }
    Ok((items, rest))
}

/// What stands after `(switch`.
#[cycle(result)]
fn read_switch(
    alloc: Global,
    room: usize,
    symbols: &[Symbol],
) -> Result<(ResultText, &[Symbol]), SymbolStop<'_>>
    requires roomy { length symbols.now < room }
    ensures reads { GivesInMemory (λ x. (result_of x.0, x.1.now)) result (readers.switched_at (readers.results_at room) symbols.now) }
    ensures shorter { IfOk result (λ x. length x.1.now < length symbols.now) }
{
    let (first, rest) = read_case(alloc, room, symbols)?;
    let mut items = Items::new(alloc);
    items.push(first)?;
    let (items, rest) = read_items(alloc, room, items, rest)?;
    let (_, rest) = read_mark(Mark::Close, rest)?;
    Ok((ResultText::Switch(items), rest))
}

/// The `)` of a `with`.
fn close_with(
    alloc: Global,
    declarations: Items<DeclText>,
    inner: ResultText,
    symbols: &[Symbol],
) -> Result<(ResultText, &[Symbol]), SymbolStop<'_>>
    ensures reads { GivesInMemory (λ x. (result_of x.0, x.1.now)) result (readers.close_with_at (map decl_of declarations) (result_of inner) symbols.now) }
    ensures shorter { IfOk result (λ x. length x.1.now < length symbols.now) }
{
    let (_, rest) = read_mark(Mark::Close, symbols)?;
    let inner = Boxed::new(alloc, inner)?;
    Ok((ResultText::With(declarations, inner), rest))
}

/// What stands after `(with`.
#[cycle(result)]
fn read_with(
    alloc: Global,
    room: usize,
    symbols: &[Symbol],
) -> Result<(ResultText, &[Symbol]), SymbolStop<'_>>
    requires roomy { length symbols.now < room }
    ensures reads { GivesInMemory (λ x. (result_of x.0, x.1.now)) result (readers.with_at (readers.results_at room) symbols.now) }
    ensures shorter { IfOk result (λ x. length x.1.now < length symbols.now) }
{
    let (declarations, rest) = read_declarations(alloc, symbols)?;
    let (inner, rest) = read_within(alloc, room, rest)?;
    close_with(alloc, declarations, inner, rest)
}

/// An operation after its name, as a result.
fn read_operation(
    alloc: Global,
    open: Span,
    name: Span,
    symbols: &[Symbol],
) -> Result<(ResultText, &[Symbol]), SymbolStop<'_>>
    ensures reads { GivesInMemory (λ x. (result_of x.0, x.1.now)) result (readers.leaf_named_at «open» name symbols.now) }
    ensures shorter { IfOk result (λ x. length x.1.now < length symbols.now) }
{
    let (operation, rest) = read_named(alloc, symbols.len() + 1, open, name, symbols)?;
    Ok((ResultText::Leaf(operation), rest))
}

/// What stands after the `(` of a result.
#[cycle(result)]
fn read_opened(
    alloc: Global,
    room: usize,
    open: Span,
    symbols: &[Symbol],
) -> Result<(ResultText, &[Symbol]), SymbolStop<'_>>
    requires roomy { length symbols.now < room }
    ensures reads { GivesInMemory (λ x. (result_of x.0, x.1.now)) result (readers.opened_at (readers.results_at room) «open» symbols.now) }
    ensures shorter { IfOk result (λ x. length x.1.now < length symbols.now) }
{
    match symbols {
        [Symbol::Word(Word::If, _), rest @ ..] => read_conditional(alloc, room, rest),
        [Symbol::Word(Word::Switch, _), rest @ ..] => read_switch(alloc, room, rest),
        [Symbol::Word(Word::With, _), rest @ ..] => read_with(alloc, room, rest),
        [Symbol::Word(_, at) | Symbol::Identifier(at), rest @ ..] => {
            read_operation(alloc, open, *at, rest)
        }
        _ => Err(offends(symbols).into()),
    }
}

/// A result, whose parts are read by readers of one level less.
#[cycle(result)]
fn read_any(
    alloc: Global,
    room: usize,
    symbols: &[Symbol],
) -> Result<(ResultText, &[Symbol]), SymbolStop<'_>>
    requires roomy { length symbols.now < room + 1 }
    ensures reads { GivesInMemory (λ x. (result_of x.0, x.1.now)) result (readers.result_at (readers.results_at room) symbols.now) }
    ensures shorter { IfOk result (λ x. length x.1.now < length symbols.now) }
{
    match symbols {
        [Symbol::Capture(capture), rest @ ..] if !(capture.joined || capture.by_value) => {
            Ok((ResultText::Leaf(LeafText::Capture(capture.at)), rest))
        }
        [Symbol::Mark(Mark::OpenBrace, at), rest @ ..] => {
            let (value, rest) = read_braced(alloc, rest)?;
            Ok((ResultText::Leaf(LeafText::Brace(*at, value)), rest))
        }
        [Symbol::Mark(Mark::Open, at), rest @ ..] => read_opened(alloc, room, *at, rest),
        _ => Err(offends(symbols).into()),
    }
}

/// A result.
#[cycle(result)]
pub(crate) fn read_within(
    alloc: Global,
    room: usize,
    symbols: &[Symbol],
) -> Result<(ResultText, &[Symbol]), SymbolStop<'_>>
    requires roomy { length symbols.now < room }
    ensures reads { GivesInMemory (λ x. (result_of x.0, x.1.now)) result (readers.results_at room symbols.now) }
    ensures shorter { IfOk result (λ x. length x.1.now < length symbols.now) }
{
    read_any(alloc, room - 1, symbols)
}

/// The result that the symbols begin with, and what is after it.
pub fn read_result(
    alloc: Global,
    symbols: &[Symbol],
) -> Result<(ResultText, &[Symbol]), SymbolStop<'_>>
    ensures reads { GivesInMemory (λ x. (result_of x.0, x.1.now)) result (readers.whole_result_at symbols.now) }
    // What is read is spelled so, as far as a result goes, and a fault is the first. It ends by itself.
    ensures exact { IsExact SpellsResult (λ t. ⊥) symbols.now (readers.whole_result_at symbols.now) }
    ensures shorter { IfOk result (λ x. length x.1.now < length symbols.now) }
{
    read_within(alloc, symbols.len() + 1, symbols)
}
