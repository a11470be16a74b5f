//! Forms.
//!
//! Each reader of what holds forms is told that fewer than `room` symbols are left, so that the
//! recursion ends.

ghost use Rattle.std.specs.Prelude.{◌≡◌, ◌+◌, ◌<◌, ◌≤◌, length, map, IfOk};
ghost use Rattle.grammar.specs.Gives.{GivesInMemory};
ghost use Rattle.grammar.specs.Reading.{first_is, more_at};
ghost use Rattle.pd_forms.specs.Trees.{pattern_of};
ghost use Rattle.pd_files.specs.Forms.{form_of};
ghost use Rattle.pd_files.specs.FormReaders as readers;

use crate::list::{read_case_head, read_lists, read_names};
use crate::tree::{FormText, ListText};
use pd_forms::{
    PatternText, offends, read_condition, read_identifier, read_mark, read_pattern, read_result,
    read_tail,
};
use pd_text::{Mark, Symbol, SymbolStop, Word};
use pm_items::Items;
use pm_places::Span;
use std::alloc::Global;

/// A pattern that is an operation.
fn read_node(alloc: Global, symbols: &[Symbol]) -> Result<(PatternText, &[Symbol]), SymbolStop<'_>>
    ensures reads { GivesInMemory (λ x. (pattern_of x.0, x.1.now)) result (readers.node_at symbols.now) }
    ensures shorter { IfOk result (λ x. length x.1.now < length symbols.now) }
{
    match symbols {
        [Symbol::Mark(Mark::Open, _), ..] => read_pattern(alloc, symbols),
        _ => Err(offends(symbols).into()),
    }
}

/// What stands after `(simplify`.
fn read_simplify(
    alloc: Global,
    at: Span,
    symbols: &[Symbol],
) -> Result<(FormText, &[Symbol]), SymbolStop<'_>>
    ensures reads { GivesInMemory (λ x. (form_of x.0, x.1.now)) result (readers.simplify_at at symbols.now) }
    ensures shorter { IfOk result (λ x. length x.1.now < length symbols.now) }
{
    let (pattern, rest) = read_node(alloc, symbols)?;
    let (result, rest) = read_result(alloc, rest)?;
    let (_, rest) = read_mark(Mark::Close, rest)?;
    Ok((FormText::Simplify(at, pattern, result), rest))
}

/// What stands after `(match`.
fn read_match(
    alloc: Global,
    at: Span,
    symbols: &[Symbol],
) -> Result<(FormText, &[Symbol]), SymbolStop<'_>>
    ensures reads { GivesInMemory (λ x. (form_of x.0, x.1.now)) result (readers.match_at at symbols.now) }
    ensures shorter { IfOk result (λ x. length x.1.now < length symbols.now) }
{
    let (head, rest) = read_case_head(alloc, symbols)?;
    let (pattern, rest) = read_pattern(alloc, rest)?;
    let (tail, rest) = read_tail(alloc, rest)?;
    let (_, rest) = read_mark(Mark::Close, rest)?;
    Ok((FormText::Match(at, head, pattern, tail), rest))
}

/// What stands after `(define_operator_list`.
fn read_operators(
    alloc: Global,
    symbols: &[Symbol],
) -> Result<(FormText, &[Symbol]), SymbolStop<'_>>
    ensures reads { GivesInMemory (λ x. (form_of x.0, x.1.now)) result (readers.operators_at symbols.now) }
    ensures shorter { IfOk result (λ x. length x.1.now < length symbols.now) }
{
    let (name, rest) = read_identifier(symbols)?;
    let (entries, rest) = read_names(alloc, rest)?;
    let (_, rest) = read_mark(Mark::Close, rest)?;
    Ok((FormText::OperatorList(ListText { name, entries }), rest))
}

/// What stands after `(define_predicates`.
fn read_predicates(
    alloc: Global,
    symbols: &[Symbol],
) -> Result<(FormText, &[Symbol]), SymbolStop<'_>>
    ensures reads { GivesInMemory (λ x. (form_of x.0, x.1.now)) result (readers.predicates_at symbols.now) }
    ensures shorter { IfOk result (λ x. length x.1.now < length symbols.now) }
{
    let (names, rest) = read_names(alloc, symbols)?;
    let (_, rest) = read_mark(Mark::Close, rest)?;
    Ok((FormText::Predicates(names), rest))
}

/// Whether a form begins here.
fn begins_form(symbols: &[Symbol]) -> bool
    ensures { result ≡ first_is readers.begins_form symbols.now }
{
    match symbols {
        [Symbol::Mark(Mark::Open, _), ..] => true,
        _ => false,
    }
}

/// Further forms, as many as there are.
#[cycle(form)]
fn read_further(
    alloc: Global,
    room: usize,
    first: Items<FormText>,
    symbols: &[Symbol],
) -> Result<(Items<FormText>, &[Symbol]), SymbolStop<'_>>
    requires roomy { length symbols.now < room }
    ensures reads { GivesInMemory (λ x. (map form_of x.0, x.1.now)) result (more_at readers.begins_form (readers.forms_at room) (map form_of first) symbols.now) }
    ensures no_longer { IfOk result (λ x. length x.1.now ≤ length symbols.now) }
{
    let mut forms = first;
    let mut rest = symbols;
    while begins_form(rest) {
        let (form, after) = read_within(alloc, room, rest)?;
        forms.push(form)?;
        rest = after;
    }
    Ok((forms, rest))
}

/// At least one form.
#[cycle(form)]
fn read_body(
    alloc: Global,
    room: usize,
    symbols: &[Symbol],
) -> Result<(Items<FormText>, &[Symbol]), SymbolStop<'_>>
    requires roomy { length symbols.now < room }
    ensures reads { GivesInMemory (λ x. (map form_of x.0, x.1.now)) result (readers.body_at (readers.forms_at room) symbols.now) }
    ensures shorter { IfOk result (λ x. length x.1.now < length symbols.now) }
{
    let (first, rest) = read_within(alloc, room, symbols)?;
    let mut forms = Items::new(alloc);
    forms.push(first)?;
    read_further(alloc, room, forms, rest)
}

/// What stands after `(for`.
#[cycle(form)]
fn read_for(
    alloc: Global,
    room: usize,
    at: Span,
    symbols: &[Symbol],
) -> Result<(FormText, &[Symbol]), SymbolStop<'_>>
    requires roomy { length symbols.now < room }
    ensures reads { GivesInMemory (λ x. (form_of x.0, x.1.now)) result (readers.for_at (readers.forms_at room) at symbols.now) }
    ensures shorter { IfOk result (λ x. length x.1.now < length symbols.now) }
{
    let (lists, rest) = read_lists(alloc, symbols)?;
    let (body, rest) = read_body(alloc, room, rest)?;
    let (_, rest) = read_mark(Mark::Close, rest)?;
    Ok((FormText::For(at, lists, body), rest))
}

/// What stands after `(if`.
#[cycle(form)]
fn read_if(
    alloc: Global,
    room: usize,
    symbols: &[Symbol],
) -> Result<(FormText, &[Symbol]), SymbolStop<'_>>
    requires roomy { length symbols.now < room }
    ensures reads { GivesInMemory (λ x. (form_of x.0, x.1.now)) result (readers.if_at (readers.forms_at room) symbols.now) }
    ensures shorter { IfOk result (λ x. length x.1.now < length symbols.now) }
{
    let (condition, rest) = read_condition(alloc, symbols)?;
    let (body, rest) = read_body(alloc, room, rest)?;
    let (_, rest) = read_mark(Mark::Close, rest)?;
    Ok((FormText::If(condition, body), rest))
}

/// What stands after the `(` of a form.
#[cycle(form)]
fn read_opened(
    alloc: Global,
    room: usize,
    at: Span,
    symbols: &[Symbol],
) -> Result<(FormText, &[Symbol]), SymbolStop<'_>>
    requires roomy { length symbols.now < room }
    ensures reads { GivesInMemory (λ x. (form_of x.0, x.1.now)) result (readers.opened_at readers.opening (readers.forms_at room) at symbols.now) }
    ensures shorter { IfOk result (λ x. length x.1.now < length symbols.now) }
{
    match symbols {
        [Symbol::Word(Word::Simplify, _), rest @ ..] => read_simplify(alloc, at, rest),
        [Symbol::Word(Word::Match, _), rest @ ..] => read_match(alloc, at, rest),
        [Symbol::Word(Word::For, _), rest @ ..] => read_for(alloc, room, at, rest),
        [Symbol::Word(Word::If, _), rest @ ..] => read_if(alloc, room, rest),
        _ => Err(offends(symbols).into()),
    }
}

/// A form in another one, whose parts are read by readers of one level less.
#[cycle(form)]
fn read_any(
    alloc: Global,
    room: usize,
    symbols: &[Symbol],
) -> Result<(FormText, &[Symbol]), SymbolStop<'_>>
    requires roomy { length symbols.now < room + 1 }
    ensures reads { GivesInMemory (λ x. (form_of x.0, x.1.now)) result (readers.any_form_at readers.opening (readers.forms_at room) symbols.now) }
    ensures shorter { IfOk result (λ x. length x.1.now < length symbols.now) }
{
    let (at, rest) = read_mark(Mark::Open, symbols)?;
    read_opened(alloc, room, at, rest)
}

/// A form in another one.
#[cycle(form)]
fn read_within(
    alloc: Global,
    room: usize,
    symbols: &[Symbol],
) -> Result<(FormText, &[Symbol]), SymbolStop<'_>>
    requires roomy { length symbols.now < room }
    ensures reads { GivesInMemory (λ x. (form_of x.0, x.1.now)) result (readers.forms_at room symbols.now) }
    ensures shorter { IfOk result (λ x. length x.1.now < length symbols.now) }
{
    read_any(alloc, room - 1, symbols)
}

/// What stands after a `(` at the top of a file.
fn read_top_opened(
    alloc: Global,
    room: usize,
    at: Span,
    symbols: &[Symbol],
) -> Result<(FormText, &[Symbol]), SymbolStop<'_>>
    requires roomy { length symbols.now < room }
    ensures reads { GivesInMemory (λ x. (form_of x.0, x.1.now)) result (readers.opened_at readers.top_opening (readers.forms_at room) at symbols.now) }
    ensures shorter { IfOk result (λ x. length x.1.now < length symbols.now) }
{
    match symbols {
        [Symbol::Word(Word::OperatorList, _), rest @ ..] => read_operators(alloc, rest),
        [Symbol::Word(Word::Predicates, _), rest @ ..] => read_predicates(alloc, rest),
        _ => read_opened(alloc, room, at, symbols),
    }
}

/// What stands at the top of a file.
pub(crate) fn read_top(
    alloc: Global,
    symbols: &[Symbol],
) -> Result<(FormText, &[Symbol]), SymbolStop<'_>>
    ensures reads { GivesInMemory (λ x. (form_of x.0, x.1.now)) result (readers.top_at symbols.now) }
    ensures shorter { IfOk result (λ x. length x.1.now < length symbols.now) }
{
    let (at, rest) = read_mark(Mark::Open, symbols)?;
    read_top_opened(alloc, symbols.len() + 1, at, rest)
}
