//! Tails of the cases of predicates.
//!
//! Each reader is told that fewer than `room` symbols are left, so that the recursion ends.

ghost use Rattle.std.specs.Prelude.{◌≡◌, ◌+◌, ◌<◌, ◌≤◌, length, map, IfOk};
ghost use Rattle.grammar.specs.Gives.{GivesInMemory};
ghost use Rattle.grammar.specs.Exact.{IsExact};
ghost use Rattle.cond_subset.specs.Trees.{expr_of};
ghost use Rattle.cond_subset.specs.Declarations.{decl_of};
ghost use Rattle.pd_forms.specs.Tails.{tail_of, IsOpen, SpellsTail};
ghost use Rattle.pd_forms.specs.TailReaders as readers;

use crate::c_parts::{read_condition, read_declarations};
use crate::tokens::{offends, read_mark};
use crate::tree::TailText;
use cond_subset::{DeclText, ExprText};
use pd_text::{Mark, Symbol, SymbolStop, Word};
use pm_items::{Boxed, Items};
use std::alloc::Global;

/// The `)` of an `if`.
fn close_if(
    alloc: Global,
    condition: ExprText,
    inner: TailText,
    symbols: &[Symbol],
) -> Result<(TailText, &[Symbol]), SymbolStop<'_>>
    ensures reads { GivesInMemory (λ x. (tail_of x.0, x.1.now)) result (readers.close_if_at (expr_of condition) (tail_of inner) symbols.now) }
    ensures no_longer { IfOk result (λ x. length x.1.now ≤ length symbols.now) }
{
    let (_, rest) = read_mark(Mark::Close, symbols)?;
    let inner = Boxed::new(alloc, inner)?;
    Ok((TailText::If(condition, inner), rest))
}

/// The `)` of a `with`.
fn close_with(
    alloc: Global,
    declarations: Items<DeclText>,
    inner: TailText,
    symbols: &[Symbol],
) -> Result<(TailText, &[Symbol]), SymbolStop<'_>>
    ensures reads { GivesInMemory (λ x. (tail_of x.0, x.1.now)) result (readers.close_with_at (map decl_of declarations) (tail_of inner) symbols.now) }
    ensures no_longer { IfOk result (λ x. length x.1.now ≤ length symbols.now) }
{
    let (_, rest) = read_mark(Mark::Close, symbols)?;
    let inner = Boxed::new(alloc, inner)?;
    Ok((TailText::With(declarations, inner), rest))
}

/// What stands after `(if`.
#[cycle(tail)]
fn read_conditional(
    alloc: Global,
    room: usize,
    symbols: &[Symbol],
) -> Result<(TailText, &[Symbol]), SymbolStop<'_>>
    requires roomy { length symbols.now < room }
    ensures reads { GivesInMemory (λ x. (tail_of x.0, x.1.now)) result (readers.conditional_at (readers.tails_at room) symbols.now) }
    ensures no_longer { IfOk result (λ x. length x.1.now ≤ length symbols.now) }
{
    let (condition, rest) = read_condition(alloc, symbols)?;
    let (inner, rest) = read_within(alloc, room, rest)?;
    close_if(alloc, condition, inner, rest)
}

/// What stands after `(with`.
#[cycle(tail)]
fn read_with(
    alloc: Global,
    room: usize,
    symbols: &[Symbol],
) -> Result<(TailText, &[Symbol]), SymbolStop<'_>>
    requires roomy { length symbols.now < room }
    ensures reads { GivesInMemory (λ x. (tail_of x.0, x.1.now)) result (readers.with_at (readers.tails_at room) symbols.now) }
    ensures no_longer { IfOk result (λ x. length x.1.now ≤ length symbols.now) }
{
    let (declarations, rest) = read_declarations(alloc, symbols)?;
    let (inner, rest) = read_within(alloc, room, rest)?;
    close_with(alloc, declarations, inner, rest)
}

/// A tail, whose inner tail is read by readers of one level less.
#[cycle(tail)]
fn read_any(
    alloc: Global,
    room: usize,
    symbols: &[Symbol],
) -> Result<(TailText, &[Symbol]), SymbolStop<'_>>
    requires roomy { length symbols.now < room + 1 }
    ensures reads { GivesInMemory (λ x. (tail_of x.0, x.1.now)) result (readers.tail_at (readers.tails_at room) symbols.now) }
    ensures no_longer { IfOk result (λ x. length x.1.now ≤ length symbols.now) }
{
    match symbols {
        [
            Symbol::Mark(Mark::Open, _),
            Symbol::Word(Word::If, _),
            rest @ ..,
        ] => { read_conditional(alloc, room, rest) }
        [
            Symbol::Mark(Mark::Open, _),
            Symbol::Word(Word::With, _),
            rest @ ..,
        ] => { read_with(alloc, room, rest) }
        [Symbol::Mark(Mark::Open, _), rest @ ..] => Err(offends(rest).into()),
        _ => Ok((TailText::Empty, symbols)),
    }
}

/// A tail.
#[cycle(tail)]
fn read_within(
    alloc: Global,
    room: usize,
    symbols: &[Symbol],
) -> Result<(TailText, &[Symbol]), SymbolStop<'_>>
    requires roomy { length symbols.now < room }
    ensures reads { GivesInMemory (λ x. (tail_of x.0, x.1.now)) result (readers.tails_at room symbols.now) }
    ensures no_longer { IfOk result (λ x. length x.1.now ≤ length symbols.now) }
{
    read_any(alloc, room - 1, symbols)
}

/// The tail that the symbols begin with, and what is after it.
pub fn read_tail(alloc: Global, symbols: &[Symbol]) -> Result<(TailText, &[Symbol]), SymbolStop<'_>>
    ensures reads { GivesInMemory (λ x. (tail_of x.0, x.1.now)) result (readers.whole_tail_at symbols.now) }
    // What is read is spelled so, as far as a tail goes, and a fault is the first.
    ensures exact { IsExact SpellsTail IsOpen symbols.now (readers.whole_tail_at symbols.now) }
    ensures no_longer { IfOk result (λ x. length x.1.now ≤ length symbols.now) }
{
    read_within(alloc, symbols.len() + 1, symbols)
}
