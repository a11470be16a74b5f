//! Expressions, by the ranks of their operators.
//!
//! What holds together by itself is read first, and then, rank by rank, the operators that go on
//! it: `*` first, `?:` last. Each reader is told that fewer than `room` symbols are left, so that
//! the recursion ends.

ghost use Rattle.std.specs.Prelude.{◌≡◌, ◌+◌, ◌<◌, ◌≤◌, length, map, option_map, IfOk, IfSome};
ghost use Rattle.grammar.specs.Gives.{GivesInMemory};
ghost use Rattle.grammar.specs.Reading.{first_is};
ghost use Rattle.cond_subset.specs.Trees.{expr_of};
ghost use Rattle.cond_subset.specs.Readers as readers;

use crate::operators::{ranked, unary_mark};
use crate::tokens::{offends, read_identifier, read_mark};
use crate::tree::{Callee, ExprText};
use pd_ast::{BinaryOperator, UnaryOperator};
use pd_text::{Mark, Symbol, SymbolStop, Word};
use pm_items::{Boxed, Items};
use pm_places::Span;
use std::alloc::Global;

/// Whether a comma stands here.
pub(crate) fn begins_further(symbols: &[Symbol]) -> bool
    ensures { result ≡ first_is readers.is_comma symbols.now }
{
    match symbols {
        [Symbol::Mark(Mark::Comma, _), ..] => true,
        _ => false,
    }
}

/// A comma and an argument.
#[cycle(expression)]
pub(crate) fn read_further(
    alloc: Global,
    room: usize,
    symbols: &[Symbol],
) -> Result<(ExprText, &[Symbol]), SymbolStop<'_>>
    requires roomy { length symbols.now < room + 1 }
    ensures reads { GivesInMemory (λ x. (expr_of x.0, x.1.now)) result (readers.further_at (readers.readers room) symbols.now) }
    ensures shorter { IfOk result (λ x. length x.1.now < length symbols.now) }
{
    let (_, rest) = read_mark(Mark::Comma, symbols)?;
    read_within(alloc, room, 10, rest)
}

/// The arguments of a call, one or more.
#[cycle(expression)]
fn read_args(
    alloc: Global,
    room: usize,
    symbols: &[Symbol],
) -> Result<(Items<ExprText>, &[Symbol]), SymbolStop<'_>>
    requires roomy { length symbols.now < room }
    ensures reads { GivesInMemory (λ x. (map expr_of x.0, x.1.now)) result (readers.args_at (readers.readers room) symbols.now) }
    ensures shorter { IfOk result (λ x. length x.1.now < length symbols.now) }
{
    let (first, mut rest) = read_within(alloc, room, 10, symbols)?;
    let mut args = Items::new(alloc);
    args.push(first)?;
    while begins_further(rest) {
        let (arg, after) = read_further(alloc, room, rest)?;
        args.push(arg)?;
        rest = after;
    }
    Ok((args, rest))
}

/// The arguments of a call after its `(`, and the `)`.
#[cycle(expression)]
fn read_closed(
    alloc: Global,
    room: usize,
    callee: Callee,
    symbols: &[Symbol],
) -> Result<(ExprText, &[Symbol]), SymbolStop<'_>>
    requires roomy { length symbols.now < room }
    ensures reads { GivesInMemory (λ x. (expr_of x.0, x.1.now)) result (readers.closed_at (readers.readers room) callee symbols.now) }
    ensures shorter { IfOk result (λ x. length x.1.now < length symbols.now) }
{
    match symbols {
        [Symbol::Mark(Mark::Close, _), rest @ ..] => {
            Ok((ExprText::Call(callee, Items::new(alloc)), rest))
        }
        _ => {
            let (args, rest) = read_args(alloc, room, symbols)?;
            let (_, rest) = read_mark(Mark::Close, rest)?;
            Ok((ExprText::Call(callee, args), rest))
        }
    }
}

/// What stands after a name: the arguments of a call, or nothing.
#[cycle(expression)]
fn read_named(
    alloc: Global,
    room: usize,
    at: Span,
    symbols: &[Symbol],
) -> Result<(ExprText, &[Symbol]), SymbolStop<'_>>
    requires roomy { length symbols.now < room }
    ensures reads { GivesInMemory (λ x. (expr_of x.0, x.1.now)) result (readers.named_at (readers.readers room) at symbols.now) }
    ensures no_longer { IfOk result (λ x. length x.1.now ≤ length symbols.now) }
{
    match symbols {
        [Symbol::Mark(Mark::Open, _), rest @ ..] => {
            let callee = Callee {
                wide: None,
                name: at,
            };
            read_closed(alloc, room, callee, rest)
        }
        _ => Ok((ExprText::Name(at), symbols)),
    }
}

/// What stands after `wi::`: a call.
#[cycle(expression)]
fn read_wide(
    alloc: Global,
    room: usize,
    at: Span,
    symbols: &[Symbol],
) -> Result<(ExprText, &[Symbol]), SymbolStop<'_>>
    requires roomy { length symbols.now < room }
    ensures reads { GivesInMemory (λ x. (expr_of x.0, x.1.now)) result (readers.wide_at (readers.readers room) at symbols.now) }
    ensures shorter { IfOk result (λ x. length x.1.now < length symbols.now) }
{
    let (name, rest) = read_identifier(symbols)?;
    let (_, rest) = read_mark(Mark::Open, rest)?;
    let callee = Callee {
        wide: Some(at),
        name,
    };
    read_closed(alloc, room, callee, rest)
}

/// What stands after `wi`.
#[cycle(expression)]
fn read_after_wide(
    alloc: Global,
    room: usize,
    at: Span,
    symbols: &[Symbol],
) -> Result<(ExprText, &[Symbol]), SymbolStop<'_>>
    requires roomy { length symbols.now < room }
    ensures reads { GivesInMemory (λ x. (expr_of x.0, x.1.now)) result (readers.after_wide_at (readers.readers room) at symbols.now) }
    ensures no_longer { IfOk result (λ x. length x.1.now ≤ length symbols.now) }
{
    match symbols {
        [Symbol::Mark(Mark::DoubleColon, _), rest @ ..] => read_wide(alloc, room, at, rest),
        _ => read_named(alloc, room, at, symbols),
    }
}

/// What stands after `(`: an expression and `)`.
#[cycle(expression)]
fn read_parens(
    alloc: Global,
    room: usize,
    at: Span,
    symbols: &[Symbol],
) -> Result<(ExprText, &[Symbol]), SymbolStop<'_>>
    requires roomy { length symbols.now < room }
    ensures reads { GivesInMemory (λ x. (expr_of x.0, x.1.now)) result (readers.parens_at (readers.readers room) at symbols.now) }
    ensures shorter { IfOk result (λ x. length x.1.now < length symbols.now) }
{
    let (inner, rest) = read_within(alloc, room, 10, symbols)?;
    let (_, rest) = read_mark(Mark::Close, rest)?;
    Ok((ExprText::Parens(at, Boxed::new(alloc, inner)?), rest))
}

/// The operand of an operator that stands before it.
#[cycle(expression)]
fn read_prefixed(
    alloc: Global,
    room: usize,
    operator: UnaryOperator,
    at: Span,
    symbols: &[Symbol],
) -> Result<(ExprText, &[Symbol]), SymbolStop<'_>>
    requires roomy { length symbols.now < room }
    ensures reads { GivesInMemory (λ x. (expr_of x.0, x.1.now)) result (readers.under_at (readers.readers room) operator at symbols.now) }
    ensures shorter { IfOk result (λ x. length x.1.now < length symbols.now) }
{
    let (operand, rest) = read_within(alloc, room, 0, symbols)?;
    let operand = Boxed::new(alloc, operand)?;
    Ok((ExprText::Unary(operator, at, operand), rest))
}

/// What holds together by itself: a number, a capture, a name, a call, parentheses, or such an
/// operand after an operator.
#[cycle(expression)]
fn read_operand(
    alloc: Global,
    room: usize,
    symbols: &[Symbol],
) -> Result<(ExprText, &[Symbol]), SymbolStop<'_>>
    requires roomy { length symbols.now < room + 1 }
    ensures reads { GivesInMemory (λ x. (expr_of x.0, x.1.now)) result (readers.operand_at (readers.readers room) symbols.now) }
    ensures shorter { IfOk result (λ x. length x.1.now < length symbols.now) }
{
    match symbols {
        [Symbol::Number(at), rest @ ..] => Ok((ExprText::Number(*at), rest)),
        [Symbol::Capture(capture), rest @ ..] if !capture.by_value => {
            Ok((ExprText::Capture(capture.at), rest))
        }
        [Symbol::Identifier(at), rest @ ..] => read_named(alloc, room, *at, rest),
        [Symbol::Word(Word::Wide, at), rest @ ..] => read_after_wide(alloc, room, *at, rest),
        [Symbol::Word(_, at), rest @ ..] => read_named(alloc, room, *at, rest),
        [Symbol::Mark(Mark::Open, at), rest @ ..] => read_parens(alloc, room, *at, rest),
        [Symbol::Mark(mark, at), rest @ ..] => match unary_mark(*mark) {
            Some(operator) => read_prefixed(alloc, room, operator, *at, rest),
            None => Err(offends(symbols).into()),
        },
        _ => Err(offends(symbols).into()),
    }
}

/// The operator of rank `below + 1` that stands here.
fn operator_here(below: usize, symbols: &[Symbol]) -> Option<((BinaryOperator, Span), &[Symbol])>
    requires { below < 10 }
    ensures here { option_map (λ x. (x.0, x.1.now)) result ≡ readers.operator_here below symbols.now }
    ensures shorter { IfSome result (λ x. length x.1.now < length symbols.now) }
{
    let [first, rest @ ..] = symbols else {
        return None;
    };
    match ranked(below + 1, *first) {
        Some(operator) => Some((operator, rest)),
        None => None,
    }
}

/// The operators of rank `below + 1` that go on `left`, each with its right operand.
#[cycle(expression)]
fn read_chain(
    alloc: Global,
    room: usize,
    below: usize,
    left: ExprText,
    symbols: &[Symbol],
) -> Result<(ExprText, &[Symbol]), SymbolStop<'_>>
    requires roomy { length symbols.now < room + 1 }
    requires ranked { below < 10 }
    ensures reads { GivesInMemory (λ x. (expr_of x.0, x.1.now)) result (readers.chain_at (readers.readers room) below (expr_of left) symbols.now) }
    ensures no_longer { IfOk result (λ x. length x.1.now ≤ length symbols.now) }
{
    let mut left = left;
    let mut rest = symbols;
    while let Some(((operator, at), after)) = operator_here(below, rest) {
        let (right, after) = read_within(alloc, room, below, after)?;
        left = ExprText::Binary(
            operator,
            at,
            Boxed::new(alloc, left)?,
            Boxed::new(alloc, right)?,
        );
        rest = after;
    }
    Ok((left, rest))
}

/// The rest of `c ? a : b`, where there is one.
#[cycle(expression)]
fn read_choice(
    alloc: Global,
    room: usize,
    condition: ExprText,
    symbols: &[Symbol],
) -> Result<(ExprText, &[Symbol]), SymbolStop<'_>>
    requires roomy { length symbols.now < room + 1 }
    ensures reads { GivesInMemory (λ x. (expr_of x.0, x.1.now)) result (readers.choice_at (readers.readers room) (expr_of condition) symbols.now) }
    ensures no_longer { IfOk result (λ x. length x.1.now ≤ length symbols.now) }
{
    let [Symbol::Mark(Mark::Question, at), rest @ ..] = symbols else {
        return Ok((condition, symbols));
    };
    let (then, rest) = read_within(alloc, room, 10, rest)?;
    let (_, rest) = read_mark(Mark::Colon, rest)?;
    let (otherwise, rest) = read_within(alloc, room, 10, rest)?;
    let condition = Boxed::new(alloc, condition)?;
    let then = Boxed::new(alloc, then)?;
    let otherwise = Boxed::new(alloc, otherwise)?;
    Ok((ExprText::Choose(*at, condition, then, otherwise), rest))
}

/// What goes on `left` at rank `below + 1`.
#[cycle(expression)]
fn read_link(
    alloc: Global,
    room: usize,
    below: usize,
    left: ExprText,
    symbols: &[Symbol],
) -> Result<(ExprText, &[Symbol]), SymbolStop<'_>>
    requires roomy { length symbols.now < room + 1 }
    requires ranked { below < 10 }
    ensures reads { GivesInMemory (λ x. (expr_of x.0, x.1.now)) result (readers.link_at (readers.readers room) below (expr_of left) symbols.now) }
    ensures no_longer { IfOk result (λ x. length x.1.now ≤ length symbols.now) }
{
    if below == 9 {
        read_choice(alloc, room, left, symbols)
    } else {
        read_chain(alloc, room, below, left, symbols)
    }
}

/// What goes on `first` at each rank up to this one.
#[cycle(expression)]
#[tactic(auto, using(crate::proofs::Depths::links_stop))]
pub(crate) fn read_links(
    alloc: Global,
    room: usize,
    rank: usize,
    first: ExprText,
    symbols: &[Symbol],
) -> Result<(ExprText, &[Symbol]), SymbolStop<'_>>
    requires roomy { length symbols.now < room + 1 }
    requires ranked { rank ≤ 10 }
    ensures reads { GivesInMemory (λ x. (expr_of x.0, x.1.now)) result (readers.links_at (readers.readers room) rank (expr_of first) symbols.now) }
    ensures no_longer { IfOk result (λ x. length x.1.now ≤ length symbols.now) }
{
    let mut left = first;
    let mut rest = symbols;
    for below in 0..rank {
        (left, rest) = read_link(alloc, room, below, left, rest)?;
    }
    Ok((left, rest))
}

/// What holds together by itself, and what goes on it at each rank up to this one.
#[cycle(expression)]
fn read_ranked(
    alloc: Global,
    room: usize,
    rank: usize,
    symbols: &[Symbol],
) -> Result<(ExprText, &[Symbol]), SymbolStop<'_>>
    requires roomy { length symbols.now < room + 1 }
    requires ranked { rank ≤ 10 }
    ensures reads { GivesInMemory (λ x. (expr_of x.0, x.1.now)) result (readers.within_at (readers.readers room) rank symbols.now) }
    ensures shorter { IfOk result (λ x. length x.1.now < length symbols.now) }
{
    let (first, rest) = read_operand(alloc, room, symbols)?;
    read_links(alloc, room, rank, first, rest)
}

/// An expression that binds at least as tight as this rank; 10 takes each.
#[cycle(expression)]
pub(crate) fn read_within(
    alloc: Global,
    room: usize,
    rank: usize,
    symbols: &[Symbol],
) -> Result<(ExprText, &[Symbol]), SymbolStop<'_>>
    requires roomy { length symbols.now < room }
    requires ranked { rank ≤ 10 }
    ensures reads { GivesInMemory (λ x. (expr_of x.0, x.1.now)) result (readers.readers room rank symbols.now) }
    ensures shorter { IfOk result (λ x. length x.1.now < length symbols.now) }
{
    read_ranked(alloc, room - 1, rank, symbols)
}
