//! Results that no condition stands round: captures, operands in braces, operations.
//!
//! Each reader is told that fewer than `room` symbols are left, so that the recursion ends.

ghost use Rattle.std.specs.Prelude.{◌≡◌, ◌+◌, ◌<◌, ◌≤◌, [], length, map, IfOk};
ghost use Rattle.grammar.specs.Gives.{Gives, GivesInMemory};
ghost use Rattle.grammar.specs.Reading.{first_is, more_at};
ghost use Rattle.pd_forms.specs.Results.{leaf_of};
ghost use Rattle.grammar.specs.Exact.{IsExact};
ghost use Rattle.pd_forms.specs.ResultGrammar.{SpellsLeaf};
ghost use Rattle.pd_forms.specs.LeafReaders as readers;

use crate::c_parts::read_braced;
use crate::tokens::{offends, read_head_after, read_mark};
use crate::tree::LeafText;
use pd_text::{Mark, Symbol, SymbolFault, SymbolStop, Word};
use pm_items::Items;
use pm_places::Span;
use std::alloc::Global;

/// The place of the symbol, if it may be the name of an operation: an identifier but `if`, `switch`
/// and `with`.
fn leaf_name(symbol: Symbol) -> Option<Span>
    ensures { result ≡ readers.leaf_name symbol }
{
    match symbol {
        Symbol::Word(Word::If | Word::Switch | Word::With, _) => None,
        Symbol::Word(_, at) | Symbol::Identifier(at) => Some(at),
        _ => None,
    }
}

/// The name of an operation.
fn read_leaf_name(symbols: &[Symbol]) -> Result<(Span, &[Symbol]), SymbolFault<'_>>
    ensures reads { Gives (λ x. (x.0, x.1.now)) result (readers.leaf_name_at symbols.now) }
    ensures shorter { IfOk result (λ x. length x.1.now < length symbols.now) }
{
    if let [first, rest @ ..] = symbols {
        if let Some(at) = leaf_name(*first) {
            return Ok((at, rest));
        }
    }
    Err(offends(symbols))
}

/// Whether a result begins here.
pub(crate) fn begins_result(symbols: &[Symbol]) -> bool
    ensures { result ≡ first_is readers.begins_result symbols.now }
{
    match symbols {
        [Symbol::Capture(capture), ..] => !(capture.joined || capture.by_value),
        [Symbol::Mark(Mark::Open | Mark::OpenBrace, _), ..] => true,
        _ => false,
    }
}

/// Operands, as many as there are.
#[cycle(leaf)]
fn read_leaves(
    alloc: Global,
    room: usize,
    symbols: &[Symbol],
) -> Result<(Items<LeafText>, &[Symbol]), SymbolStop<'_>>
    requires roomy { length symbols.now < room }
    ensures reads { GivesInMemory (λ x. (map leaf_of x.0, x.1.now)) result (more_at readers.begins_result (readers.leaves_at room) [] symbols.now) }
    ensures no_longer { IfOk result (λ x. length x.1.now ≤ length symbols.now) }
{
    let mut operands = Items::new(alloc);
    let mut rest = symbols;
    while begins_result(rest) {
        let (operand, after) = read_within(alloc, room, rest)?;
        operands.push(operand)?;
        rest = after;
    }
    Ok((operands, rest))
}

/// An operation after its name.
#[cycle(leaf)]
pub(crate) fn read_named(
    alloc: Global,
    room: usize,
    open: Span,
    name: Span,
    symbols: &[Symbol],
) -> Result<(LeafText, &[Symbol]), SymbolStop<'_>>
    requires roomy { length symbols.now < room }
    ensures reads { GivesInMemory (λ x. (leaf_of x.0, x.1.now)) result (readers.named_at (readers.leaves_at room) «open» name symbols.now) }
    ensures shorter { IfOk result (λ x. length x.1.now < length symbols.now) }
{
    let (head, rest) = read_head_after(name, Mark::Exclamation, symbols)?;
    let (operands, rest) = read_leaves(alloc, room, rest)?;
    let (_, rest) = read_mark(Mark::Close, rest)?;
    Ok((LeafText::Operation(open, head, operands), rest))
}

/// Such a result, whose operands are read by readers of one level less.
#[cycle(leaf)]
fn read_any(
    alloc: Global,
    room: usize,
    symbols: &[Symbol],
) -> Result<(LeafText, &[Symbol]), SymbolStop<'_>>
    requires roomy { length symbols.now < room + 1 }
    ensures reads { GivesInMemory (λ x. (leaf_of x.0, x.1.now)) result (readers.leaf_at (readers.leaves_at room) symbols.now) }
    ensures shorter { IfOk result (λ x. length x.1.now < length symbols.now) }
{
    match symbols {
        [Symbol::Capture(capture), rest @ ..] if !(capture.joined || capture.by_value) => {
            Ok((LeafText::Capture(capture.at), rest))
        }
        [Symbol::Mark(Mark::OpenBrace, at), rest @ ..] => {
            let (value, rest) = read_braced(alloc, rest)?;
            Ok((LeafText::Brace(*at, value), rest))
        }
        [Symbol::Mark(Mark::Open, at), rest @ ..] => {
            let (name, rest) = read_leaf_name(rest)?;
            read_named(alloc, room, *at, name, rest)
        }
        _ => Err(offends(symbols).into()),
    }
}

/// Such a result.
#[cycle(leaf)]
fn read_within(
    alloc: Global,
    room: usize,
    symbols: &[Symbol],
) -> Result<(LeafText, &[Symbol]), SymbolStop<'_>>
    requires roomy { length symbols.now < room }
    ensures reads { GivesInMemory (λ x. (leaf_of x.0, x.1.now)) result (readers.leaves_at room symbols.now) }
    ensures shorter { IfOk result (λ x. length x.1.now < length symbols.now) }
{
    read_any(alloc, room - 1, symbols)
}

/// The result without conditions that the symbols begin with, and what is after it.
pub fn read_leaf(alloc: Global, symbols: &[Symbol]) -> Result<(LeafText, &[Symbol]), SymbolStop<'_>>
    ensures reads { GivesInMemory (λ x. (leaf_of x.0, x.1.now)) result (readers.whole_leaf_at symbols.now) }
    // What is read is spelled so, as far as such a result goes, and a fault is the first. It ends
    // by itself.
    ensures exact { IsExact SpellsLeaf (λ t. ⊥) symbols.now (readers.whole_leaf_at symbols.now) }
    ensures shorter { IfOk result (λ x. length x.1.now < length symbols.now) }
{
    read_within(alloc, symbols.len() + 1, symbols)
}
