//! Readers of one symbol, and of symbols that may be left out. A fault is at the symbol, or at the
//! end where there is none.

ghost use Rattle.std.specs.Prelude.{◌≡◌, ◌<◌, ◌≤◌, length, IfOk};
ghost use Rattle.grammar.specs.Gives.{Gives};
ghost use Rattle.pd_forms.specs.SymbolReaders as readers;

use crate::tree::HeadText;
use grammar::Fault;
use pd_text::{Capture, Mark, Symbol, SymbolFault, Word, identifier, mark, word};
use pm_ops::PatternKind;
use pm_places::Span;

/// A fault of syntax at the first of these symbols, or at the end.
pub fn offends(symbols: &[Symbol]) -> SymbolFault<'_>
    ensures kind { result.kind ≡ readers.offends }
    ensures rest { result.rest.now ≡ symbols.now }
{
    Fault {
        kind: PatternKind::Syntax,
        rest: symbols,
    }
}

/// The place of this mark.
pub fn read_mark(asked: Mark, symbols: &[Symbol]) -> Result<(Span, &[Symbol]), SymbolFault<'_>>
    ensures reads { Gives (λ x. (x.0, x.1.now)) result (readers.mark_at asked symbols.now) }
    ensures shorter { IfOk result (λ x. length x.1.now < length symbols.now) }
{
    if let [first, rest @ ..] = symbols {
        if let Some(at) = mark(*first, asked) {
            return Ok((at, rest));
        }
    }
    Err(offends(symbols))
}

/// The place of an identifier.
pub fn read_identifier(symbols: &[Symbol]) -> Result<(Span, &[Symbol]), SymbolFault<'_>>
    ensures reads { Gives (λ x. (x.0, x.1.now)) result (readers.identifier_at symbols.now) }
    ensures shorter { IfOk result (λ x. length x.1.now < length symbols.now) }
{
    if let [first, rest @ ..] = symbols {
        if let Some(at) = identifier(*first) {
            return Ok((at, rest));
        }
    }
    Err(offends(symbols))
}

/// The capture that a symbol is, if it is joined to what stands before.
fn joined(symbol: Symbol) -> Option<Capture>
    ensures { result ≡ readers.joined symbol }
{
    match symbol {
        Symbol::Capture(capture) if capture.joined => Some(capture),
        _ => None,
    }
}

/// A joined capture, where there is one.
pub(crate) fn read_joined(symbols: &[Symbol]) -> (Option<Capture>, &[Symbol])
    ensures reads { readers.maybe_at readers.joined symbols.now ≡ Ok (result.0, result.1.now) }
    ensures no_longer { length result.1.now ≤ length symbols.now }
{
    if let [first, rest @ ..] = symbols {
        if let Some(capture) = joined(*first) {
            return (Some(capture), rest);
        }
    }
    (None, symbols)
}

/// This mark, where it stands here.
pub(crate) fn read_optional_mark(asked: Mark, symbols: &[Symbol]) -> (Option<Span>, &[Symbol])
    ensures reads { readers.maybe_mark_at asked symbols.now ≡ Ok (result.0, result.1.now) }
    ensures no_longer { length result.1.now ≤ length symbols.now }
{
    if let [first, rest @ ..] = symbols {
        if let Some(at) = mark(*first, asked) {
            return (Some(at), rest);
        }
    }
    (None, symbols)
}

/// A `:` and an identifier, where a `:` stands here.
pub(crate) fn read_label(symbols: &[Symbol]) -> Result<(Option<Span>, &[Symbol]), SymbolFault<'_>>
    ensures reads { Gives (λ x. (x.0, x.1.now)) result (readers.label_at symbols.now) }
    ensures no_longer { IfOk result (λ x. length x.1.now ≤ length symbols.now) }
{
    let (colon, rest) = read_optional_mark(Mark::Colon, symbols);
    if colon.is_none() {
        return Ok((None, rest));
    }
    let (name, rest) = read_identifier(rest)?;
    Ok((Some(name), rest))
}

/// What stands after the name of an operation, as far as its head goes.
pub(crate) fn read_head_after(
    name: Span,
    asked: Mark,
    symbols: &[Symbol],
) -> Result<(HeadText, &[Symbol]), SymbolFault<'_>>
    ensures reads { Gives (λ x. (x.0, x.1.now)) result (readers.head_after_at name asked symbols.now) }
    ensures no_longer { IfOk result (λ x. length x.1.now ≤ length symbols.now) }
{
    let (marked, rest) = read_optional_mark(asked, symbols);
    let (label, rest) = read_label(rest)?;
    let head = HeadText {
        name,
        marked,
        label,
    };
    Ok((head, rest))
}

/// The mark that closes a C part.
pub(crate) fn read_closing(
    asked: Mark,
    symbols: &[Symbol],
) -> Result<(Span, &[Symbol]), SymbolFault<'_>>
    ensures reads { Gives (λ x. (x.0, x.1.now)) result (readers.closing_at asked symbols.now) }
    ensures shorter { IfOk result (λ x. length x.1.now < length symbols.now) }
{
    if let [first, rest @ ..] = symbols {
        if let Some(at) = mark(*first, asked) {
            return Ok((at, rest));
        }
    }
    Err(Fault {
        kind: PatternKind::CSyntax,
        rest: symbols,
    })
}

/// The place of this word.
pub(crate) fn read_word(
    asked: Word,
    symbols: &[Symbol],
) -> Result<(Span, &[Symbol]), SymbolFault<'_>>
    ensures reads { Gives (λ x. (x.0, x.1.now)) result (readers.word_at asked symbols.now) }
    ensures shorter { IfOk result (λ x. length x.1.now < length symbols.now) }
{
    if let [first, rest @ ..] = symbols {
        if let Some(at) = word(*first, asked) {
            return Ok((at, rest));
        }
    }
    Err(offends(symbols))
}
