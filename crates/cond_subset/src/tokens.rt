//! Readers of one symbol. A fault is at the symbol, or at the end where there is none.

ghost use Rattle.std.specs.Prelude.{◌≡◌, ◌<◌, length, IfOk};
ghost use Rattle.grammar.specs.Gives.{Gives};
ghost use Rattle.cond_subset.specs.Readers as readers;
ghost use Rattle.cond_subset.specs.DeclarationReaders.{word_at};

use grammar::Fault;
use pd_text::{Mark, Symbol, SymbolFault, Word, identifier, mark, word};
use pm_ops::PatternKind;
use pm_places::Span;

/// A fault of a C part at the first of these symbols, or at the end.
pub(crate) fn offends(symbols: &[Symbol]) -> SymbolFault<'_>
    ensures kind { result.kind ≡ readers.offends }
    ensures rest { result.rest.now ≡ symbols.now }
{
    Fault {
        kind: PatternKind::CSyntax,
        rest: symbols,
    }
}

/// The place of this mark.
pub(crate) fn read_mark(
    asked: Mark,
    symbols: &[Symbol],
) -> Result<(Span, &[Symbol]), SymbolFault<'_>>
    ensures reads { Gives (λ x. (x.0, x.1.now)) result (readers.mark_at asked symbols.now) }
    ensures shorter { IfOk result (λ x. length x.1.now < length symbols.now) }
{
    if let [first, rest @ ..] = symbols {
        if let Some(at) = mark(*first, asked) {
            return Ok((at, rest));
        }
    }
    Err(offends(symbols))
}

/// The place of an identifier.
pub(crate) fn read_identifier(symbols: &[Symbol]) -> Result<(Span, &[Symbol]), SymbolFault<'_>>
    ensures reads { Gives (λ x. (x.0, x.1.now)) result (readers.identifier_at symbols.now) }
    ensures shorter { IfOk result (λ x. length x.1.now < length symbols.now) }
{
    if let [first, rest @ ..] = symbols {
        if let Some(at) = identifier(*first) {
            return Ok((at, rest));
        }
    }
    Err(offends(symbols))
}

/// The place of this word.
pub(crate) fn read_word(
    asked: Word,
    symbols: &[Symbol],
) -> Result<(Span, &[Symbol]), SymbolFault<'_>>
    ensures reads { Gives (λ x. (x.0, x.1.now)) result (word_at asked symbols.now) }
    ensures shorter { IfOk result (λ x. length x.1.now < length symbols.now) }
{
    if let [first, rest @ ..] = symbols {
        if let Some(at) = word(*first, asked) {
            return Ok((at, rest));
        }
    }
    Err(offends(symbols))
}
