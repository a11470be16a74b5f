//! What one symbol means where a grammar asks for a mark, a word, a name, a number or a capture.

ghost use Rattle.std.specs.Prelude.{◌≡◌};
ghost use Rattle.pd_text.specs.Meanings as meanings;

use crate::symbol::{Mark, Symbol, Word};
use pm_places::Span;

/// The place of the symbol, if it is this mark.
pub fn mark(symbol: Symbol, mark: Mark) -> Option<Span>
    ensures { result ≡ meanings.mark mark symbol }
{
    match symbol {
        Symbol::Mark(found, at) if found == mark => Some(at),
        _ => None,
    }
}

/// The place of the symbol, if it is this word.
pub fn word(symbol: Symbol, word: Word) -> Option<Span>
    ensures { result ≡ meanings.word word symbol }
{
    match symbol {
        Symbol::Word(found, at) if found == word => Some(at),
        _ => None,
    }
}

/// The place of the symbol, if it is an identifier: the words that grammars quote are identifiers too.
pub fn identifier(symbol: Symbol) -> Option<Span>
    ensures { result ≡ meanings.identifier symbol }
{
    match symbol {
        Symbol::Identifier(at) | Symbol::Word(_, at) => Some(at),
        _ => None,
    }
}

/// The place of the symbol, if it is a number.
pub fn number(symbol: Symbol) -> Option<Span>
    ensures { result ≡ meanings.number symbol }
{
    match symbol {
        Symbol::Number(at) => Some(at),
        _ => None,
    }
}

/// The place of the symbol, if it is a capture written with one `@`, joined or not.
pub fn plain_capture(symbol: Symbol) -> Option<Span>
    ensures { result ≡ meanings.plain_capture symbol }
{
    match symbol {
        Symbol::Capture(capture) if !capture.by_value => Some(capture.at),
        _ => None,
    }
}
