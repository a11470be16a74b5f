//! What one token means where the grammar asks for a mark, a word, a name or a number.

ghost use Rattle.std.specs.Prelude.{◌≡◌};
ghost use Rattle.gim_text.specs.Meanings as meanings;

use crate::token::{Keyword, Mark, NumberKind, Token, TypeWord};
use pm_places::Span;

/// The place of the token, if it is this mark.
pub fn mark(token: Token, mark: Mark) -> Option<Span>
    ensures { result ≡ meanings.mark mark token }
{
    match token {
        Token::Mark(found, at) if found == mark => Some(at),
        _ => None,
    }
}

/// The place of the token, if it is this reserved word.
pub fn keyword(token: Token, keyword: Keyword) -> Option<Span>
    ensures { result ≡ meanings.keyword keyword token }
{
    match token {
        Token::Keyword(found, at) if found == keyword => Some(at),
        _ => None,
    }
}

/// The word of a type.
pub fn type_word(token: Token) -> Option<TypeWord>
    ensures { result ≡ meanings.type_word token }
{
    match token {
        Token::TypeWord(word, _) => Some(word),
        _ => None,
    }
}

/// The place of the token, if it is an identifier that is not reserved.
pub fn identifier(token: Token) -> Option<Span>
    ensures { result ≡ meanings.identifier token }
{
    match token {
        Token::Identifier(at) | Token::Ssa(at) => Some(at),
        _ => None,
    }
}

/// The place of the token, if it is `__BB` and a number in one word.
pub fn block_word(token: Token) -> Option<Span>
    ensures { result ≡ meanings.block_word token }
{
    match token {
        Token::BlockWord(at) => Some(at),
        _ => None,
    }
}

/// How the number is written and its place, if the token is a number.
pub fn number(token: Token) -> Option<(NumberKind, Span)>
    ensures { result ≡ meanings.number token }
{
    match token {
        Token::Number(kind, at) => Some((kind, at)),
        _ => None,
    }
}
