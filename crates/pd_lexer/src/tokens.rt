//! The token that begins a text.

ghost use Rattle.std.specs.Prelude.{◌≡◌, ◌≤◌, ◌<◌, ◌+◌, ◌^◌, length, option_map};
ghost use Rattle.pd_lexer.specs.Tokens.{name_length, capture_of, capture_front, token_front};
ghost use Rattle.lexing.specs.Quoted.{quoted_length};
ghost use Rattle.pd_lexer.specs.declared.token.TokenKind.TheVariants.{Text, Punct};
ghost use Rattle.pd_lexer.specs.Marks.{mark_length};

use crate::marks::mark_len;
use crate::numbers::number_len;
use crate::token::TokenKind;
use lexing::{digits_len, is_digit, is_letter, quoted_len, word_len};

/// How many bytes the name of a capture has at the front; 0 where none begins.
#[tactic(auto, unfolding(crate::specs::Tokens::name_length))]
fn name_len(text: &[u8]) -> usize
    ensures run { result ≡ name_length text.now }
    ensures within { result ≤ length text.now }
{
    match text {
        [] => 0,
        [first, ..] => {
            if is_digit(*first) {
                digits_len(text)
            } else {
                word_len(text)
            }
        }
    }
}

/// A capture of some `@` and a name.
fn capture(kind: TokenKind, ats: usize, name: usize) -> Option<(TokenKind, usize)>
    requires { ats + name < 2 ^ 64 }
    ensures { result ≡ capture_of kind ats name }
{
    if name == 0 {
        None
    } else {
        Some((kind, ats + name))
    }
}

/// The capture whose first `@` the text stands behind.
#[tactic(auto, unfolding(crate::specs::Tokens::capture_front))]
fn capture_front(text: &[u8]) -> Option<(TokenKind, usize)>
    requires { length text.now + 1 < 2 ^ 64 }
    ensures { result ≡ capture_front text.now }
{
    if text.starts_with(b"@") {
        let (_, rest) = text.split_at(1);
        capture(TokenKind::ValueCapture, 2, name_len(rest))
    } else {
        capture(TokenKind::Capture, 1, name_len(text))
    }
}

/// The text between two `"` whose first the rest stands behind.
fn text_front(rest: &[u8]) -> Option<(TokenKind, usize)>
    ensures { result ≡ option_map (λ n. (Text, n)) (quoted_length rest.now) }
{
    let len = quoted_len(rest)?;
    Some((TokenKind::Text, len))
}

/// The mark at the front.
fn mark_front(text: &[u8]) -> Option<(TokenKind, usize)>
    ensures { result ≡ option_map (λ n. (Punct, n)) (mark_length text.now) }
{
    let len = mark_len(text)?;
    Some((TokenKind::Punct, len))
}

/// The kind of the token at the front, and how many bytes it has.
#[tactic(auto, unfolding(crate::specs::Tokens::token_front))]
pub(crate) fn token_front(text: &[u8]) -> Option<(TokenKind, usize)>
    ensures { result ≡ token_front text.now }
{
    match text {
        [] => None,
        [first, rest @ ..] => {
            if is_letter(*first) {
                Some((TokenKind::Ident, word_len(text)))
            } else if is_digit(*first) {
                Some((TokenKind::Number, number_len(text)))
            } else if *first == b'"' {
                text_front(rest)
            } else if *first == b'@' {
                capture_front(rest)
            } else {
                mark_front(text)
            }
        }
    }
}
