//! The token that begins a text.

ghost use Rattle.std.specs.Prelude.{◌≡◌, ◌≤◌, ◌<◌, ◌+◌, ◌^◌, length, IfSome};
ghost use Rattle.gim_lexer.specs.Tokens.{word_at, number_at, text_at, mark_at, token_of_text};

use crate::marks::{long_mark, short_mark};
use crate::numbers::number_kind;
use crate::words::word_token;
use gim_text::Token;
use lexing::{digits_len, is_digit, is_letter, quoted_len, suffix_len, word_len};
use pm_places::place;

/// The word at the front.
#[tactic(auto, unfolding(crate::specs::Tokens::word_at))]
fn word_at(at: usize, text: &[u8]) -> Token
    requires { at + length text.now < 2 ^ 64 }
    ensures { result ≡ word_at at text.now }
{
    let len = word_len(text);
    let (word, _) = text.split_at(len);
    word_token(word, place(at, len))
}

/// The number at the front.
#[tactic(auto, unfolding(crate::specs::Tokens::number_at))]
fn number_at(at: usize, text: &[u8]) -> Token
    requires { at + length text.now < 2 ^ 64 }
    ensures { result ≡ number_at at text.now }
{
    let (digits, rest) = text.split_at(digits_len(text));
    let (suffix, _) = rest.split_at(suffix_len(rest));
    Token::Number(
        number_kind(digits, suffix),
        place(at, digits.len() + suffix.len()),
    )
}

/// The text between two `"`, behind the first of them.
#[tactic(auto, unfolding(crate::specs::Tokens::text_at))]
fn text_at(at: usize, rest: &[u8]) -> Option<Token>
    requires { at + length rest.now + 1 < 2 ^ 64 }
    ensures { result ≡ text_at at rest.now }
{
    let len = quoted_len(rest)?;
    Some(Token::Text(place(at, len)))
}

/// The mark at the front.
#[tactic(auto, unfolding(crate::specs::Tokens::mark_at))]
fn mark_at(at: usize, text: &[u8]) -> Option<Token>
    requires { at + length text.now < 2 ^ 64 }
    ensures { result ≡ mark_at at text.now }
{
    match text {
        [] => None,
        [byte] => {
            let mark = short_mark(*byte)?;
            Some(Token::Mark(mark, place(at, 1)))
        }
        [first, second, ..] => {
            if let Some(mark) = long_mark(*first, *second) {
                return Some(Token::Mark(mark, place(at, 2)));
            }
            let mark = short_mark(*first)?;
            Some(Token::Mark(mark, place(at, 1)))
        }
    }
}

/// The token at the front of the text that begins at a place.
#[tactic(auto, unfolding(crate::specs::Tokens::token_of_text))]
pub(crate) fn token_of_text(at: usize, text: &[u8]) -> Option<Token>
    requires { at + length text.now < 2 ^ 64 }
    ensures { result ≡ token_of_text at text.now }
{
    match text {
        [] => None,
        [first, rest @ ..] => {
            if is_letter(*first) {
                Some(word_at(at, text))
            } else if is_digit(*first) {
                Some(number_at(at, text))
            } else if *first == b'"' {
                text_at(at, rest)
            } else if text.starts_with(b"/*") {
                None
            } else {
                mark_at(at, text)
            }
        }
    }
}
