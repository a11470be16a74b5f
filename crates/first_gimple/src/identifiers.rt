//! Identifiers.

ghost use Rattle.std.specs.Prelude.{◌≡◌, ◌&&◌, not};
ghost use Rattle.std.specs.List.{list_all, list_any};
ghost use Rattle.std.specs.Str.{bytes_eq};
ghost use Rattle.gim_ast.specs.Identifiers.{is_block_word, is_reserved, is_identifier, is_anonymous};
ghost use Rattle.lexing.specs.Bytes.{is_letter, is_word_byte};
ghost use Rattle.lexing.specs.Words.{is_word_text};
ghost use Rattle.first_gimple.specs.Rules.{is_param};

use crate::numbers::is_number_text;
use crate::tokens::{is_letter, is_word_byte};
use pm_ops::Text;

/// The words of types and of the grammar.
const RESERVED: [&str; 22] = [
    "signed", "unsigned", "char", "short", "int", "long", "__int128", "_Bool", "__GIMPLE", "void",
    "__BB", "__PHI", "goto", "if", "else", "return", "__MIN", "__MAX", "__ABS", "__ABSU",
    "_Literal", "D",
];

/// Whether each byte is a letter, a digit or an underscore.
fn are_word_bytes(bytes: &[u8]) -> bool
    ensures { result ≡ list_all is_word_byte bytes.now }
{
    bytes.iter().all(|byte| is_word_byte(*byte))
}

/// Whether the bytes are letters, digits and underscores, and begin with no digit.
fn is_word_text(bytes: &[u8]) -> bool
    ensures { result ≡ is_word_text bytes.now }
{
    match bytes {
        [] => false,
        [first, rest @ ..] => is_letter(*first) && are_word_bytes(rest),
    }
}

/// Whether the bytes are `__BB` and a number.
fn is_block_word(bytes: &[u8]) -> bool
    ensures { result ≡ is_block_word bytes.now }
{
    match bytes {
        [a, b, c, d, number @ ..] => {
            *a == b'_' && *b == b'_' && *c == b'B' && *d == b'B' && is_number_text(number)
        }
        _ => false,
    }
}

/// Whether the bytes are one of the words.
fn is_one_of(words: &[&str], bytes: &[u8]) -> bool
    ensures { result ≡ list_any (λ word. bytes_eq word.now bytes.now) words.now }
{
    words.iter().any(|word| word.as_bytes() == bytes)
}

/// Whether the bytes are a word of the grammar, or name a block.
fn is_reserved(bytes: &[u8]) -> bool
    ensures { result ≡ is_reserved bytes.now }
{
    is_one_of(&RESERVED, bytes) || is_block_word(bytes)
}

/// Whether the bytes may name a function.
pub(crate) fn is_identifier(bytes: &[u8]) -> bool
    ensures { result ≡ is_identifier bytes.now }
{
    is_word_text(bytes) && !is_reserved(bytes)
}

/// Whether the bytes are a name without a base.
fn is_anonymous(bytes: &[u8]) -> bool
    ensures { result ≡ is_anonymous bytes.now }
{
    match bytes {
        [] => false,
        [first, rest @ ..] => *first == b'_' && is_number_text(rest),
    }
}

/// Whether the bytes may name a parameter.
pub(crate) fn is_param(bytes: &[u8]) -> bool
    ensures { result ≡ is_param bytes.now }
{
    is_identifier(bytes) && !is_anonymous(bytes)
}

/// Whether each text may name a parameter.
pub(crate) fn are_params(names: &[Text]) -> bool
    ensures { result ≡ list_all is_param names.now }
{
    names.iter().all(|name| is_param(name.bytes()))
}
