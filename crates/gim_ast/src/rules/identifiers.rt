//! Identifiers, and the texts of names.

ghost use Rattle.std.specs.Prelude.{◌≡◌, [], not};
ghost use Rattle.std.specs.List.{list_any};
ghost use Rattle.std.specs.Str.{bytes_eq};
ghost use Rattle.gim_ast.specs.Identifiers.{is_block_word, is_reserved, is_identifier, is_anonymous, anonymous};
ghost use Rattle.lexing.specs.Numbers.{is_number_text};
ghost use Rattle.lexing.specs.Words.{is_word_text};
ghost use Rattle.gim_ast.specs.WellFormed.{same_text};

use itoa::Buffer;
use lexing::{is_number_text, is_word_text};

/// The words of types and of the grammar.
const RESERVED: [&str; 22] = [
    "signed", "unsigned", "char", "short", "int", "long", "__int128", "_Bool", "__GIMPLE", "void",
    "__BB", "__PHI", "goto", "if", "else", "return", "__MIN", "__MAX", "__ABS", "__ABSU",
    "_Literal", "D",
];

/// Whether the bytes are `__BB` and a number.
pub fn is_block_word(bytes: &[u8]) -> bool
    ensures { result ≡ is_block_word bytes.now }
{
    match bytes {
        [a, b, c, d, number @ ..] => {
            *a == b'_' && *b == b'_' && *c == b'B' && *d == b'B' && is_number_text(number)
        }
        _ => false,
    }
}

/// Whether the bytes are one of the words.
fn is_one_of(words: &[&str], bytes: &[u8]) -> bool
    ensures { result ≡ list_any (λ word. bytes_eq word.now bytes.now) words.now }
{
    words.iter().any(|word| word.as_bytes() == bytes)
}

/// Whether the bytes are a word of the grammar, or name a block.
fn is_reserved(bytes: &[u8]) -> bool
    ensures { result ≡ is_reserved bytes.now }
{
    is_one_of(&RESERVED, bytes) || is_block_word(bytes)
}

/// Whether the bytes may name a function.
pub(crate) fn is_identifier(bytes: &[u8]) -> bool
    ensures { result ≡ is_identifier bytes.now }
{
    is_word_text(bytes) && !is_reserved(bytes)
}

/// Whether the bytes are a name without a base.
pub fn is_anonymous(bytes: &[u8]) -> bool
    ensures { result ≡ is_anonymous bytes.now }
{
    match bytes {
        [] => false,
        [first, rest @ ..] => *first == b'_' && is_number_text(rest),
    }
}

/// Whether the text has no bytes.
pub(crate) fn is_empty(text: &[u8]) -> bool
    ensures { result ≡ same_text text.now [] }
{
    match text {
        [] => true,
        _ => false,
    }
}

/// Whether the two texts are one.
pub(crate) fn same_text(left: &[u8], right: &[u8]) -> bool
    ensures { result ≡ same_text left.now right.now }
{
    left == right
}

/// Whether the identifier is the anonymous name of the version.
pub(crate) fn is_anonymous_of(ident: &[u8], version: u32) -> bool
    ensures { result ≡ same_text ident.now (anonymous version) }
{
    let mut buffer = Buffer::new();
    match ident {
        [] => false,
        [first, digits @ ..] => *first == b'_'
            && same_text(digits, buffer.format(version).as_bytes()),
    }
}

/// Whether the anonymous name of the version is the identifier.
pub(crate) fn anonymous_is(version: u32, ident: &[u8]) -> bool
    ensures { result ≡ same_text (anonymous version) ident.now }
{
    let mut buffer = Buffer::new();
    match ident {
        [] => false,
        [first, digits @ ..] => b'_' == *first
            && same_text(buffer.format(version).as_bytes(), digits),
    }
}
