//! Words of letters, digits and underscores.

ghost use Rattle.std.specs.Prelude.{◌≡◌};
ghost use Rattle.std.specs.List.{list_all};
ghost use Rattle.lexing.specs.Bytes.{is_word_byte};
ghost use Rattle.lexing.specs.Words.{is_word_text};

use crate::bytes::{is_letter, is_word_byte};

/// Whether each byte is a letter, a digit or an underscore.
fn are_word_bytes(bytes: &[u8]) -> bool
    ensures { result ≡ list_all is_word_byte bytes.now }
{
    bytes.iter().all(|byte| is_word_byte(*byte))
}

/// Whether the bytes are letters, digits and underscores, and begin with no digit.
pub fn is_word_text(bytes: &[u8]) -> bool
    ensures { result ≡ is_word_text bytes.now }
{
    match bytes {
        [] => false,
        [first, rest @ ..] => is_letter(*first) && are_word_bytes(rest),
    }
}
