//! What separates tokens: white space, notes and comments.

ghost use Rattle.std.specs.Prelude.{◌≡◌};
ghost use Rattle.gim_lexer.specs.Separators.{opens_note, separator_length};

use lexing::{begins_with_space, comment_len, line_len};

/// Whether a note begins here.
fn opens_note(line_begins: bool, text: &[u8]) -> bool
    ensures { result ≡ opens_note line_begins text.now }
{
    text.starts_with(b"//") || line_begins && text.starts_with(b";;")
}

/// How many bytes a separator has that begins here.
#[tactic(auto, unfolding(crate::specs::Separators::separator_length))]
pub(crate) fn separator_len(line_begins: bool, text: &[u8]) -> Option<usize>
    ensures { result ≡ separator_length line_begins text.now }
{
    if begins_with_space(text) {
        Some(1)
    } else if opens_note(line_begins, text) {
        Some(line_len(text))
    } else {
        comment_len(text)
    }
}
