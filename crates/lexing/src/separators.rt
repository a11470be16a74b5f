//! White space and comments.

ghost use Rattle.std.specs.Prelude.{◌≡◌};
ghost use Rattle.lexing.specs.Separators.{begins_with_space, length_to_star_slash, comment_length};

use crate::bytes::is_space;

/// Whether the first byte is white space.
pub fn begins_with_space(text: &[u8]) -> bool
    ensures { result ≡ begins_with_space text.now }
{
    match text {
        [] => false,
        [byte, ..] => is_space(*byte),
    }
}

/// How many bytes there are up to the end of the first `*/`.
fn len_to_star_slash(text: &[u8]) -> Option<usize>
    ensures { result ≡ length_to_star_slash text.now }
{
    for at in 0..text.len() {
        let (_, rest) = text.split_at(at);
        if rest.starts_with(b"*/") {
            return Some(at + 2);
        }
    }
    None
}

/// How many bytes a comment has that begins here; none where its end lacks.
pub fn comment_len(text: &[u8]) -> Option<usize>
    ensures { result ≡ comment_length text.now }
{
    if !text.starts_with(b"/*") {
        return None;
    }
    let (_, rest) = text.split_at(2);
    let len = len_to_star_slash(rest)?;
    Some(2 + len)
}
