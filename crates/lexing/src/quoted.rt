//! Texts between two `"` on one line.

ghost use Rattle.std.specs.Prelude.{◌≡◌, ◌≤◌, ◌+◌, length, IfSome};
ghost use Rattle.lexing.specs.Quoted.{quoted_length};

use crate::bytes::inner_len;

/// How many bytes a text has with both of its `"`, by what stands behind the first.
#[tactic(auto, unfolding(crate::specs::Quoted::quoted_length))]
pub fn quoted_len(rest: &[u8]) -> Option<usize>
    ensures { result ≡ quoted_length rest.now }
{
    let len = inner_len(rest);
    let (_, behind) = rest.split_at(len);
    if behind.starts_with(b"\"") {
        Some(len + 2)
    } else {
        None
    }
}
