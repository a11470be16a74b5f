//! What begins at a place of a source.

ghost use Rattle.std.specs.Prelude.{◌≡◌, ◌≤◌, ◌<◌, length, drop};
ghost use Rattle.lexing.specs.Pieces.{piece_at};
ghost use Rattle.gim_lexer.specs.Cuts.{line_begins, gimple};

use crate::separators::separator_len;
use crate::tokens::token_of_text;
use gim_text::Token;
use lexing::Piece;

/// Whether a line begins at the place.
#[tactic(auto, unfolding(crate::specs::Cuts::line_begins))]
fn line_begins(source: &[u8], at: usize) -> bool
    requires { at ≤ length source.now }
    ensures { result ≡ line_begins source.now at }
{
    at == 0 || source[at - 1] == b'\n'
}

/// What begins at the place.
pub(crate) fn piece_at(source: &[u8], at: usize) -> Option<Piece<Token>>
    requires { at ≤ length source.now }
    ensures { result ≡ piece_at gimple source.now at }
{
    let (_, text) = source.split_at(at);
    if let Some(len) = separator_len(line_begins(source, at), text) {
        return Some(Piece::Separator(at + len));
    }
    let token = token_of_text(at, text)?;
    Some(Piece::Token(token))
}
