//! Places in the text of a file: spans with their bytes, and lines and columns for people.
//!
//! `specs/` has what the stages of every file language have in common: which fault is the first one, and what a stage
//! answers that looks for it.
#![tactic(auto)]

mod span;

ghost use Rattle.std.specs.Prelude.{◌≡◌, ◌^◌, ◌<◌, ◌≤◌, length};
ghost use Rattle.pm_places.specs.Places.{line_of, column_of};

pub use span::{Span, place, text};

/// The line and the column of byte number `at` of a text, both counted from 1. A line ends with a line
/// feed, and columns count bytes. The place right behind the last byte has them too. Takes no memory.
pub fn line_column(source: &[u8], at: usize) -> (u32, u32)
    requires within { at ≤ length source.now }
    requires short { length source.now < 2 ^ 31 }
    ensures line { result.0 ≡ line_of source.now at }
    ensures column { result.1 ≡ column_of source.now at }
{
    let mut line = 1;
    let mut column = 1;
    for byte in &source[..at] {
        if *byte == b'\n' {
            line += 1;
            column = 1;
        } else {
            column += 1;
        }
    }
    (line, column)
}
