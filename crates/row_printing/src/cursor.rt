//! A place of a source that goes on from row to row, so that the source is walked once.
ghost use Rattle.std.specs.Prelude.{◌≡◌, ◌≤◌, ◌<◌, ◌^◌, length};
ghost use Rattle.row_printing.specs.Cursors.{StandsIn};

/// A place of a source with its line and its column, both counted from 1.
#[derive(Clone, Copy)]
pub struct Cursor {
    pub at: usize,
    pub line: u32,
    pub column: u32,
}

/// The first place of a source.
pub fn at_head(source: &[u8]) -> Cursor
    ensures stands { StandsIn source.now result }
    ensures head { result.at ≡ 0 }
{
    let _source = source;
    Cursor {
        at: 0,
        line: 1,
        column: 1,
    }
}

/// The cursor moved to a place. Rows rise with their forms, so it seldom goes back to the head.
pub fn moved(cursor: Cursor, source: &[u8], to: usize) -> Cursor
    requires stands { StandsIn source.now cursor }
    requires within { to ≤ length source.now }
    requires short { length source.now < 2 ^ 31 }
    ensures stands { StandsIn source.now result }
    ensures place { result.at ≡ to }
{
    if to < cursor.at {
        forward(at_head(source), source, to)
    } else {
        forward(cursor, source, to)
    }
}

/// The cursor moved to a place at or behind its own.
fn forward(cursor: Cursor, source: &[u8], to: usize) -> Cursor
    requires stands { StandsIn source.now cursor }
    requires behind { cursor.at ≤ to }
    requires within { to ≤ length source.now }
    requires short { length source.now < 2 ^ 31 }
    ensures stands { StandsIn source.now result }
    ensures place { result.at ≡ to }
{
    let mut line = cursor.line;
    let mut column = cursor.column;
    for at in cursor.at..to {
        if source[at] == b'\n' {
            line += 1;
            column = 1;
        } else {
            column += 1;
        }
    }
    Cursor {
        at: to,
        line,
        column,
    }
}
