//! Rows and their places.
ghost use Rattle.std.specs.Prelude.{◌≡◌, ◌≤◌, ◌<◌, ◌^◌, ◌++◌, All, OnOk, length};
ghost use Rattle.row_printing.specs.Listing.{head_text, line_at, listing, place_text};

use crate::cursor::{at_head, moved};
use crate::patterns::push_pattern;
use crate::results::push_result;
use crate::texts::{push_bytes, push_number};
use pd_ast::Row;
use pm_items::Items;
use pm_ops::OutOfMemory;

/// Appends a line for each row.
pub fn push_rows(out: &mut Items<u8>, rows: &[Row], source: &[u8]) -> Result<(), OutOfMemory>
    requires within { All (λ row. row.at ≤ length source.now) rows.now }
    requires short { length source.now < 2 ^ 31 }
    ensures { OnOk result (out.new ≡ out.old ++ listing source.now rows.now) }
{
    let mut cursor = at_head(source);
    for i in 0..rows.len() {
        cursor = moved(cursor, source, rows[i].at);
        push_row(out, i as u64 + 1, cursor.line, cursor.column, &rows[i])?;
    }
    Ok(())
}

/// Appends the line of a row whose form begins at this line and column.
#[tactic(auto, unfolding(crate::specs::Listing::line_at))]
fn push_row(
    out: &mut Items<u8>,
    number: u64,
    line: u32,
    column: u32,
    row: &Row,
) -> Result<(), OutOfMemory>
    ensures { OnOk result (out.new ≡ out.old ++ line_at number line column row.now) }
{
    push_head(out, number, line, column)?;
    push_pattern(out, row.pattern.get())?;
    push_bytes(out, b" ")?;
    push_result(out, row.result.get())?;
    push_bytes(out, b"\n")
}

/// Appends what stands before the trees of a row.
#[tactic(auto, unfolding(crate::specs::Listing::head_text))]
fn push_head(out: &mut Items<u8>, number: u64, line: u32, column: u32) -> Result<(), OutOfMemory>
    ensures { OnOk result (out.new ≡ out.old ++ head_text number line column) }
{
    push_bytes(out, b"#")?;
    push_number(out, number)?;
    push_bytes(out, b" ")?;
    push_place(out, line, column)?;
    push_bytes(out, b" ")
}

/// Appends a line and a column.
fn push_place(out: &mut Items<u8>, line: u32, column: u32) -> Result<(), OutOfMemory>
    ensures { OnOk result (out.new ≡ out.old ++ place_text line column) }
{
    push_number(out, u64::from(line))?;
    push_bytes(out, b":")?;
    push_number(out, u64::from(column))
}
