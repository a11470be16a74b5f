//! Rows as text: the listing of the rows of a pattern file.
//!
//! Each row takes a line `#N L:C PATTERN RESULT`: its number, counted from 1, the line and the column
//! where its form begins, its pattern and its result. C text prints in one way however it was
//! written: parentheses stand round an operand that is itself an operation on two operands, a test
//! of `TREE_CODE` or a conditional, and nowhere else.
#![tactic(auto)]

ghost use Rattle.std.specs.Prelude.{◌≡◌, ◌≤◌, ◌<◌, ◌^◌, IfOk, All, length};
ghost use Rattle.row_printing.specs.Listing.{listing};

mod c_text;
mod cursor;
mod declarations;
mod patterns;
mod results;
mod rows;
mod texts;

use pd_ast::Row;
use pm_items::Items;
use pm_ops::OutOfMemory;
use std::alloc::Global;

/// The listing of these rows, whose forms stand in the source.
pub fn print_rows(alloc: Global, rows: &[Row], source: &[u8]) -> Result<Vec<u8>, OutOfMemory>
    requires within { All (λ row. row.at ≤ length source.now) rows.now }
    requires short { length source.now < 2 ^ 31 }
    ensures { IfOk result (λ bytes. bytes.items ≡ listing source.now rows.now) }
{
    let mut out = Items::new(alloc);
    rows::push_rows(&mut out, rows, source)?;
    Ok(out.into_vec())
}
