//! Carrying a merge out: one name is put for the other in every use, and the other's statement
//! goes.
ghost use Rattle.std.specs.Prelude.{◌≡◌, ◌<◌, filter, remove, length};
ghost use Rattle.gim_ast.specs.Readable.{IsValid};
ghost use Rattle.value_numbers.specs.Merges as merges;
ghost use Rattle.value_numbers.specs.Merges.{IsMerge};
ghost use Rattle.value_numbers.specs.Rows.{row_is_left};

use crate::merges::type_of;
use gim_ast::{Function, NameRow};
use gim_changes::{put_in_all, remove_name};
use pm_items::Items;
use pm_wide::Operand;

/// Carries a merge out: puts the name `taken` for `name` in every use, and removes the statement of
/// `name`, with its row of `names` unless that is of an anonymous name, which stays declared.
pub fn merge(function: &mut Function, name: u32, taken: u32)
    requires valid { IsValid function.old }
    requires merge { IsMerge function.old name taken }
    ensures { function.new ≡ merges.merged name taken function.old }
{
    let by = Operand::Name(taken, type_of(function, taken));
    put_in_all(function, name, &by);
    remove_name(function, name);
    remove_rows(&mut function.names, name);
}

/// Removes the rows of a name, but for those of anonymous names.
fn remove_rows(rows: &mut Items<NameRow>, name: u32)
    ensures { rows.new ≡ filter (row_is_left name) rows.old }
{
    for i in (0..rows.len()).rev() {
        if !is_left(rows.at(i), name) {
            remove_row(rows, i);
        }
    }
}

/// Whether a row is that of another name, or of an anonymous one.
fn is_left(row: &NameRow, name: u32) -> bool
    ensures { result ≡ row_is_left name row.now }
{
    row.version != name || row.base.bytes().is_empty()
}

/// Removes the row at a place.
fn remove_row(rows: &mut Items<NameRow>, at: usize)
    requires { at < length rows.old }
    ensures { rows.new ≡ remove rows.old at }
{
    rows.remove(at);
}
