//! The names of a function: the declared ones and the default definitions, by rising version.

ghost use Rattle.std.specs.Prelude.{◌≡◌, ◌++◌, ◌∷◌, [], true, IfOk, OnOk, map, drop};
ghost use Rattle.std.specs.List.{flat_map};
ghost use Rattle.std.specs.List.Sorted.{IsPermutation, IsNonDecreasingBy};
ghost use Rattle.pm_wide.specs.Types.{unsigned_int_type};
ghost use Rattle.first_gimple.specs.Meaning.{AreNames, named_rows, local_row, initial_row, rows_of_taken, rows_of_line, version_of};
ghost use Rattle.first_gimple.specs.Reading.{Gives};
ghost use Rattle.first_gimple.specs.Tests.{Finds, same_row, merged};

use crate::draft::{Draft, Line, Taken};
use crate::fault::FirstFault;
use gim_ast::NameRow;
use pm_items::Items;
use pm_ops::{OutOfMemory, Text};
use pm_wide::IntType;
use std::alloc::Global;

/// `unsigned int`
pub(crate) fn unsigned_int() -> IntType
    ensures { result ≡ unsigned_int_type }
{
    IntType::new(32, true).unwrap()
}

/// The rows of the declared names.
fn local_rows(alloc: Global, locals: &[u32]) -> Result<Vec<NameRow>, OutOfMemory>
    ensures { IfOk result (λ rows. rows.items ≡ map local_row locals.now) }
{
    let mut rows = Vec::new(alloc);
    for version in locals {
        rows.push(NameRow {
            version: *version,
            base: Text::empty(alloc),
            ty: unsigned_int(),
            initial: false,
        })?;
    }
    Ok(rows)
}

/// Puts the row of a default definition at the end.
fn push_taken(alloc: Global, rows: &mut Vec<NameRow>, taken: &Taken) -> Result<(), OutOfMemory>
    ensures { OnOk result (rows.new.items ≡ rows.old.items ++ rows_of_taken taken.now) }
{
    if let Taken::Initial(base, version) = taken {
        rows.push(NameRow {
            version: *version,
            base: base.copy(alloc)?,
            ty: unsigned_int(),
            initial: true,
        })?;
    }
    Ok(())
}

/// The rows of the declared names and of the default definitions, where they stand in the text.
fn named_rows(alloc: Global, draft: &Draft) -> Result<Vec<NameRow>, OutOfMemory>
    ensures { IfOk result (λ rows. rows.items ≡ named_rows draft.now) }
{
    let mut rows = local_rows(alloc, draft.locals.as_slice())?;
    for line in draft.lines.as_slice() {
        push_taken(alloc, &mut rows, &line.left)?;
        push_taken(alloc, &mut rows, &line.right)?;
    }
    push_taken(alloc, &mut rows, &draft.end)?;
    Ok(rows)
}

/// Puts the rows in the order of their versions.
fn sort(rows: &mut Vec<NameRow>)
    ensures permutation { IsPermutation rows.old.items rows.new.items }
    ensures sorted { IsNonDecreasingBy version_of rows.new.items }
{
    rows.sort_unstable_by_key(|row| row.version);
}

fn is_same(left: &NameRow, right: &NameRow) -> bool
    ensures { result ≡ same_row left.now right.now }
{
    left.version == right.version && left.base == right.base && left.initial == right.initial
}

/// An equal row, of type `unsigned int`.
fn copy(alloc: Global, row: &NameRow) -> Result<NameRow, OutOfMemory>
    ensures { IfOk result (λ a. a ≡ row.now) }
{
    Ok(NameRow {
        version: row.version,
        base: row.base.copy(alloc)?,
        ty: row.ty,
        initial: row.initial,
    })
}

/// The rows, each once. They are sorted by version; two of one version that differ are refused.
fn merge(alloc: Global, rows: &[NameRow]) -> Result<Items<NameRow>, FirstFault>
    ensures { Gives (λ x. x) result (merged rows.now) }
{
    let mut names = Items::new(alloc);
    for (at, row) in rows.iter().enumerate() {
        if at + 1 < rows.len() && rows[at + 1].version == row.version {
            if !is_same(row, &rows[at + 1]) {
                return Err(FirstFault::NotFirst);
            }
        } else {
            names.push(copy(alloc, row)?)?;
        }
    }
    Ok(names)
}

/// The names that stand in the text.
pub(crate) fn names(alloc: Global, draft: &Draft) -> Result<Items<NameRow>, FirstFault>
    ensures { Finds (AreNames (named_rows draft.now)) result }
{
    let mut rows = named_rows(alloc, draft)?;
    sort(&mut rows);
    merge(alloc, rows.as_slice())
}
