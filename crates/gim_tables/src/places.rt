//! The right sides and the types of names.
ghost use Rattle.std.specs.Prelude.{◌≡◌, ℕ, nat_eq, IfOk, OnOk};
ghost use Rattle.std.specs.HashMap.{get};
ghost use Rattle.std.specs.List.{flat_map};
ghost use Rattle.std.specs.Option.{option_copied, option_or};
ghost use Rattle.gim_terms.specs.Lookups.{stmts_in};
ghost use Rattle.gim_tables.specs.Told.{right_among, type_among};

use gim_ast::{Block, NameRow, Rhs, Stmt};
use pm_ops::OutOfMemory;
use pm_wide::IntType;
use std::alloc::Global;
use std::collections::HashMap;

/// The right side of the first statement of each name, as a table.
pub(crate) fn rights_in<'f>(
    alloc: Global,
    blocks: &'f [Block],
) -> Result<HashMap<u32, &'f Rhs>, OutOfMemory>
    ensures { IfOk result (λ table. (q : ℕ) → option_copied (get nat_eq table q) ≡
        right_among q (flat_map stmts_in blocks.now)) }
{
    let mut table = HashMap::new(alloc);
    for at in (0..blocks.len()).rev() {
        add_stmts(&mut table, blocks[at].stmts.as_slice())?;
    }
    Ok(table)
}

/// Adds those of statements, which count before those of the table.
fn add_stmts<'f>(table: &mut HashMap<u32, &'f Rhs>, stmts: &'f [Stmt]) -> Result<(), OutOfMemory>
    ensures { OnOk result ((q : ℕ) → option_copied (get nat_eq table.new q) ≡
        option_or (right_among q stmts.now) (option_copied (get nat_eq table.old q))) }
{
    for at in (0..stmts.len()).rev() {
        let stmt = &stmts[at];
        table.insert(stmt.name, &stmt.rhs)?;
    }
    Ok(())
}

/// The type of the first row of each name, as a table.
pub(crate) fn types_in(
    alloc: Global,
    rows: &[NameRow],
) -> Result<HashMap<u32, IntType>, OutOfMemory>
    ensures { IfOk result (λ table. (q : ℕ) → get nat_eq table q ≡ type_among q rows.now) }
{
    let mut table = HashMap::new(alloc);
    for at in (0..rows.len()).rev() {
        let row = &rows[at];
        table.insert(row.version, row.ty)?;
    }
    Ok(table)
}
