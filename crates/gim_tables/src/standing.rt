//! Which names are assigned.
ghost use Rattle.std.specs.Prelude.{◌≡◌, ◌||◌, ◌==◌, ℕ, map, nat_eq, is_some, IfOk, OnOk};
ghost use Rattle.std.specs.HashMap.{get};
ghost use Rattle.std.specs.List.{flat_map, list_any};
ghost use Rattle.gim_ast.specs.Functions.{assigned_in, phi_name, stmt_name};
ghost use Rattle.gim_tables.specs.Told.{has};

use gim_ast::{Block, Phi, Stmt};
use pm_ops::OutOfMemory;
use std::alloc::Global;
use std::collections::HashMap;

/// The names that blocks assign, as a table.
pub(crate) fn assigned_names(
    alloc: Global,
    blocks: &[Block],
) -> Result<HashMap<u32, bool>, OutOfMemory>
    ensures { IfOk result (λ table. (q : ℕ) → has table q ≡
        list_any (λ y. y == q) (flat_map assigned_in blocks.now)) }
{
    let mut table = HashMap::new(alloc);
    add_blocks(&mut table, blocks)?;
    Ok(table)
}

fn add_blocks(table: &mut HashMap<u32, bool>, blocks: &[Block]) -> Result<(), OutOfMemory>
    ensures { OnOk result ((q : ℕ) → has table.new q ≡
        (has table.old q || list_any (λ y. y == q) (flat_map assigned_in blocks.now))) }
{
    for block in blocks {
        add_block(table, block)?;
    }
    Ok(())
}

fn add_block(table: &mut HashMap<u32, bool>, block: &Block) -> Result<(), OutOfMemory>
    ensures { OnOk result ((q : ℕ) → has table.new q ≡
        (has table.old q || list_any (λ y. y == q) (assigned_in block.now))) }
{
    add_phis(table, block.phis.as_slice())?;
    add_stmts(table, block.stmts.as_slice())
}

fn add_phis(table: &mut HashMap<u32, bool>, phis: &[Phi]) -> Result<(), OutOfMemory>
    ensures { OnOk result ((q : ℕ) → has table.new q ≡
        (has table.old q || list_any (λ y. y == q) (map phi_name phis.now))) }
{
    for phi in phis {
        table.insert(phi.name, true)?;
    }
    Ok(())
}

fn add_stmts(table: &mut HashMap<u32, bool>, stmts: &[Stmt]) -> Result<(), OutOfMemory>
    ensures { OnOk result ((q : ℕ) → has table.new q ≡
        (has table.old q || list_any (λ y. y == q) (map stmt_name stmts.now))) }
{
    for stmt in stmts {
        table.insert(stmt.name, true)?;
    }
    Ok(())
}
