//! How often names are used, counted once for all names.
ghost use Rattle.std.specs.Prelude.{◌≡◌, ◌==◌, ℕ, ◌+◌, ◌≤◌, [], ◌∷◌, min, map, if◌then◌else◌};
ghost use Rattle.std.specs.Prelude.{OnOk, IfOk};
ghost use Rattle.std.specs.List.{count_by, flat_map};
ghost use Rattle.gim_ast.specs.Functions.{is_name, operands_of_phi, operands_of_stmt};
ghost use Rattle.gim_ast.specs.Functions.{operands_of_rhs, operands_of_end, operands_of_block};
ghost use Rattle.gim_tables.specs.Told.{told, most, second};

use gim_ast::{Block, End, Phi, Rhs, Stmt};
use pm_ops::OutOfMemory;
use pm_wide::Operand;
use std::alloc::Global;
use std::collections::HashMap;

/// The count of a name: 0 where the table has none.
pub(crate) fn count_of(table: &HashMap<u32, u32>, version: u32) -> u32
    ensures told { result ≡ told table.now version }
    ensures fits { result ≤ most }
{
    table.get(&version).copied().unwrap_or(0)
}

/// Counts the uses of names in blocks. A count stands still at the greatest number of the machine.
pub(crate) fn counts_in(alloc: Global, blocks: &[Block]) -> Result<HashMap<u32, u32>, OutOfMemory>
    ensures { IfOk result (λ table. (q : ℕ) → min (told table q) most ≡
        min (count_by (is_name q) (flat_map operands_of_block blocks.now)) most) }
{
    let mut table = HashMap::new(alloc);
    count_blocks(&mut table, blocks)?;
    Ok(table)
}

#[tactic(auto, using(crate::proofs::Counting::count_append, crate::proofs::Counting::further))]
fn count_blocks(table: &mut HashMap<u32, u32>, blocks: &[Block]) -> Result<(), OutOfMemory>
    ensures { OnOk result ((q : ℕ) → min (told table.new q) most ≡
        min (told table.old q +
        count_by (is_name q) (flat_map operands_of_block blocks.now)) most) }
{
    for block in blocks {
        count_block(table, block)?;
    }
    Ok(())
}

#[tactic(auto, using(crate::proofs::Counting::count_append, crate::proofs::Counting::one_then))]
fn count_block(table: &mut HashMap<u32, u32>, block: &Block) -> Result<(), OutOfMemory>
    ensures { OnOk result ((q : ℕ) → min (told table.new q) most ≡
        min (told table.old q + count_by (is_name q) (operands_of_block block.now)) most) }
{
    count_phis(table, block.phis.as_slice())?;
    count_stmts(table, block.stmts.as_slice())?;
    count_end(table, &block.end)
}

#[tactic(auto, using(crate::proofs::Counting::count_append, crate::proofs::Counting::further))]
fn count_phis(table: &mut HashMap<u32, u32>, phis: &[Phi]) -> Result<(), OutOfMemory>
    ensures { OnOk result ((q : ℕ) → min (told table.new q) most ≡
        min (told table.old q + count_by (is_name q) (flat_map operands_of_phi phis.now)) most) }
{
    for phi in phis {
        count_args(table, phi.args.as_slice())?;
    }
    Ok(())
}

#[tactic(auto, using(crate::proofs::Counting::count_first, crate::proofs::Counting::further))]
fn count_args(table: &mut HashMap<u32, u32>, args: &[(u32, Operand)]) -> Result<(), OutOfMemory>
    ensures { OnOk result ((q : ℕ) → min (told table.new q) most ≡
        min (told table.old q + count_by (is_name q) (map second args.now)) most) }
{
    for arg in args {
        count_operand(table, &arg.1)?;
    }
    Ok(())
}

#[tactic(auto, using(crate::proofs::Counting::count_append, crate::proofs::Counting::further))]
fn count_stmts(table: &mut HashMap<u32, u32>, stmts: &[Stmt]) -> Result<(), OutOfMemory>
    ensures { OnOk result ((q : ℕ) → min (told table.new q) most ≡
        min (told table.old q + count_by (is_name q) (flat_map operands_of_stmt stmts.now)) most) }
{
    for stmt in stmts {
        count_rhs(table, &stmt.rhs)?;
    }
    Ok(())
}

fn count_rhs(table: &mut HashMap<u32, u32>, rhs: &Rhs) -> Result<(), OutOfMemory>
    ensures { OnOk result ((q : ℕ) → min (told table.new q) most ≡
        min (told table.old q + count_by (is_name q) (operands_of_rhs rhs.now)) most) }
{
    match rhs {
        Rhs::Copy(operand) => count_operand(table, operand),
        Rhs::Op(_, operands) => count_operands(table, operands.as_slice()),
    }
}

fn count_end(table: &mut HashMap<u32, u32>, end: &End) -> Result<(), OutOfMemory>
    ensures { OnOk result ((q : ℕ) → min (told table.new q) most ≡
        min (told table.old q + count_by (is_name q) (operands_of_end end.now)) most) }
{
    match end {
        End::Goto(_) => Ok(()),
        End::If(_, left, right, _, _) => count_pair(table, left, right),
        End::Return(operand) => count_operand(table, operand),
    }
}

fn count_pair(
    table: &mut HashMap<u32, u32>,
    left: &Operand,
    right: &Operand,
) -> Result<(), OutOfMemory>
    ensures { OnOk result ((q : ℕ) → min (told table.new q) most ≡
        min (told table.old q + count_by (is_name q) (left.now ∷ right.now ∷ [])) most) }
{
    count_operand(table, left)?;
    count_operand(table, right)
}

#[tactic(auto, using(crate::proofs::Counting::count_first, crate::proofs::Counting::further))]
fn count_operands(table: &mut HashMap<u32, u32>, operands: &[Operand]) -> Result<(), OutOfMemory>
    ensures { OnOk result ((q : ℕ) → min (told table.new q) most ≡
        min (told table.old q + count_by (is_name q) operands.now) most) }
{
    for operand in operands {
        count_operand(table, operand)?;
    }
    Ok(())
}

fn count_operand(table: &mut HashMap<u32, u32>, operand: &Operand) -> Result<(), OutOfMemory>
    ensures { OnOk result ((q : ℕ) → min (told table.new q) most ≡
        min (told table.old q + count_by (is_name q) (operand.now ∷ [])) most) }
{
    match operand {
        Operand::Name(version, _) => count_name(table, *version),
        Operand::Const(_) => Ok(()),
    }
}

fn count_name(table: &mut HashMap<u32, u32>, version: u32) -> Result<(), OutOfMemory>
    ensures { OnOk result ((q : ℕ) → min (told table.new q) most ≡
        min (told table.old q + (if version == q then 1 else 0)) most) }
{
    let count = table.get(&version).copied().unwrap_or(0);
    table.insert(version, count.saturating_add(1))?;
    Ok(())
}
