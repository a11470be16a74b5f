//! The bounds of the machine.

ghost use Rattle.std.specs.Prelude.{◌≡◌, length};
ghost use Rattle.gim_ast.specs.Functions.{operands_of_rhs, operands_of_end};
ghost use Rattle.gim_ast.specs.RulesByPart.{count_in_phis, count_in_stmts, count_in_block, count_in_blocks, bounds_by_part};

use crate::{Block, End, Function, Phi, Rhs, Stmt};

/// One more than the most blocks, names and operand places.
const LIMIT: usize = 1 << 31;

/// The count with the operand places of the phis, up to the greatest number.
fn count_in_phis(count: usize, phis: &[Phi]) -> usize
    ensures { result ≡ count_in_phis count phis.now }
{
    let mut total = count;
    for phi in phis {
        total = total.saturating_add(phi.args.len());
    }
    total
}

/// How many operands a right side has.
fn rhs_len(rhs: &Rhs) -> usize
    ensures { result ≡ length (operands_of_rhs rhs.now) }
{
    match rhs {
        Rhs::Copy(_) => 1,
        Rhs::Op(_, operands) => operands.len(),
    }
}

/// The count with the operand places of the statements, up to the greatest number.
fn count_in_stmts(count: usize, stmts: &[Stmt]) -> usize
    ensures { result ≡ count_in_stmts count stmts.now }
{
    let mut total = count;
    for stmt in stmts {
        total = total.saturating_add(rhs_len(&stmt.rhs));
    }
    total
}

/// How many operands an end has.
fn end_len(end: &End) -> usize
    ensures { result ≡ length (operands_of_end end.now) }
{
    match end {
        End::Goto(_) => 0,
        End::If(_, _, _, _, _) => 2,
        End::Return(_) => 1,
    }
}

/// The count with the operand places of the block, up to the greatest number.
fn count_in_block(count: usize, block: &Block) -> usize
    ensures { result ≡ count_in_block count block.now }
{
    let total = count_in_phis(count, block.phis.as_slice());
    let total = count_in_stmts(total, block.stmts.as_slice());
    total.saturating_add(end_len(&block.end))
}

/// The count with the operand places of the blocks, up to the greatest number.
fn count_in_blocks(count: usize, blocks: &[Block]) -> usize
    ensures { result ≡ count_in_blocks count blocks.now }
{
    let mut total = count;
    for block in blocks {
        total = count_in_block(total, block);
    }
    total
}

/// Whether the bounds hold.
pub(crate) fn bounds_hold(function: &Function) -> bool
    ensures { result ≡ bounds_by_part function.now }
{
    function.blocks.len() < LIMIT
        && function.names.len() < LIMIT
        && count_in_blocks(0, function.blocks.as_slice()) < LIMIT
}
