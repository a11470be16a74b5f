//! The way from an operand to what stands behind it.
ghost use Rattle.std.specs.Prelude.{◌≡◌};
ghost use Rattle.std.specs.Option.{option_and_then, option_copied};
ghost use Rattle.gim_terms.specs.Lookups.{rhs_behind};
ghost use Rattle.gim_terms.specs.Reached.{has_code, operand_of, reached};
ghost use Rattle.gim_terms.specs.Targets.{stmt_at};
ghost use Rattle.gim_terms.specs.Views.{operation_behind, operation_of_rhs, view_of};

use crate::lookup::right_side;
use gim_ast::{Function, Rhs, Stmt};
use pm_ops::Code;
use pm_wide::Operand;

/// The statement at a place of a block, both from 0.
pub(crate) fn stmt_there(function: &Function, block: usize, stmt: usize) -> Option<&Stmt>
    ensures { option_copied result ≡ stmt_at function.now block stmt }
{
    function.blocks.get(block)?.stmts.get(stmt)
}

/// The operand to which the positions lead from an operand on.
pub(crate) fn reach(function: &Function, from: Operand, positions: &[u8]) -> Option<Operand>
    ensures { result ≡ reached (view_of function.now) from positions.now }
{
    let mut operand = from;
    for position in positions {
        operand = operand_below(function, operand, *position)?;
    }
    Some(operand)
}

/// The operand at a position of the operation behind an operand.
fn operand_below(function: &Function, operand: Operand, position: u8) -> Option<Operand>
    ensures { result ≡ option_and_then (operand_of position)
        (operation_behind (view_of function.now) operand) }
{
    operand_in(right_behind(function, operand)?, position)
}

/// The operand at a position of a right side that is an operation.
fn operand_in(rhs: &Rhs, position: u8) -> Option<Operand>
    ensures { result ≡ option_and_then (operand_of position) (operation_of_rhs rhs.now) }
{
    match rhs {
        Rhs::Copy(_) => None,
        Rhs::Op(_, operands) => operands.as_slice().get(position as usize).copied(),
    }
}

/// Whether the operation behind an operand has this code.
pub(crate) fn has_code_behind(function: &Function, operand: Operand, code: Code) -> bool
    ensures { result ≡ has_code code (operation_behind (view_of function.now) operand) }
{
    match right_behind(function, operand) {
        Some(Rhs::Op(other, _)) => code.same(*other),
        Some(Rhs::Copy(_)) => false,
        None => false,
    }
}

/// The right side of the statement that assigns an operand.
fn right_behind(function: &Function, operand: Operand) -> Option<&Rhs>
    ensures { option_copied result ≡ rhs_behind (view_of function.now) operand }
{
    match operand {
        Operand::Name(version, _) => right_side(function, version),
        Operand::Const(_) => None,
    }
}
