//! The rules on operands, and on the types of phis, statements and ends.

ghost use Rattle.std.specs.Prelude.{◌≡◌, map, find};
ghost use Rattle.std.specs.List.{list_all};
ghost use Rattle.std.specs.Option.{option_copied};
ghost use Rattle.pm_wide.specs.Types.{same_type};
ghost use Rattle.pm_wide.specs.Typing.{well_typed_operation};
ghost use Rattle.gim_ast.specs.Functions.{row_of, operands_of_rhs, operands_of_end};
ghost use Rattle.gim_ast.specs.WellFormed.{type_of, is_word, operand_holds, rhs_fits, stmt_fits, phi_fits, end_fits, block_fits};
ghost use Rattle.gim_ast.specs.RulesByPart.{arg_holds, phi_operands_hold, stmt_operands_hold, block_operands_hold, arg_fits, row_is, operands_by_part};

use crate::{Block, End, Function, NameRow, Phi, Rhs, Stmt};
use pm_ops::Code;
use pm_wide::{IntType, Operand, Wide, well_typed};

/// The first row of a version.
fn row_among(rows: &[NameRow], version: u32) -> Option<&NameRow>
    ensures { option_copied result ≡ find (row_is version) rows.now }
{
    rows.iter().find(|row| row.version == version)
}

/// The row of a version.
#[tactic(auto, using(crate::proofs::RowSearch::row_by_find))]
fn name_row(function: &Function, version: u32) -> Option<&NameRow>
    ensures { option_copied result ≡ row_of function.now version }
{
    row_among(function.names.as_slice(), version)
}

/// Whether the two types are one.
pub(crate) fn same_type(left: IntType, right: IntType) -> bool
    ensures { result ≡ same_type left right }
{
    left == right
}

/// The type of an operand.
fn type_of(operand: &Operand) -> IntType
    ensures { result ≡ type_of operand.now }
{
    match operand {
        Operand::Name(_, ty) => *ty,
        Operand::Const(word) => word.ty(),
    }
}

/// Each constant is a word of its type.
fn is_word(word: Wide) -> bool
    ensures { result ≡ is_word word }
{
    let _bits = word.bits();
    true
}

/// Whether a name has the type of its row, and a constant is a word of its type.
fn operand_holds(function: &Function, operand: &Operand) -> bool
    ensures { result ≡ operand_holds function.now operand.now }
{
    match operand {
        Operand::Name(version, ty) => match name_row(function, *version) {
            Some(row) => same_type(row.ty, *ty),
            None => false,
        },
        Operand::Const(word) => is_word(*word),
    }
}

/// Whether each of the operands holds.
fn are_operands(function: &Function, operands: &[Operand]) -> bool
    ensures { result ≡ list_all (operand_holds function.now) operands.now }
{
    operands
        .iter()
        .all(|operand| operand_holds(function, operand))
}

/// Whether each argument's operand holds.
fn args_hold(function: &Function, args: &[(u32, Operand)]) -> bool
    ensures { result ≡ list_all (arg_holds function.now) args.now }
{
    args.iter().all(|arg| operand_holds(function, &arg.1))
}

/// Whether each operand of the phis holds.
fn phi_operands_hold(function: &Function, phis: &[Phi]) -> bool
    ensures { result ≡ list_all (phi_operands_hold function.now) phis.now }
{
    phis.iter()
        .all(|phi| args_hold(function, phi.args.as_slice()))
}

/// Whether each operand of a right side holds.
fn rhs_operands_hold(function: &Function, rhs: &Rhs) -> bool
    ensures { result ≡ list_all (operand_holds function.now) (operands_of_rhs rhs.now) }
{
    match rhs {
        Rhs::Copy(operand) => operand_holds(function, operand),
        Rhs::Op(_, operands) => are_operands(function, operands.as_slice()),
    }
}

/// Whether each operand of the statements holds.
fn stmt_operands_hold(function: &Function, stmts: &[Stmt]) -> bool
    ensures { result ≡ list_all (stmt_operands_hold function.now) stmts.now }
{
    stmts
        .iter()
        .all(|stmt| rhs_operands_hold(function, &stmt.rhs))
}

/// Whether each operand of an end holds.
fn end_operands_hold(function: &Function, end: &End) -> bool
    ensures { result ≡ list_all (operand_holds function.now) (operands_of_end end.now) }
{
    match end {
        End::Goto(_) => true,
        End::If(_, left, right, _, _) => {
            operand_holds(function, left) && operand_holds(function, right)
        }
        End::Return(operand) => operand_holds(function, operand),
    }
}

/// Whether each operand of a block holds.
fn block_operands_hold(function: &Function, block: &Block) -> bool
    ensures { result ≡ block_operands_hold function.now block.now }
{
    phi_operands_hold(function, block.phis.as_slice())
        && stmt_operands_hold(function, block.stmts.as_slice())
        && end_operands_hold(function, &block.end)
}

/// Whether each operand of the blocks holds.
fn all_operands_hold(function: &Function, blocks: &[Block]) -> bool
    ensures { result ≡ list_all (block_operands_hold function.now) blocks.now }
{
    blocks
        .iter()
        .all(|block| block_operands_hold(function, block))
}

/// Whether an operation on these operands has a result of that type.
#[tactic(auto, unfolding(pm_wide::specs::Typing::well_typed_operation))]
fn operation_fits(code: Code, ty: IntType, operands: &[Operand]) -> bool
    ensures { result ≡ well_typed_operation code ty (map type_of operands.now) }
{
    match operands {
        [a] => well_typed(code, ty, &[type_of(a)]),
        [a, b] => well_typed(code, ty, &[type_of(a), type_of(b)]),
        [a, b, c] => well_typed(code, ty, &[type_of(a), type_of(b), type_of(c)]),
        _ => false,
    }
}

/// Whether a right side has that type.
fn rhs_fits(ty: IntType, rhs: &Rhs) -> bool
    ensures { result ≡ rhs_fits ty rhs.now }
{
    match rhs {
        Rhs::Copy(operand) => same_type(type_of(operand), ty),
        Rhs::Op(code, operands) => operation_fits(*code, ty, operands.as_slice()),
    }
}

/// Whether a statement's right side has the type of its name.
fn stmt_fits(function: &Function, stmt: &Stmt) -> bool
    ensures { result ≡ stmt_fits function.now stmt.now }
{
    match name_row(function, stmt.name) {
        Some(row) => rhs_fits(row.ty, &stmt.rhs),
        None => false,
    }
}

/// Whether each statement fits.
fn stmts_fit(function: &Function, stmts: &[Stmt]) -> bool
    ensures { result ≡ list_all (stmt_fits function.now) stmts.now }
{
    stmts.iter().all(|stmt| stmt_fits(function, stmt))
}

/// Whether each argument has that type.
fn args_fit(ty: IntType, args: &[(u32, Operand)]) -> bool
    ensures { result ≡ list_all (arg_fits ty) args.now }
{
    args.iter().all(|arg| same_type(type_of(&arg.1), ty))
}

/// Whether a phi's arguments have the type of its name.
fn phi_fits(function: &Function, phi: &Phi) -> bool
    ensures { result ≡ phi_fits function.now phi.now }
{
    match name_row(function, phi.name) {
        Some(row) => args_fit(row.ty, phi.args.as_slice()),
        None => false,
    }
}

/// Whether each phi fits.
fn phis_fit(function: &Function, phis: &[Phi]) -> bool
    ensures { result ≡ list_all (phi_fits function.now) phis.now }
{
    phis.iter().all(|phi| phi_fits(function, phi))
}

/// Whether a condition compares operands of one type, and what is returned has the type of the function.
fn end_fits(function: &Function, end: &End) -> bool
    ensures { result ≡ end_fits function.now end.now }
{
    match end {
        End::Goto(_) => true,
        End::If(code, left, right, _, _) => {
            code.is_comparison() && same_type(type_of(left), type_of(right))
        }
        End::Return(operand) => same_type(type_of(operand), function.result),
    }
}

/// Whether the phis, the statements and the end of a block fit.
fn block_fits(function: &Function, block: &Block) -> bool
    ensures { result ≡ block_fits function.now block.now }
{
    phis_fit(function, block.phis.as_slice())
        && stmts_fit(function, block.stmts.as_slice())
        && end_fits(function, &block.end)
}

/// Whether each block fits.
fn blocks_fit(function: &Function, blocks: &[Block]) -> bool
    ensures { result ≡ list_all (block_fits function.now) blocks.now }
{
    blocks.iter().all(|block| block_fits(function, block))
}

/// Whether the rules on operands hold.
pub(crate) fn operands_hold(function: &Function) -> bool
    ensures { result ≡ operands_by_part function.now }
{
    let blocks = function.blocks.as_slice();
    all_operands_hold(function, blocks) && blocks_fit(function, blocks)
}
