//! Which row applies first at an operation.
ghost use Rattle.std.specs.Prelude.{◌≡◌, ◌<◌, ◌^◌, length};
ghost use Rattle.gim_ast.specs.declared.function.Rhs.TheVariants.{Op};
ghost use Rattle.gim_ast.specs.Functions.{same_operand as is_same_operand};
ghost use Rattle.pm_wide.specs.Types.{same_type as is_same_type};
ghost use Rattle.first_patterns.specs.Matching.{side_of, result_of, found_from};

use first_patterns::{Row, Side};
use pm_ops::Code;
use pm_wide::{IntType, Operand};

/// Whether two operands are one name, or one constant.
pub(crate) fn same_operand(a: &Operand, b: &Operand) -> bool
    ensures { result ≡ is_same_operand a.now b.now }
{
    match (a, b) {
        (Operand::Name(x, t), Operand::Name(y, u)) => *x == *y && same_type(*t, *u),
        (Operand::Const(v), Operand::Const(w)) => v.bits() == w.bits() && same_type(v.ty(), w.ty()),
        _ => false,
    }
}

fn same_type(a: IntType, b: IntType) -> bool
    ensures { result ≡ is_same_type a b }
{
    a.bits() == b.bits() && a.unsigned() == b.unsigned()
}

/// The row's result at an operation, where the row applies.
fn result_at(row: Row, code: Code, operands: &[Operand]) -> Option<Operand>
    ensures { result ≡ result_of row (Op code operands.now) }
{
    if !row.code.same(code) {
        return None;
    }
    match operands {
        [a, b] if !row.same || same_operand(a, b) => Some(side(row.result, *a, *b)),
        _ => None,
    }
}

/// The operand on that side.
fn side(side: Side, left: Operand, right: Operand) -> Operand
    ensures { result ≡ side_of side left right }
{
    match side {
        Side::Left => left,
        Side::Right => right,
    }
}

/// The first row that applies at an operation, by its number from 1, with its result.
pub(crate) fn first_row(rows: &[Row], code: Code, operands: &[Operand]) -> Option<(u32, Operand)>
    requires { length rows.now < 2 ^ 32 }
    ensures { result ≡ found_from 0 rows.now (Op code operands.now) }
{
    for (i, row) in rows.iter().enumerate() {
        if let Some(a) = result_at(*row, code, operands) {
            return Some((i as u32 + 1, a));
        }
    }
    None
}
