ghost use Rattle.std.specs.Prelude.{◌≡◌};
ghost use Rattle.pm_wide.specs.Typing.{well_typed_operation, well_typed_unary, well_typed_binary, well_typed_ternary};

use crate::ty::IntType;
use pm_ops::Code;

/// Whether an operation on operands of these types has a result of that type.
#[tactic(auto, unfolding(crate::specs::Typing::well_typed_operation))]
pub fn well_typed(code: Code, ty: IntType, args: &[IntType]) -> bool
    ensures { result ≡ well_typed_operation code ty args.now }
{
    match args {
        [a] => unary(code, ty, *a),
        [a, b] => binary(code, ty, *a, *b),
        [a, b, c] => ternary(code, ty, *a, *b, *c),
        _ => false,
    }
}

fn unary(code: Code, ty: IntType, a: IntType) -> bool
    ensures { result ≡ well_typed_unary code ty a }
{
    match code {
        Code::Convert => true,
        Code::Negate | Code::BitNot => a == ty,
        Code::Abs => a == ty && !a.unsigned(),
        Code::Absu => ty.unsigned() && !a.unsigned() && a.bits() == ty.bits(),
        _ => false,
    }
}

fn binary(code: Code, ty: IntType, a: IntType, b: IntType) -> bool
    ensures { result ≡ well_typed_binary code ty a b }
{
    match code {
        Code::Plus | Code::Minus | Code::Mult => a == ty && b == ty,
        Code::TruncDiv | Code::TruncMod | Code::Min | Code::Max => a == ty && b == ty,
        Code::BitAnd | Code::BitIor | Code::BitXor => a == ty && b == ty,
        Code::Lshift | Code::Rshift => a == ty,
        _ => code.is_comparison() && a == b && ty == IntType::boolean(),
    }
}

fn ternary(code: Code, ty: IntType, a: IntType, b: IntType, c: IntType) -> bool
    ensures { result ≡ well_typed_ternary code ty a b c }
{
    match code {
        Code::Cond => a == IntType::boolean() && b == ty && c == ty,
        _ => false,
    }
}
