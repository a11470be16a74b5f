ghost use Rattle.std.specs.Prelude.{◌≡◌, IfOk, IsTrue, map};
ghost use Rattle.std.specs.Option.{ok_or};
ghost use Rattle.pm_wide.specs.Types.{Word};
ghost use Rattle.pm_wide.specs.Typing.{well_typed_operation, well_typed_unary, well_typed_binary, well_typed_ternary};
ghost use Rattle.pm_wide.specs.Operations.{operation_value, unary_value, binary_value, ternary_value};

use crate::ty::IntType;
use crate::undefined::Undefined;
use crate::wide::Wide;
use crate::{arithmetic, bitwise, divide, order, shift};
use pm_ops::Code;

/// The value of an operation on words, or `Undefined` where the operation table gives none.
pub fn op_value(code: Code, ty: IntType, args: &[Wide]) -> Result<Wide, Undefined>
    requires { IsTrue (well_typed_operation code ty (map (λ (w : Word). w.ty) args.now)) }
    ensures value { result ≡ ok_or (operation_value code ty args.now) (record {}) }
    ensures typed { IfOk result (λ w. w.ty ≡ ty) }
{
    by_operands(code, ty, args)
}

/// The same, by the number of operands.
#[tactic(auto, unfolding(crate::specs::Operations::operation_value, crate::specs::Typing::well_typed_operation))]
fn by_operands(code: Code, ty: IntType, args: &[Wide]) -> Result<Wide, Undefined>
    requires { IsTrue (well_typed_operation code ty (map (λ (w : Word). w.ty) args.now)) }
    ensures { result ≡ ok_or (operation_value code ty args.now) (record {}) }
{
    match args {
        [a] => unary(code, ty, *a),
        [a, b] => binary(code, ty, *a, *b),
        [a, b, c] => ternary(code, ty, *a, *b, *c),
        _ => Err(Undefined),
    }
}

fn unary(code: Code, ty: IntType, a: Wide) -> Result<Wide, Undefined>
    requires { IsTrue (well_typed_unary code ty a.ty) }
    ensures { result ≡ ok_or (unary_value code ty a) (record {}) }
{
    match code {
        Code::Convert => Ok(a.value().word(ty)),
        Code::Negate => arithmetic::negative(ty, a),
        Code::Abs => arithmetic::size(ty, a),
        Code::Absu => Ok(a.value().absolute().word(ty)),
        Code::BitNot => Ok(bitwise::complement(ty, a)),
        _ => Err(Undefined),
    }
}

fn binary(code: Code, ty: IntType, a: Wide, b: Wide) -> Result<Wide, Undefined>
    requires { IsTrue (well_typed_binary code ty a.ty b.ty) }
    ensures { result ≡ ok_or (binary_value code ty a b) (record {}) }
{
    match code {
        Code::Plus => arithmetic::sum(ty, a, b),
        Code::Minus => arithmetic::difference(ty, a, b),
        Code::Mult => arithmetic::product(ty, a, b),
        Code::TruncDiv => divide::quotient(ty, a, b),
        Code::TruncMod => divide::remainder(ty, a, b),
        Code::BitAnd => Ok(bitwise::and(ty, a, b)),
        Code::BitIor => Ok(bitwise::or(ty, a, b)),
        Code::BitXor => Ok(bitwise::xor(ty, a, b)),
        Code::Lshift => shift::up(ty, a, b),
        Code::Rshift => shift::down(ty, a, b),
        Code::Min => Ok(order::lesser(ty, a, b)),
        Code::Max => Ok(order::greater(ty, a, b)),
        Code::Eq => Ok(order::truth(order::is_same(a, b))),
        Code::Ne => Ok(order::truth(!order::is_same(a, b))),
        Code::Lt => Ok(order::truth(order::is_below(a, b))),
        Code::Le => Ok(order::truth(order::is_at_most(a, b))),
        Code::Gt => Ok(order::truth(order::is_below(b, a))),
        Code::Ge => Ok(order::truth(order::is_at_most(b, a))),
        _ => Err(Undefined),
    }
}

fn ternary(code: Code, ty: IntType, a: Wide, b: Wide, c: Wide) -> Result<Wide, Undefined>
    requires { IsTrue (well_typed_ternary code ty a.ty b.ty c.ty) }
    ensures { result ≡ ok_or (ternary_value code ty a b c) (record {}) }
{
    match code {
        Code::Cond if a.bits() == 1 => Ok(b),
        Code::Cond => Ok(c),
        _ => Err(Undefined),
    }
}
