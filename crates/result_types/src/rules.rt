//! The rules on types, code by code.
ghost use Rattle.std.specs.Prelude.{◌≡◌};
ghost use Rattle.std.specs.Option.{option_map, option_or};
ghost use Rattle.result_types.specs.TypeRules.{own_of_code, asked_by_code};
ghost use Rattle.result_types.specs.IntegerTypes.{integer_types, unsigned_one, signed_one};

use pm_ops::Code;
use pm_wide::IntType;

/// The type that an operation of a code has of its own, from the own types of its operands; `None`
/// stands for an operand without one, and for one that isn't there.
pub fn own_type_of_code(
    code: Code,
    a: Option<IntType>,
    b: Option<IntType>,
    c: Option<IntType>,
) -> Option<IntType>
    ensures { result ≡ own_of_code integer_types code a b c }
{
    match code {
        Code::Convert => None,
        Code::Absu => unsigned_of(a),
        Code::Cond => either(b, c),
        Code::Negate | Code::Abs | Code::BitNot | Code::Lshift | Code::Rshift => a,
        Code::Eq | Code::Ne | Code::Lt | Code::Le | Code::Gt | Code::Ge => Some(IntType::boolean()),
        _ => either(a, b),
    }
}

/// The types that an operation of a type asks of its operands, from the own types of the first two.
pub fn asked_types(
    code: Code,
    ty: IntType,
    a: Option<IntType>,
    b: Option<IntType>,
) -> (Option<IntType>, Option<IntType>, Option<IntType>)
    ensures { result ≡ asked_by_code integer_types code ty a b }
{
    match code {
        Code::Convert => (None, None, None),
        Code::Absu => (signed_type(ty), None, None),
        Code::Cond => (Some(IntType::boolean()), Some(ty), Some(ty)),
        Code::Eq | Code::Ne | Code::Lt | Code::Le | Code::Gt | Code::Ge => (b, a, None),
        _ => (Some(ty), Some(ty), Some(ty)),
    }
}

/// The first type that is there.
fn either(a: Option<IntType>, b: Option<IntType>) -> Option<IntType>
    ensures { result ≡ option_or a b }
{
    match a {
        Some(ty) => Some(ty),
        None => b,
    }
}

/// The unsigned type of the width of a type that may be absent.
fn unsigned_of(ty: Option<IntType>) -> Option<IntType>
    ensures { result ≡ option_map unsigned_one ty }
{
    match ty {
        Some(ty) => Some(unsigned_type(ty)),
        None => None,
    }
}

/// The unsigned type of that width.
fn unsigned_type(ty: IntType) -> IntType
    ensures { result ≡ unsigned_one ty }
{
    match IntType::new(ty.bits(), true) {
        Some(unsigned) => unsigned,
        None => unreachable!(),
    }
}

/// The signed type of that width; `_Bool` has none.
fn signed_type(ty: IntType) -> Option<IntType>
    ensures { result ≡ signed_one ty }
{
    IntType::new(ty.bits(), false)
}
