//! Operators on values.
ghost use Rattle.std.specs.Prelude.{◌≡◌, ◌==◌, IfSome, ◌+ℤ◌, ◌-ℤ◌, ◌*ℤ◌, bit_and, bit_or, bit_xor};
ghost use Rattle.std.specs.Int.RustNames.{int_lt, int_le};
ghost use Rattle.std.specs.Option.{option_map};
ghost use Rattle.pm_ops.specs.Codes.{same_code as same_code_of};
ghost use Rattle.pm_wide.specs.Operations.{int_same};
ghost use Rattle.pm_wide.specs.Types.{same_type as same_type_of};
ghost use Rattle.cond_eval.specs.Operators.{unary_value, arithmetic, bitwise, ordered, equal, binary_value};
ghost use Rattle.cond_eval.specs.Values.{words_of, IsValue};

use crate::pair::words_of;
use crate::value::CValue;
use crate::{integers, words};
use pd_ast::{BinaryOperator, UnaryOperator};
use pm_ops::Code;
use pm_wide::IntType;

/// The value of an operator before one operand.
pub fn unary(operator: UnaryOperator, a: CValue) -> Option<CValue>
    requires { IsValue a }
    ensures value { result ≡ unary_value operator a }
    ensures is_value { IfSome result IsValue }
{
    match (operator, a) {
        (UnaryOperator::Not, CValue::Truth(a)) => Some(CValue::Truth(!a)),
        (UnaryOperator::Complement, CValue::WideRef(precision, a)) => {
            Some(CValue::WideRef(precision, words::complement(precision, a)))
        }
        (UnaryOperator::Negate, CValue::Int(a)) => integers::negative(a),
        (UnaryOperator::Negate, CValue::WideRef(precision, a)) => {
            Some(CValue::WideRef(precision, words::negative(precision, a)))
        }
        _ => None,
    }
}

/// The value of an operator between two operands that both have values.
pub fn binary(operator: BinaryOperator, a: CValue, b: CValue) -> Option<CValue>
    requires a_is_value { IsValue a }
    requires b_is_value { IsValue b }
    ensures value { result ≡ binary_value operator a b }
    ensures is_value { IfSome result IsValue }
{
    match operator {
        BinaryOperator::Or | BinaryOperator::And => None,
        BinaryOperator::BitOr => either(a, b),
        BinaryOperator::BitXor => one_alone(a, b),
        BinaryOperator::BitAnd => both(a, b),
        BinaryOperator::Eq => Some(CValue::Truth(is_equal(&a, &b)?)),
        BinaryOperator::Ne => Some(CValue::Truth(!is_equal(&a, &b)?)),
        BinaryOperator::Lt => below(a, b),
        BinaryOperator::Le => at_most(a, b),
        BinaryOperator::Gt => above(a, b),
        BinaryOperator::Ge => at_least(a, b),
        BinaryOperator::Plus => sum(a, b),
        BinaryOperator::Minus => difference(a, b),
        BinaryOperator::Times => product(a, b),
    }
}

/// The sum of two whole numbers or of two words.
fn sum(a: CValue, b: CValue) -> Option<CValue>
    requires a_is_value { IsValue a }
    requires b_is_value { IsValue b }
    ensures value { result ≡ arithmetic (λ m n. m +ℤ n) a b }
    ensures is_value { IfSome result IsValue }
{
    if let (CValue::Int(a), CValue::Int(b)) = (a, b) {
        return integers::sum(a, b);
    }
    let pair = words_of(a, b)?;
    let word = words::sum(pair.precision, pair.left, pair.right);
    Some(CValue::WideRef(pair.precision, word))
}

/// The difference of two whole numbers or of two words.
fn difference(a: CValue, b: CValue) -> Option<CValue>
    requires a_is_value { IsValue a }
    requires b_is_value { IsValue b }
    ensures value { result ≡ arithmetic (λ m n. m -ℤ n) a b }
    ensures is_value { IfSome result IsValue }
{
    if let (CValue::Int(a), CValue::Int(b)) = (a, b) {
        return integers::difference(a, b);
    }
    let pair = words_of(a, b)?;
    let word = words::difference(pair.precision, pair.left, pair.right);
    Some(CValue::WideRef(pair.precision, word))
}

/// The product of two whole numbers or of two words.
fn product(a: CValue, b: CValue) -> Option<CValue>
    requires a_is_value { IsValue a }
    requires b_is_value { IsValue b }
    ensures value { result ≡ arithmetic (λ m n. m *ℤ n) a b }
    ensures is_value { IfSome result IsValue }
{
    if let (CValue::Int(a), CValue::Int(b)) = (a, b) {
        return integers::product(a, b);
    }
    let pair = words_of(a, b)?;
    let word = words::product(pair.precision, pair.left, pair.right);
    Some(CValue::WideRef(pair.precision, word))
}

/// The bits that are set in both words.
fn both(a: CValue, b: CValue) -> Option<CValue>
    requires a_is_value { IsValue a }
    requires b_is_value { IsValue b }
    ensures value { result ≡ bitwise bit_and a b }
    ensures is_value { IfSome result IsValue }
{
    match (a, b) {
        (CValue::WideRef(precision, a), CValue::WideRef(other, b)) if precision == other => {
            Some(CValue::WideRef(precision, words::both(precision, a, b)))
        }
        _ => None,
    }
}

/// The bits that are set in one of two words at least.
fn either(a: CValue, b: CValue) -> Option<CValue>
    requires a_is_value { IsValue a }
    requires b_is_value { IsValue b }
    ensures value { result ≡ bitwise bit_or a b }
    ensures is_value { IfSome result IsValue }
{
    match (a, b) {
        (CValue::WideRef(precision, a), CValue::WideRef(other, b)) if precision == other => {
            Some(CValue::WideRef(precision, words::either(precision, a, b)))
        }
        _ => None,
    }
}

/// The bits that are set in one of two words alone.
fn one_alone(a: CValue, b: CValue) -> Option<CValue>
    requires a_is_value { IsValue a }
    requires b_is_value { IsValue b }
    ensures value { result ≡ bitwise bit_xor a b }
    ensures is_value { IfSome result IsValue }
{
    match (a, b) {
        (CValue::WideRef(precision, a), CValue::WideRef(other, b)) if precision == other => {
            Some(CValue::WideRef(precision, words::one_alone(precision, a, b)))
        }
        _ => None,
    }
}

/// Whether a whole number is below another.
fn below(a: CValue, b: CValue) -> Option<CValue>
    ensures value { result ≡ ordered (λ m n. int_lt m n) a b }
    ensures is_value { IfSome result IsValue }
{
    match (a, b) {
        (CValue::Int(a), CValue::Int(b)) => Some(CValue::Truth(a < b)),
        _ => None,
    }
}

/// Whether a whole number is at most another.
fn at_most(a: CValue, b: CValue) -> Option<CValue>
    ensures value { result ≡ ordered (λ m n. int_le m n) a b }
    ensures is_value { IfSome result IsValue }
{
    match (a, b) {
        (CValue::Int(a), CValue::Int(b)) => Some(CValue::Truth(a <= b)),
        _ => None,
    }
}

/// Whether a whole number is above another.
fn above(a: CValue, b: CValue) -> Option<CValue>
    ensures value { result ≡ ordered (λ m n. int_lt n m) a b }
    ensures is_value { IfSome result IsValue }
{
    match (a, b) {
        (CValue::Int(a), CValue::Int(b)) => Some(CValue::Truth(a > b)),
        _ => None,
    }
}

/// Whether a whole number is at least another.
fn at_least(a: CValue, b: CValue) -> Option<CValue>
    ensures value { result ≡ ordered (λ m n. int_le n m) a b }
    ensures is_value { IfSome result IsValue }
{
    match (a, b) {
        (CValue::Int(a), CValue::Int(b)) => Some(CValue::Truth(a >= b)),
        _ => None,
    }
}

/// Whether two values of one static type are one. Operands aren't compared.
#[tactic(auto, using(pm_wide::proofs::Results::same_type_is))]
fn is_equal(a: &CValue, b: &CValue) -> Option<bool>
    requires a_is_value { IsValue a.now }
    requires b_is_value { IsValue b.now }
    ensures { result ≡ equal a.now b.now }
{
    match (a, b) {
        (CValue::Truth(a), CValue::Truth(b)) => Some(*a == *b),
        (CValue::Int(a), CValue::Int(b)) => Some(same_number(*a, *b)),
        (CValue::TypeRef(a), CValue::TypeRef(b)) => Some(same_type(*a, *b)),
        (CValue::Sign(a), CValue::Sign(b)) => Some(*a == *b),
        (CValue::CodeRef(a), CValue::CodeRef(b)) => Some(same_code(*a, *b)),
        _ => same_words(*a, *b),
    }
}

/// Whether two values are one word, where at least one is a word.
fn same_words(a: CValue, b: CValue) -> Option<bool>
    requires a_is_value { IsValue a }
    requires b_is_value { IsValue b }
    ensures { result ≡ option_map (λ w. w.left == w.right) (words_of a b) }
{
    let pair = words_of(a, b)?;
    Some(pair.left == pair.right)
}

/// Whether two whole numbers are one.
fn same_number(a: i64, b: i64) -> bool
    ensures { result ≡ int_same a b }
{
    a == b
}

/// Whether two types are one.
pub fn same_type(a: IntType, b: IntType) -> bool
    ensures { result ≡ same_type_of a b }
{
    a.bits() == b.bits() && a.unsigned() == b.unsigned()
}

/// Whether two codes are one.
fn same_code(a: Code, b: Code) -> bool
    ensures { result ≡ same_code_of a b }
{
    a == b
}
