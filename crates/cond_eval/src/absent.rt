//! Operators and calls on values that may be absent.
ghost use Rattle.std.specs.Prelude.{◌≡◌, [], ◌∷◌, IfSome, Option, None, false};
ghost use Rattle.std.specs.Option.{option_and_then};
ghost use Rattle.cond_eval.specs.declared.value.CValue.{CValue};
ghost use Rattle.cond_eval.specs.Calls.{call_value, of_two, of_three};
ghost use Rattle.cond_eval.specs.CValues.{before, between, captured, code_test, truth_in};
ghost use Rattle.cond_eval.specs.Operators.{and_value, or_value, unary_value, binary_value};
ghost use Rattle.cond_eval.specs.Values.{of_static_type, on_two, on_three, IsValue};

use crate::environment::CEnv;
use crate::value::CValue;
use crate::{calls, operators};
use pd_ast::{BinaryOperator, CType, Call, UnaryOperator, holds};
use pm_ops::{Pred, Text};

/// The value, where it has that static type.
pub fn typed(value: Option<CValue>, ty: CType) -> Option<CValue>
    requires { IfSome value IsValue }
    ensures value { result ≡ option_and_then (of_static_type ty) value }
    ensures is_value { IfSome result IsValue }
{
    match value {
        Some(value) => value.of_type(ty),
        None => None,
    }
}

/// The truth that it is.
pub fn truth_of(value: &Option<CValue>) -> Option<bool>
    ensures { result ≡ truth_in value.now }
{
    match value {
        Some(CValue::Truth(truth)) => Some(*truth),
        _ => None,
    }
}

/// The operand of a capture.
pub fn capture(name: &Text, env: &CEnv) -> Option<CValue>
    ensures value { result ≡ captured env.now name.now }
    ensures is_value { IfSome result IsValue }
{
    match env.capture(name) {
        Some(operand) => Some(CValue::Oper(operand)),
        None => None,
    }
}

/// The operator of that name before a value.
pub fn operator_before(name: &Text, a: Option<CValue>) -> Option<CValue>
    requires { IfSome a IsValue }
    ensures value { result ≡ before name.now a }
    ensures is_value { IfSome result IsValue }
{
    match UnaryOperator::from_name(name.bytes()) {
        Some(operator) => operator_on(operator, a),
        None => None,
    }
}

/// An operator before a value.
fn operator_on(operator: UnaryOperator, a: Option<CValue>) -> Option<CValue>
    requires { IfSome a IsValue }
    ensures value { result ≡ option_and_then (unary_value operator) a }
    ensures is_value { IfSome result IsValue }
{
    match a {
        Some(a) => operators::unary(operator, a),
        None => None,
    }
}

/// Whether the value of the operator of that name depends on the right operand, where the left one
/// has this value.
pub fn needs_right(name: &Text, left: &Option<CValue>) -> bool
    ensures { result ≡ false →
        (right : Option CValue) → between name.now left.now right ≡ between name.now left.now None }
{
    match BinaryOperator::from_name(name.bytes()) {
        Some(BinaryOperator::And) => truth_of(left) == Some(true),
        Some(BinaryOperator::Or) => truth_of(left) == Some(false),
        Some(_) => true,
        None => false,
    }
}

/// The operator of that name between two values.
pub fn operator_between(name: &Text, left: Option<CValue>, right: Option<CValue>) -> Option<CValue>
    requires left_is_value { IfSome left IsValue }
    requires right_is_value { IfSome right IsValue }
    ensures value { result ≡ between name.now left right }
    ensures is_value { IfSome result IsValue }
{
    match BinaryOperator::from_name(name.bytes()) {
        Some(BinaryOperator::And) => and(left, right),
        Some(BinaryOperator::Or) => or(left, right),
        Some(operator) => strictly(operator, left, right),
        None => None,
    }
}

/// `left && right`.
fn and(left: Option<CValue>, right: Option<CValue>) -> Option<CValue>
    requires { IfSome right IsValue }
    ensures value { result ≡ and_value left right }
    ensures is_value { IfSome result IsValue }
{
    match truth_of(&left) {
        Some(true) => right,
        Some(false) => Some(CValue::Truth(false)),
        None => None,
    }
}

/// `left || right`.
fn or(left: Option<CValue>, right: Option<CValue>) -> Option<CValue>
    requires { IfSome right IsValue }
    ensures value { result ≡ or_value left right }
    ensures is_value { IfSome result IsValue }
{
    match truth_of(&left) {
        Some(true) => Some(CValue::Truth(true)),
        Some(false) => right,
        None => None,
    }
}

/// An operator that needs both values.
fn strictly(operator: BinaryOperator, left: Option<CValue>, right: Option<CValue>) -> Option<CValue>
    requires left_is_value { IfSome left IsValue }
    requires right_is_value { IfSome right IsValue }
    ensures value { result ≡ on_two (binary_value operator) left right }
    ensures is_value { IfSome result IsValue }
{
    match (left, right) {
        (Some(left), Some(right)) => operators::binary(operator, left, right),
        _ => None,
    }
}

/// Whether an operand is a constant, or a name, compared with true or false.
pub fn code_test(equal: bool, constant: bool, a: Option<CValue>) -> Option<CValue>
    ensures value { result ≡ option_and_then (code_test equal constant) a }
    ensures is_value { IfSome result IsValue }
{
    match a {
        Some(CValue::Oper(operand)) => {
            let pred = if constant { Pred::Cst } else { Pred::Ssa };
            Some(CValue::Truth(holds(pred, operand) == equal))
        }
        _ => None,
    }
}

/// A call on one argument.
pub fn call_on_one(call: Call, a: Option<CValue>, env: &CEnv) -> Option<CValue>
    requires { IfSome a IsValue }
    ensures value { result ≡ call_value call env.now.uses (a ∷ []) }
    ensures is_value { IfSome result IsValue }
{
    match a {
        Some(a) => calls::of_one(call, &a, env),
        None => None,
    }
}

/// A call on two arguments, whatever the environment.
pub fn call_on_two(call: Call, a: Option<CValue>, b: Option<CValue>) -> Option<CValue>
    requires a_is_value { IfSome a IsValue }
    requires b_is_value { IfSome b IsValue }
    ensures value { result ≡ on_two (of_two call) a b }
    ensures is_value { IfSome result IsValue }
{
    match (a, b) {
        (Some(a), Some(b)) => calls::of_two(call, &a, &b),
        _ => None,
    }
}

/// A call on three arguments, whatever the environment.
pub fn call_on_three(
    call: Call,
    a: Option<CValue>,
    b: Option<CValue>,
    c: Option<CValue>,
) -> Option<CValue>
    requires a_is_value { IfSome a IsValue }
    requires b_is_value { IfSome b IsValue }
    ensures value { result ≡ on_three (of_three call) a b c }
    ensures is_value { IfSome result IsValue }
{
    match (a, b, c) {
        (Some(a), Some(b), Some(c)) => calls::of_three(call, a, b, &c),
        _ => None,
    }
}
