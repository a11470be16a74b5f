//! The value of an expression.
//!
//! What takes expressions apart never takes values apart: that is left to functions on values that
//! may be absent.
ghost use Rattle.std.specs.Prelude.{◌≡◌, IfSome, map};
ghost use Rattle.cond_eval.specs.CValues.{c_value, called, node_value_of};
ghost use Rattle.cond_eval.specs.Environments.{AreValues};
ghost use Rattle.cond_eval.specs.Values.{IsValue};

use crate::absent::{
    call_on_one, call_on_three, call_on_two, capture, code_test, needs_right, operator_before,
    operator_between, truth_of, typed,
};
use crate::environment::CEnv;
use crate::value::CValue;
use pd_ast::{CExpr, CNode, Call};
use pm_ops::Text;

/// The value of an expression, or none. Takes no memory.
///
/// `&&`, `||` and `?:` evaluate only what they need; elsewhere a part without a value leaves the
/// whole without one. A name has a value where the environment has it at the expression's static
/// type.
#[cycle(eval)]
pub fn eval(expr: &CExpr, env: &CEnv) -> Option<CValue>
    requires { AreValues env.now.locals }
    ensures value { result ≡ c_value env.now expr.now }
    ensures is_value { IfSome result IsValue }
{
    typed(of_node(&expr.node, env), expr.ty)
}

/// The value of a node, of whatever type.
#[cycle(eval)]
fn of_node(node: &CNode, env: &CEnv) -> Option<CValue>
    requires { AreValues env.now.locals }
    ensures value { result ≡ node_value_of env.now node.now }
    ensures is_value { IfSome result IsValue }
{
    match node {
        CNode::Number(number) => Some(CValue::Int(*number)),
        CNode::Truth(truth) => Some(CValue::Truth(*truth)),
        CNode::Sign(unsigned) => Some(CValue::Sign(*unsigned)),
        CNode::OfCode(code) => Some(CValue::CodeRef(*code)),
        CNode::Choice(_) | CNode::Subject => None,
        CNode::Local(name) => env.local(name),
        CNode::Capture(name) => capture(name, env),
        CNode::SubjectType => Some(CValue::TypeRef(env.ty)),
        CNode::Unary(name, a) => operator_before(name, eval(a.get(), env)),
        CNode::Binary(name, a, b) => {
            let left = eval(a.get(), env);
            let right = if needs_right(name, &left) {
                eval(b.get(), env)
            } else {
                None
            };
            operator_between(name, left, right)
        }
        CNode::Choose(a, b, c) => match truth_of(&eval(a.get(), env)) {
            Some(true) => eval(b.get(), env),
            Some(false) => eval(c.get(), env),
            None => None,
        },
        CNode::CodeTest(a, equal, constant) => code_test(*equal, *constant, eval(a.get(), env)),
        CNode::Call(name, args) => of_call(name, args.as_slice(), env),
    }
}

/// A call on expressions.
#[cycle(eval)]
fn of_call(name: &Text, args: &[CExpr], env: &CEnv) -> Option<CValue>
    requires { AreValues env.now.locals }
    ensures value { result ≡ called env.now name.now (map (c_value env.now) args.now) }
    ensures is_value { IfSome result IsValue }
{
    match Call::from_name(name.bytes()) {
        Some(call) => match args {
            [a] => call_on_one(call, eval(a, env), env),
            [a, b] => call_on_two(call, eval(a, env), eval(b, env)),
            [a, b, c] => call_on_three(call, eval(a, env), eval(b, env), eval(c, env)),
            _ => None,
        },
        None => None,
    }
}
