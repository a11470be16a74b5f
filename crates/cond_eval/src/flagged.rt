//! Calls with an overflow flag.
ghost use Rattle.std.specs.Prelude.{◌≡◌, ◌<◌, ◌≤◌, ◌^◌, IfSome, map};
ghost use Rattle.std.specs.Option.{option_and_then};
ghost use Rattle.cond_eval.specs.CValues.{c_value};
ghost use Rattle.cond_eval.specs.Declarations.{exact_call, exact_negative, flagged_named};
ghost use Rattle.cond_eval.specs.Declarations.{flagged_one, flagged_three, flagged_value, IsFlagged};
ghost use Rattle.cond_eval.specs.Environments.{AreValues};
ghost use Rattle.cond_eval.specs.Values.{on_three, IsPair, IsValue};

use crate::environment::CEnv;
use crate::evaluation::eval;
use crate::pair::{Pair, words_of};
use crate::reading::{self, Reading};
use crate::value::CValue;
use pd_ast::{CExpr, CNode, Call};
use pm_ops::Text;

/// A word with an overflow flag.
#[derive(Clone, Copy)]
pub struct Flagged {
    pub precision: u8,
    pub bits: u128,
    pub overflow: bool,
}

/// The word and the flag of a call whose last argument, the flag's name, isn't among those that
/// stand here.
pub fn flagged_value(expr: &CExpr, env: &CEnv) -> Option<Flagged>
    requires { AreValues env.now.locals }
    ensures value { result ≡ flagged_value env.now expr.now }
    ensures is_flagged { IfSome result IsFlagged }
{
    match &expr.node {
        CNode::Call(name, args) => of_call(name, args.as_slice(), env),
        _ => None,
    }
}

/// The same, by the name and the arguments.
fn of_call(name: &Text, args: &[CExpr], env: &CEnv) -> Option<Flagged>
    requires { AreValues env.now.locals }
    ensures value { result ≡ flagged_named name.now (map (c_value env.now) args.now) }
    ensures is_flagged { IfSome result IsFlagged }
{
    match Call::from_name(name.bytes()) {
        Some(call) => match args {
            [a] => on_one(call, eval(a, env)),
            [a, b, c] => on_three(call, eval(a, env), eval(b, env), eval(c, env)),
            _ => None,
        },
        None => None,
    }
}

/// A call on one argument.
fn on_one(call: Call, a: Option<CValue>) -> Option<Flagged>
    requires { IfSome a IsValue }
    ensures value { result ≡ option_and_then (flagged_one call) a }
    ensures is_flagged { IfSome result IsFlagged }
{
    match a {
        Some(CValue::WideRef(precision, bits)) => exact_negative(call, precision, bits),
        _ => None,
    }
}

/// A call on three arguments.
fn on_three(call: Call, a: Option<CValue>, b: Option<CValue>, c: Option<CValue>) -> Option<Flagged>
    requires a_is_value { IfSome a IsValue }
    requires b_is_value { IfSome b IsValue }
    ensures value { result ≡ on_three (flagged_three call) a b c }
    ensures is_flagged { IfSome result IsFlagged }
{
    match (a, b, c) {
        (Some(a), Some(b), Some(CValue::Sign(unsigned))) => exact_words(
            call,
            unsigned,
            words_of(a, b),
        ),
        _ => None,
    }
}

/// A call on words that may be absent.
fn exact_words(call: Call, unsigned: bool, pair: Option<Pair>) -> Option<Flagged>
    requires { IfSome pair IsPair }
    ensures value { result ≡ option_and_then (exact_call call unsigned) pair }
    ensures is_flagged { IfSome result IsFlagged }
{
    exact_call(call, unsigned, pair?)
}

/// The word of an exact result of two words, and whether the result is outside their range.
fn exact_call(call: Call, unsigned: bool, pair: Pair) -> Option<Flagged>
    requires { IsPair pair }
    ensures value { result ≡ exact_call call unsigned pair }
    ensures is_flagged { IfSome result IsFlagged }
{
    let Pair {
        precision,
        left,
        right,
    } = pair;
    let reading = Reading {
        precision,
        unsigned,
    };
    let (bits, overflow) = match call {
        Call::Add => reading::exact_sum(reading, left, right),
        Call::Sub => reading::exact_difference(reading, left, right),
        Call::Mul => reading::exact_product(reading, left, right),
        _ => return None,
    };
    Some(Flagged {
        precision,
        bits,
        overflow,
    })
}

/// The word of the exact negative of a word, and whether the negative is outside its range.
fn exact_negative(call: Call, precision: u8, bits: u128) -> Option<Flagged>
    requires some { 0 < precision }
    requires precision { precision ≤ 128 }
    requires word { bits < 2 ^ precision }
    ensures value { result ≡ exact_negative call precision bits }
    ensures is_flagged { IfSome result IsFlagged }
{
    let reading = Reading {
        precision,
        unsigned: false,
    };
    let (bits, overflow) = match call {
        Call::Neg => reading::exact_negative(reading, bits),
        _ => return None,
    };
    Some(Flagged {
        precision,
        bits,
        overflow,
    })
}
