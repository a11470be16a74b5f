//! Two words of one precision.
ghost use Rattle.std.specs.Prelude.{◌≡◌, IfSome};
ghost use Rattle.cond_eval.specs.Values.{words_of, IsPair, IsValue};

use crate::value::CValue;
use crate::words::reduced;

/// Two words of one precision.
#[derive(Clone, Copy)]
pub struct Pair {
    pub precision: u8,
    pub left: u128,
    pub right: u128,
}

/// Two values as words of one precision, where at least one is a word: a whole number is reduced to
/// the precision of the other.
pub fn words_of(a: CValue, b: CValue) -> Option<Pair>
    requires a_is_value { IsValue a }
    requires b_is_value { IsValue b }
    ensures value { result ≡ words_of a b }
    ensures words { IfSome result IsPair }
{
    match (a, b) {
        (CValue::WideRef(precision, left), CValue::WideRef(other, right)) => {
            if precision == other {
                Some(Pair {
                    precision,
                    left,
                    right,
                })
            } else {
                None
            }
        }
        (CValue::WideRef(precision, left), CValue::Int(number)) => Some(Pair {
            precision,
            left,
            right: reduced(precision, number),
        }),
        (CValue::Int(number), CValue::WideRef(precision, right)) => Some(Pair {
            precision,
            left: reduced(precision, number),
            right,
        }),
        _ => None,
    }
}
