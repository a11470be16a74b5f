//! Whole numbers from -2^63 to 2^63 - 1.
ghost use Rattle.std.specs.Prelude.{◌≡◌, neg_ℤ, ◌+ℤ◌, ◌-ℤ◌, ◌*ℤ◌};
ghost use Rattle.cond_eval.specs.Values.{whole};

use crate::value::CValue;

/// The sum.
#[tactic(auto, using(crate::proofs::IntegerLemmas::whole_fits, crate::proofs::IntegerLemmas::whole_not))]
pub fn sum(a: i64, b: i64) -> Option<CValue>
    ensures { result ≡ whole (a +ℤ b) }
{
    match a.checked_add(b) {
        Some(number) => Some(CValue::Int(number)),
        None => None,
    }
}

/// The difference.
#[tactic(auto, using(crate::proofs::IntegerLemmas::whole_fits, crate::proofs::IntegerLemmas::whole_not))]
pub fn difference(a: i64, b: i64) -> Option<CValue>
    ensures { result ≡ whole (a -ℤ b) }
{
    match a.checked_sub(b) {
        Some(number) => Some(CValue::Int(number)),
        None => None,
    }
}

/// The product.
#[tactic(auto, using(crate::proofs::IntegerLemmas::whole_fits, crate::proofs::IntegerLemmas::whole_not))]
pub fn product(a: i64, b: i64) -> Option<CValue>
    ensures { result ≡ whole (a *ℤ b) }
{
    match a.checked_mul(b) {
        Some(number) => Some(CValue::Int(number)),
        None => None,
    }
}

/// The negative.
#[tactic(auto, using(crate::proofs::IntegerLemmas::whole_fits, crate::proofs::IntegerLemmas::whole_not))]
pub fn negative(a: i64) -> Option<CValue>
    ensures { result ≡ whole (neg_ℤ a) }
{
    match a.checked_neg() {
        Some(number) => Some(CValue::Int(number)),
        None => None,
    }
}
