//! Exact sums, differences, products and negatives of words: the word that is left of them, and
//! whether they leave the range of the type.
ghost use Rattle.std.specs.Prelude.{◌≡◌, ◌<◌, ◌≤◌, ◌^◌, IsTrue, not, MatchOption, neg_ℤ, ◌+ℤ◌, ◌-ℤ◌, ◌*ℤ◌};
ghost use Rattle.pm_wide.specs.Types.{value_of, word_of, in_range};

use crate::number::Number;
use crate::ty::IntType;
use crate::wide::lowest;

/// The word of the sum of two words of the type, and whether the exact sum is outside the type's
/// range.
#[tactic(auto, using(crate::proofs::Wrapping::wrapped_sum, crate::proofs::Wrapping::out_of_range))]
pub fn add_overflow(a: u128, b: u128, ty: IntType) -> (u128, bool)
    requires a_is_word { a < 2 ^ ty.width }
    requires b_is_word { b < 2 ^ ty.width }
    ensures { let z = value_of ty a +ℤ value_of ty b in result ≡ (word_of ty z, not (in_range ty z)) }
{
    let exact = Number::of_word(a, ty).plus(Number::of_word(b, ty));
    (lowest(a.wrapping_add(b), ty.bits()), overflows(exact, ty))
}

/// The word of the difference of two words of the type, and whether the exact difference is
/// outside the type's range.
#[tactic(auto, using(crate::proofs::Wrapping::wrapped_difference, crate::proofs::Wrapping::out_of_range))]
pub fn sub_overflow(a: u128, b: u128, ty: IntType) -> (u128, bool)
    requires a_is_word { a < 2 ^ ty.width }
    requires b_is_word { b < 2 ^ ty.width }
    ensures { let z = value_of ty a -ℤ value_of ty b in result ≡ (word_of ty z, not (in_range ty z)) }
{
    let exact = Number::of_word(a, ty).plus(Number::of_word(b, ty).negated());
    (lowest(a.wrapping_sub(b), ty.bits()), overflows(exact, ty))
}

/// The word of the product of two words of the type, and whether the exact product is outside the
/// type's range.
#[tactic(auto, using(crate::proofs::Wrapping::wrapped_product, crate::proofs::Wrapping::out_of_range))]
pub fn mul_overflow(a: u128, b: u128, ty: IntType) -> (u128, bool)
    requires a_is_word { a < 2 ^ ty.width }
    requires b_is_word { b < 2 ^ ty.width }
    ensures { let z = value_of ty a *ℤ value_of ty b in result ≡ (word_of ty z, not (in_range ty z)) }
{
    let exact = Number::of_word(a, ty).times(Number::of_word(b, ty));
    (lowest(a.wrapping_mul(b), ty.bits()), overflows(exact, ty))
}

/// The word of the negative of a word of the type, and whether the exact negative is outside the
/// type's range.
pub fn neg_overflow(a: u128, ty: IntType) -> (u128, bool)
    requires { a < 2 ^ ty.width }
    ensures { let z = neg_ℤ (value_of ty a) in result ≡ (word_of ty z, not (in_range ty z)) }
{
    let exact = Number::of_word(a, ty).negated();
    (exact.word(ty).bits(), !exact.is_in_range(ty))
}

/// Whether an exact result is outside the range of the type, where nothing stands for a result of
/// 2 to the 128th or more in size.
fn overflows(exact: Option<Number>, ty: IntType) -> bool
    ensures value { MatchOption exact (IsTrue result) (λ z. result ≡ not (in_range ty z)) }
    ensures known { ty.width ≤ 128 }
{
    match exact {
        Some(z) => !z.is_in_range(ty),
        None => true,
    }
}
