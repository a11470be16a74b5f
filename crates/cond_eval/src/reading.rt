//! Words of any precision read as whole numbers: their order, and whether exact results leave their
//! range.
ghost use Rattle.std.specs.Prelude.{◌≡◌, ◌<◌, ◌≤◌, ◌^◌, ℤ, pos, neg_ℤ, ◌+ℤ◌, ◌-ℤ◌, ◌*ℤ◌};
ghost use Rattle.std.specs.Int.RustNames.{int_lt, int_le};
ghost use Rattle.pm_wide.specs.Types.{least};
ghost use Rattle.cond_eval.specs.Readings.{numbers_of, read_as, exactly_as};
ghost use Rattle.cond_eval.specs.Words.{numbers, read, exactly};

use crate::words::{lowest, power_of_two};
use pm_wide::{IntType, add_overflow, mul_overflow, neg_overflow, sub_overflow};

/// How words are read: their precision, and whether without a sign.
#[derive(Clone, Copy)]
pub struct Reading {
    pub precision: u8,
    pub unsigned: bool,
}

/// The type of 128 bits.
fn widest(unsigned: bool) -> IntType
    ensures { result ≡ numbers unsigned 128 }
{
    if unsigned {
        IntType::unsigned_int128()
    } else {
        IntType::int128()
    }
}

/// The word of 128 bits that stands for the same whole number.
#[tactic(auto, using(crate::proofs::ReadingLemmas::kept, crate::proofs::ReadingLemmas::filled))]
pub fn extended(reading: Reading, a: u128) -> u128
    requires some { 0 < reading.precision }
    requires precision { reading.precision ≤ 128 }
    requires word { a < 2 ^ reading.precision }
    ensures { read reading.unsigned 128 result ≡ read_as reading a }
{
    if reading.unsigned || a < power_of_two(reading.precision - 1) {
        a
    } else {
        a + (u128::MAX - lowest(reading.precision, u128::MAX))
    }
}

/// How far a word stands above the least number.
#[tactic(auto, using(crate::proofs::ReadingLemmas::low, crate::proofs::ReadingLemmas::high, crate::proofs::ReadingLemmas::halves))]
fn rank(reading: Reading, a: u128) -> u128
    requires some { 0 < reading.precision }
    requires precision { reading.precision ≤ 128 }
    requires word { a < 2 ^ reading.precision }
    ensures { pos result ≡ read_as reading a -ℤ least (numbers_of reading) }
{
    let half = power_of_two(reading.precision - 1);
    if reading.unsigned {
        a
    } else if a < half {
        a + half
    } else {
        a - half
    }
}

/// Whether a word stands for less than another.
pub fn is_below(reading: Reading, a: u128, b: u128) -> bool
    requires some { 0 < reading.precision }
    requires precision { reading.precision ≤ 128 }
    requires a_is_word { a < 2 ^ reading.precision }
    requires b_is_word { b < 2 ^ reading.precision }
    ensures { result ≡ int_lt (read_as reading a) (read_as reading b) }
{
    rank(reading, a) < rank(reading, b)
}

/// Whether a word stands for at most what another does.
#[tactic(auto, using(pm_wide::proofs::Whole::at_most))]
pub fn is_at_most(reading: Reading, a: u128, b: u128) -> bool
    requires some { 0 < reading.precision }
    requires precision { reading.precision ≤ 128 }
    requires a_is_word { a < 2 ^ reading.precision }
    requires b_is_word { b < 2 ^ reading.precision }
    ensures { result ≡ int_le (read_as reading a) (read_as reading b) }
{
    !is_below(reading, b, a)
}

/// The word of an exact result, and whether that is outside the range, from the same at 128 bits.
fn settled(reading: Reading, exact: (u128, bool)) -> (u128, bool)
    requires some { 0 < reading.precision }
    requires precision { reading.precision ≤ 128 }
    ensures value { (z : ℤ) →
        exact ≡ exactly reading.unsigned 128 z → result ≡ exactly_as reading z }
    ensures word { result.0 < 2 ^ reading.precision }
{
    let (wide, outside) = exact;
    let word = lowest(reading.precision, wide);
    (word, outside || extended(reading, word) != wide)
}

/// The word of the sum of two words, and whether the exact sum is outside the range.
pub fn exact_sum(reading: Reading, a: u128, b: u128) -> (u128, bool)
    requires some { 0 < reading.precision }
    requires precision { reading.precision ≤ 128 }
    requires a_is_word { a < 2 ^ reading.precision }
    requires b_is_word { b < 2 ^ reading.precision }
    ensures value { result ≡ exactly_as reading (read_as reading a +ℤ read_as reading b) }
    ensures word { result.0 < 2 ^ reading.precision }
{
    let a = extended(reading, a);
    let b = extended(reading, b);
    settled(reading, add_overflow(a, b, widest(reading.unsigned)))
}

/// The word of the difference of two words, and whether the exact difference is outside the range.
pub fn exact_difference(reading: Reading, a: u128, b: u128) -> (u128, bool)
    requires some { 0 < reading.precision }
    requires precision { reading.precision ≤ 128 }
    requires a_is_word { a < 2 ^ reading.precision }
    requires b_is_word { b < 2 ^ reading.precision }
    ensures value { result ≡ exactly_as reading (read_as reading a -ℤ read_as reading b) }
    ensures word { result.0 < 2 ^ reading.precision }
{
    let a = extended(reading, a);
    let b = extended(reading, b);
    settled(reading, sub_overflow(a, b, widest(reading.unsigned)))
}

/// The word of the product of two words, and whether the exact product is outside the range.
pub fn exact_product(reading: Reading, a: u128, b: u128) -> (u128, bool)
    requires some { 0 < reading.precision }
    requires precision { reading.precision ≤ 128 }
    requires a_is_word { a < 2 ^ reading.precision }
    requires b_is_word { b < 2 ^ reading.precision }
    ensures value { result ≡ exactly_as reading (read_as reading a *ℤ read_as reading b) }
    ensures word { result.0 < 2 ^ reading.precision }
{
    let a = extended(reading, a);
    let b = extended(reading, b);
    settled(reading, mul_overflow(a, b, widest(reading.unsigned)))
}

/// The word of the negative of a word, and whether the exact negative is outside the range.
pub fn exact_negative(reading: Reading, a: u128) -> (u128, bool)
    requires some { 0 < reading.precision }
    requires precision { reading.precision ≤ 128 }
    requires word { a < 2 ^ reading.precision }
    ensures value { result ≡ exactly_as reading (neg_ℤ (read_as reading a)) }
    ensures word { result.0 < 2 ^ reading.precision }
{
    let a = extended(reading, a);
    settled(reading, neg_overflow(a, widest(reading.unsigned)))
}
