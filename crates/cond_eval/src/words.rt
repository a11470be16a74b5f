//! Words of any precision up to 128: sums, products, bits, shifts and counts.
ghost use Rattle.std.specs.Prelude.{◌≡◌, ◌<◌, ◌≤◌, ◌-◌, ◌%◌, ◌/◌, ◌^◌, false, pos, neg_ℤ, ◌+ℤ◌, ◌-ℤ◌, ◌*ℤ◌, bit_and, bit_or, bit_xor};
ghost use Rattle.std.specs.Int.{int_div_euclid};
ghost use Rattle.pm_wide.specs.Residues.{residue};
ghost use Rattle.cond_eval.specs.Words.{read, clz_of, ctz_of};

/// A number modulo 2 to the precision.
#[tactic(auto, using(std::proofs::lemmas::Nat::and_mask))]
pub fn lowest(precision: u8, bits: u128) -> u128
    requires { precision ≤ 128 }
    ensures value { result ≡ bits % 2 ^ precision }
    ensures word { result < 2 ^ precision }
{
    if precision >= 128 {
        bits
    } else {
        bits & (power_of_two(precision) - 1)
    }
}

/// 2 to the exponent.
pub fn power_of_two(exponent: u8) -> u128
    requires { exponent < 128 }
    ensures { result ≡ 2 ^ exponent }
{
    1 << exponent
}

/// A whole number modulo 2 to the 128th.
#[tactic(auto, using(crate::proofs::WordLemmas::below_zero, crate::proofs::WordLemmas::from_zero))]
pub fn whole(number: i64) -> u128
    ensures { result ≡ residue 128 number }
{
    let size = u128::from(number.unsigned_abs());
    if number < 0 {
        0u128.wrapping_sub(size)
    } else {
        size
    }
}

/// A whole number modulo 2 to the precision.
#[tactic(auto, using(crate::proofs::WordLemmas::lower))]
pub fn reduced(precision: u8, number: i64) -> u128
    requires { precision ≤ 128 }
    ensures value { result ≡ residue precision number }
    ensures word { result < 2 ^ precision }
{
    lowest(precision, whole(number))
}

/// The sum of two words.
#[tactic(auto, using(pm_wide::proofs::Residues::added))]
pub fn sum(precision: u8, a: u128, b: u128) -> u128
    requires { precision ≤ 128 }
    ensures value { result ≡ residue precision (pos a +ℤ pos b) }
    ensures word { result < 2 ^ precision }
{
    lowest(precision, a.wrapping_add(b))
}

/// The difference of two words.
#[tactic(auto, using(pm_wide::proofs::Residues::subtracted))]
pub fn difference(precision: u8, a: u128, b: u128) -> u128
    requires { precision ≤ 128 }
    ensures value { result ≡ residue precision (pos a -ℤ pos b) }
    ensures word { result < 2 ^ precision }
{
    lowest(precision, a.wrapping_sub(b))
}

/// The product of two words.
#[tactic(auto, using(pm_wide::proofs::Residues::multiplied))]
pub fn product(precision: u8, a: u128, b: u128) -> u128
    requires { precision ≤ 128 }
    ensures value { result ≡ residue precision (pos a *ℤ pos b) }
    ensures word { result < 2 ^ precision }
{
    lowest(precision, a.wrapping_mul(b))
}

/// The negative of a word.
#[tactic(auto, using(crate::proofs::WordLemmas::negated))]
pub fn negative(precision: u8, a: u128) -> u128
    requires { precision ≤ 128 }
    ensures value { result ≡ residue precision (neg_ℤ (pos a)) }
    ensures word { result < 2 ^ precision }
{
    lowest(precision, 0u128.wrapping_sub(a))
}

/// The bits that aren't set in a word.
#[tactic(auto, using(pm_wide::proofs::Wrapping::not_word))]
pub fn complement(precision: u8, a: u128) -> u128
    requires precision { precision ≤ 128 }
    requires word { a < 2 ^ precision }
    ensures value { result ≡ 2 ^ precision - 1 - a }
    ensures word { result < 2 ^ precision }
{
    lowest(precision, !a)
}

/// The bits that are set in both words.
#[tactic(auto, using(std::proofs::lemmas::Nat::and_le_l))]
pub fn both(precision: u8, a: u128, b: u128) -> u128
    requires { a < 2 ^ precision }
    ensures value { result ≡ bit_and a b }
    ensures word { result < 2 ^ precision }
{
    a & b
}

/// The bits that are set in one of two words at least.
#[tactic(auto, using(std::proofs::lemmas::Nat::or_lt))]
pub fn either(precision: u8, a: u128, b: u128) -> u128
    requires a { a < 2 ^ precision }
    requires b { b < 2 ^ precision }
    ensures value { result ≡ bit_or a b }
    ensures word { result < 2 ^ precision }
{
    a | b
}

/// The bits that are set in one of two words alone.
#[tactic(auto, using(std::proofs::lemmas::Nat::xor_lt))]
pub fn one_alone(precision: u8, a: u128, b: u128) -> u128
    requires a { a < 2 ^ precision }
    requires b { b < 2 ^ precision }
    ensures value { result ≡ bit_xor a b }
    ensures word { result < 2 ^ precision }
{
    a ^ b
}

/// A word shifted up.
#[tactic(auto, using(crate::proofs::WordLemmas::shifted_up))]
pub fn shifted_up(precision: u8, a: u128, places: u8) -> u128
    requires precision { precision ≤ 128 }
    requires places { places < precision }
    ensures value { result ≡ residue precision (pos a *ℤ pos (2 ^ places)) }
    ensures word { result < 2 ^ precision }
{
    lowest(precision, a << places)
}

/// A word shifted down, with zeros from above.
pub fn shifted_down(precision: u8, a: u128, places: u8) -> u128
    requires precision { precision ≤ 128 }
    requires word { a < 2 ^ precision }
    requires places { places < precision }
    ensures value { result ≡ a / 2 ^ places }
    ensures word { result < 2 ^ precision }
{
    a >> places
}

/// A word shifted down, with its sign from above.
#[tactic(auto)]
pub fn shifted_signed(precision: u8, a: u128, places: u8) -> u128
    requires precision { precision ≤ 128 }
    requires places { places < precision }
    requires word { a < 2 ^ precision }
    ensures value { result ≡
        residue precision (int_div_euclid (read false precision a) (pos (2 ^ places))) }
    ensures word { result < 2 ^ precision }
{
    if a < power_of_two(precision - 1) {
        a >> places
    } else {
        let below = complement(precision, a) >> places;
        complement(precision, below)
    }
}

/// How many zeros stand above the highest bit that is set, the precision for 0.
#[tactic(auto, using(crate::proofs::CountLemmas::zeros_above))]
pub fn zeros_above(precision: u8, a: u128) -> u32
    requires precision { precision ≤ 128 }
    requires word { a < 2 ^ precision }
    ensures { result ≡ clz_of precision a }
{
    a.leading_zeros() - (128 - u32::from(precision))
}

/// How many zeros stand below the lowest bit that is set, the precision for 0.
#[tactic(auto, using(crate::proofs::CountLemmas::zeros_below, crate::proofs::CountLemmas::zeros_below_none))]
pub fn zeros_below(precision: u8, a: u128) -> u32
    requires precision { precision ≤ 128 }
    requires word { a < 2 ^ precision }
    ensures { result ≡ ctz_of precision a }
{
    if a == 0 {
        u32::from(precision)
    } else {
        a.trailing_zeros()
    }
}
