ghost use Rattle.std.specs.Prelude.{◌≡◌, ◌≢◌, ◌&&◌, MatchOption, ◌<◌, ◌≤◌, ◌^◌, not, ◌↔◌, IsTrue, pos, neg_ℤ, ◌+ℤ◌, ◌-ℤ◌, ◌*ℤ◌};
ghost use Rattle.std.specs.Int.{int_div_euclid};
ghost use Rattle.std.specs.Int.RustNames.{int_lt, int_le, int_div, int_rem, unsigned_abs};
ghost use Rattle.std.specs.Option.{SomeIff};
ghost use Rattle.pm_wide.specs.Types.{Ty, value_of, word, in_range};

use crate::ty::IntType;
use crate::wide::{Wide, fits, power_of_two};
use std::marker::Model;

/// A whole number as its sign and its size: the value of a word, or an exact result of less than
/// 2 to the 128th in size. Contracts see the whole number.
#[derive(Drop)]
pub struct Number {
    negative: bool,
    magnitude: u128,
}

impl Model for Number {
    ghost use Rattle.std.specs.Prelude.{if◌then◌else◌, ℤ, pos, neg_ℤ};

    ghost Value = { ℤ };

    ghost view = { λ z. if z.negative then neg_ℤ (pos z.magnitude) else pos z.magnitude };
}

impl Number {
    /// The value of a word.
    pub fn of_word(bits: u128, ty: IntType) -> Number
        requires { bits < 2 ^ ty.width }
        ensures { result ≡ value_of ty bits }
    {
        let half = power_of_two(ty.bits() - 1);
        if ty.unsigned() || bits < half {
            Number {
                negative: false,
                magnitude: bits,
            }
        } else {
            Number {
                negative: true,
                magnitude: half - (bits - half),
            }
        }
    }

    /// The same number with the other sign.
    pub fn negated(self) -> Number
        ensures { result ≡ neg_ℤ self }
    {
        Number {
            negative: !self.negative,
            magnitude: self.magnitude,
        }
    }

    /// Its size.
    pub fn absolute(self) -> Number
        ensures { result ≡ pos (unsigned_abs self) }
    {
        Number {
            negative: false,
            magnitude: self.magnitude,
        }
    }

    /// The sum, or nothing where it is 2 to the 128th or more in size.
    pub fn plus(self, other: Number) -> Option<Number>
        ensures { SomeIff result (unsigned_abs (self +ℤ other) < 2 ^ 128) (self +ℤ other) }
    {
        if self.negative == other.negative {
            let magnitude = self.magnitude.checked_add(other.magnitude)?;
            Some(Number {
                negative: self.negative,
                magnitude,
            })
        } else if self.magnitude < other.magnitude {
            Some(Number {
                negative: other.negative,
                magnitude: other.magnitude - self.magnitude,
            })
        } else {
            Some(Number {
                negative: self.negative,
                magnitude: self.magnitude - other.magnitude,
            })
        }
    }

    /// The product, or nothing where it is 2 to the 128th or more in size.
    pub fn times(self, other: Number) -> Option<Number>
        ensures { SomeIff result (unsigned_abs (self *ℤ other) < 2 ^ 128) (self *ℤ other) }
    {
        let magnitude = self.magnitude.checked_mul(other.magnitude)?;
        Some(Number {
            negative: self.negative != other.negative,
            magnitude,
        })
    }

    /// The quotient, rounded toward zero.
    pub fn quotient(self, divisor: &Number) -> Number
        requires { divisor.now ≢ pos 0 }
        ensures { result ≡ int_div self divisor.now }
    {
        Number {
            negative: self.negative != divisor.negative,
            magnitude: self.magnitude / divisor.magnitude,
        }
    }

    /// What the quotient toward zero leaves: it has the sign of the dividend.
    pub fn remainder(self, divisor: &Number) -> Number
        requires { divisor.now ≢ pos 0 }
        ensures { result ≡ int_rem self divisor.now }
    {
        Number {
            negative: self.negative,
            magnitude: self.magnitude % divisor.magnitude,
        }
    }

    /// Divided by 2 to the number of places, and rounded down.
    pub fn shifted_down(self, places: u8) -> Number
        requires { places < 128 }
        ensures { result ≡ int_div_euclid self (pos (2 ^ places)) }
    {
        if self.negative && self.magnitude > 0 {
            Number {
                negative: true,
                magnitude: ((self.magnitude - 1) >> places) + 1,
            }
        } else {
            Number {
                negative: false,
                magnitude: self.magnitude >> places,
            }
        }
    }

    /// The number, where it is from 0 to below a bound.
    pub fn below(&self, bound: u8) -> Option<u8>
        ensures { MatchOption result
            (¬ IsTrue (int_le (pos 0) self.now && int_lt self.now (pos bound)))
            (λ n. IsTrue (int_le (pos 0) self.now && int_lt self.now (pos bound)) × (n ≡ unsigned_abs self.now) × (n < bound)) }
    {
        if (!self.negative || self.magnitude == 0) && self.magnitude < bound as u128 {
            Some(self.magnitude as u8)
        } else {
            None
        }
    }

    /// Whether it is 0.
    pub fn is_zero(&self) -> bool
        ensures { IsTrue result ↔ (self.now ≡ pos 0) }
    {
        self.magnitude == 0
    }

    /// Whether it is below another number.
    pub fn is_below(&self, other: &Number) -> bool
        ensures { result ≡ int_lt self.now other.now }
    {
        if self.negative {
            if other.negative {
                other.magnitude < self.magnitude
            } else {
                0 < self.magnitude || 0 < other.magnitude
            }
        } else {
            !other.negative && self.magnitude < other.magnitude
        }
    }

    /// Whether it is a value of the type.
    pub fn is_in_range(&self, ty: IntType) -> bool
        ensures { result ≡ in_range ty self.now }
    {
        let half = power_of_two(ty.bits() - 1);
        if ty.unsigned() {
            (!self.negative || self.magnitude == 0) && fits(self.magnitude, ty.bits())
        } else if self.negative {
            self.magnitude <= half
        } else {
            self.magnitude < half
        }
    }

    /// Its word in the type: the number modulo 2 to the width.
    pub fn word(&self, ty: IntType) -> Wide
        ensures { result ≡ word ty self.now }
    {
        let bits = if self.negative {
            0u128.wrapping_sub(self.magnitude)
        } else {
            self.magnitude
        };
        Wide::reduce(bits, ty)
    }
}
