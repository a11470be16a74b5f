ghost use Rattle.std.specs.Prelude.{◌≡◌, IsTrue};
ghost use Rattle.std.specs.Option.{SomeIff};
ghost use Rattle.pm_wide.specs.Types.{Ty, is_type, bool_type, signed_char_type, unsigned_char_type, short_type, unsigned_short_type, int_type, unsigned_int_type, long_type, unsigned_long_type, int128_type, unsigned_int128_type};

use std::marker::Model;

/// One of the eleven integer types: `_Bool`, and 8, 16, 32, 64 or 128 bits with or without a sign.
///
/// Contracts see a `Ty`: its width in bits, and whether it is unsigned.
#[derive(Clone, Copy, Debug, PartialEq, Eq)]
pub struct IntType {
    bits: u8,
    unsigned: bool,
}

impl Model for IntType {
    ghost use Rattle.std.specs.Prelude.{IsTrue};
    ghost use Rattle.pm_wide.specs.Types.{Ty, is_type};

    ghost Value = { Ty };

    ghost view = { λ t. record { width = t.bits; unsigned = t.unsigned } };

    ghost invariant = { λ t. IsTrue (is_type t.bits t.unsigned) };

    ghost inverse = { λ t. record { bits = t.width; unsigned = t.unsigned } };
}

impl IntType {
    /// The type of that width and sign, or nothing where there is none.
    pub fn new(bits: u8, unsigned: bool) -> Option<IntType>
        ensures { SomeIff result (IsTrue (is_type bits unsigned)) (record { width = bits; unsigned = unsigned }) }
    {
        let is_type = match bits {
            1 => unsigned,
            8 | 16 | 32 | 64 | 128 => true,
            _ => false,
        };
        if is_type {
            Some(IntType { bits, unsigned })
        } else {
            None
        }
    }

    /// The width in bits.
    pub fn bits(self) -> u8
        ensures value { result ≡ self.width }
        ensures known { IsTrue (is_type self.width self.unsigned) }
    {
        self.bits
    }

    /// Whether it has no sign.
    pub fn unsigned(self) -> bool
        ensures value { result ≡ self.unsigned }
        ensures known { IsTrue (is_type self.width self.unsigned) }
    {
        self.unsigned
    }

    /// `_Bool`.
    pub fn boolean() -> IntType
        ensures { result ≡ bool_type }
    {
        IntType {
            bits: 1,
            unsigned: true,
        }
    }

    /// `signed char`.
    pub fn signed_char() -> IntType
        ensures { result ≡ signed_char_type }
    {
        IntType {
            bits: 8,
            unsigned: false,
        }
    }

    /// `unsigned char`.
    pub fn unsigned_char() -> IntType
        ensures { result ≡ unsigned_char_type }
    {
        IntType {
            bits: 8,
            unsigned: true,
        }
    }

    /// `short`.
    pub fn short() -> IntType
        ensures { result ≡ short_type }
    {
        IntType {
            bits: 16,
            unsigned: false,
        }
    }

    /// `unsigned short`.
    pub fn unsigned_short() -> IntType
        ensures { result ≡ unsigned_short_type }
    {
        IntType {
            bits: 16,
            unsigned: true,
        }
    }

    /// `int`.
    pub fn int() -> IntType
        ensures { result ≡ int_type }
    {
        IntType {
            bits: 32,
            unsigned: false,
        }
    }

    /// `unsigned int`.
    pub fn unsigned_int() -> IntType
        ensures { result ≡ unsigned_int_type }
    {
        IntType {
            bits: 32,
            unsigned: true,
        }
    }

    /// `long`.
    pub fn long() -> IntType
        ensures { result ≡ long_type }
    {
        IntType {
            bits: 64,
            unsigned: false,
        }
    }

    /// `unsigned long`.
    pub fn unsigned_long() -> IntType
        ensures { result ≡ unsigned_long_type }
    {
        IntType {
            bits: 64,
            unsigned: true,
        }
    }

    /// `__int128`.
    pub fn int128() -> IntType
        ensures { result ≡ int128_type }
    {
        IntType {
            bits: 128,
            unsigned: false,
        }
    }

    /// `unsigned __int128`.
    pub fn unsigned_int128() -> IntType
        ensures { result ≡ unsigned_int128_type }
    {
        IntType {
            bits: 128,
            unsigned: true,
        }
    }
}

/// `_Bool`, for containers that fill free places.
impl Default for IntType {
    ghost is_default = { λ x. x ≡ bool_type };

    fn default() -> IntType {
        IntType::boolean()
    }
}
