//! Operations on the bits of words.
ghost use Rattle.std.specs.Prelude.{◌≡◌, ◌-◌, ◌^◌, bit_and, bit_or, bit_xor};

use crate::ty::IntType;
use crate::wide::Wide;

/// The bits that are set in both words of the type.
#[tactic(auto, using(crate::proofs::Wrapping::and_word))]
pub fn and(ty: IntType, a: Wide, b: Wide) -> Wide
    requires a_of_type { a.ty ≡ ty }
    requires b_of_type { b.ty ≡ ty }
    ensures { result ≡ record { bits = bit_and a.bits b.bits; ty = ty } }
{
    Wide::reduce(a.bits() & b.bits(), ty)
}

/// The bits that are set in one of the two words of the type at least.
#[tactic(auto, using(crate::proofs::Wrapping::or_word))]
pub fn or(ty: IntType, a: Wide, b: Wide) -> Wide
    requires a_of_type { a.ty ≡ ty }
    requires b_of_type { b.ty ≡ ty }
    ensures { result ≡ record { bits = bit_or a.bits b.bits; ty = ty } }
{
    Wide::reduce(a.bits() | b.bits(), ty)
}

/// The bits that are set in one of the two words of the type and not in the other.
#[tactic(auto, using(crate::proofs::Wrapping::xor_word))]
pub fn xor(ty: IntType, a: Wide, b: Wide) -> Wide
    requires a_of_type { a.ty ≡ ty }
    requires b_of_type { b.ty ≡ ty }
    ensures { result ≡ record { bits = bit_xor a.bits b.bits; ty = ty } }
{
    Wide::reduce(a.bits() ^ b.bits(), ty)
}

/// The bits that are not set in a word of the type.
#[tactic(auto, using(crate::proofs::Wrapping::not_word))]
pub fn complement(ty: IntType, a: Wide) -> Wide
    requires { a.ty ≡ ty }
    ensures { result ≡ record { bits = 2 ^ ty.width - 1 - a.bits; ty = ty } }
{
    Wide::reduce(!a.bits(), ty)
}
