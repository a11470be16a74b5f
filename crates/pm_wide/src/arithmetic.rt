//! Sums, differences, products, negatives and sizes.
ghost use Rattle.std.specs.Prelude.{◌≡◌, ◌%◌, ◌^◌, ◌&&◌, not, if◌then◌else◌, pos, neg_ℤ, ◌+ℤ◌, ◌-ℤ◌, ◌*ℤ◌};
ghost use Rattle.std.specs.Int.RustNames.{unsigned_abs};
ghost use Rattle.std.specs.Option.{ok_or};
ghost use Rattle.pm_wide.specs.Types.{value, word};
ghost use Rattle.pm_wide.specs.Operations.{exact};

use crate::number::Number;
use crate::overflow::{add_overflow, mul_overflow, sub_overflow};
use crate::ty::IntType;
use crate::undefined::Undefined;
use crate::wide::Wide;

/// The sum of two words of the type.
pub fn sum(ty: IntType, a: Wide, b: Wide) -> Result<Wide, Undefined>
    requires a_of_type { a.ty ≡ ty }
    requires b_of_type { b.ty ≡ ty }
    ensures { result ≡ ok_or (exact ty (value a +ℤ value b)) (record {}) }
{
    settled(ty, add_overflow(a.bits(), b.bits(), ty))
}

/// The difference of two words of the type.
pub fn difference(ty: IntType, a: Wide, b: Wide) -> Result<Wide, Undefined>
    requires a_of_type { a.ty ≡ ty }
    requires b_of_type { b.ty ≡ ty }
    ensures { result ≡ ok_or (exact ty (value a -ℤ value b)) (record {}) }
{
    settled(ty, sub_overflow(a.bits(), b.bits(), ty))
}

/// The product of two words of the type.
pub fn product(ty: IntType, a: Wide, b: Wide) -> Result<Wide, Undefined>
    requires a_of_type { a.ty ≡ ty }
    requires b_of_type { b.ty ≡ ty }
    ensures { result ≡ ok_or (exact ty (value a *ℤ value b)) (record {}) }
{
    settled(ty, mul_overflow(a.bits(), b.bits(), ty))
}

/// The negative of a word.
pub fn negative(ty: IntType, a: Wide) -> Result<Wide, Undefined>
    ensures { result ≡ ok_or (exact ty (neg_ℤ (value a))) (record {}) }
{
    exactly(ty, &a.value().negated())
}

/// The size of a word.
pub fn size(ty: IntType, a: Wide) -> Result<Wide, Undefined>
    ensures { result ≡ ok_or (exact ty (pos (unsigned_abs (value a)))) (record {}) }
{
    exactly(ty, &a.value().absolute())
}

/// The word of an exact result, which is undefined out of the range of a signed type.
fn exactly(ty: IntType, z: &Number) -> Result<Wide, Undefined>
    ensures { result ≡ ok_or (exact ty z.now) (record {}) }
{
    if ty.unsigned() || z.is_in_range(ty) {
        Ok(z.word(ty))
    } else {
        Err(Undefined)
    }
}

/// The same of a word and whether the exact result is out of range.
fn settled(ty: IntType, reduced: (u128, bool)) -> Result<Wide, Undefined>
    ensures { result ≡ (if not ty.unsigned && reduced.1 then Err (record {}) else Ok (record { bits = reduced.0 % 2 ^ ty.width; ty = ty })) }
{
    let (bits, out_of_range) = reduced;
    if out_of_range && !ty.unsigned() {
        Err(Undefined)
    } else {
        Ok(Wide::reduce(bits, ty))
    }
}
