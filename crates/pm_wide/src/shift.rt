//! Shifts of words.
ghost use Rattle.std.specs.Prelude.{◌≡◌, ◌^◌, ◌<◌, ◌≤◌, pos, ◌*ℤ◌, if◌then◌else◌, IsTrue, None, MatchOption};
ghost use Rattle.std.specs.Int.{int_div_euclid};
ghost use Rattle.std.specs.Int.RustNames.{unsigned_abs};
ghost use Rattle.std.specs.Option.{ok_or};
ghost use Rattle.pm_wide.specs.Types.{value, word};
ghost use Rattle.pm_wide.specs.Operations.{shifts, reduced};

use crate::ty::IntType;
use crate::undefined::Undefined;
use crate::wide::Wide;

/// A word times 2 to the count, without the bits that leave the type.
pub fn up(ty: IntType, a: Wide, count: Wide) -> Result<Wide, Undefined>
    requires { a.ty ≡ ty }
    ensures { result ≡ ok_or (if shifts ty (value count) then reduced ty (value a *ℤ pos (2 ^ unsigned_abs (value count))) else None) (record {}) }
{
    match places(ty, count) {
        Some(places) => Ok(shifted_up(ty, a, places)),
        None => Err(Undefined),
    }
}

/// A word divided by 2 to the count and rounded down, which extends the sign of a signed type.
pub fn down(ty: IntType, a: Wide, count: Wide) -> Result<Wide, Undefined>
    ensures { result ≡ ok_or (if shifts ty (value count) then reduced ty (int_div_euclid (value a) (pos (2 ^ unsigned_abs (value count)))) else None) (record {}) }
{
    match places(ty, count) {
        Some(places) => Ok(a.value().shifted_down(places).word(ty)),
        None => Err(Undefined),
    }
}

/// A word times 2 to the number of places, without the bits that leave the type.
#[tactic(auto, using(crate::proofs::Wrapping::shifted_up))]
fn shifted_up(ty: IntType, a: Wide, places: u8) -> Wide
    requires of_type { a.ty ≡ ty }
    requires width { ty.width ≤ 128 }
    requires places { places < 128 }
    ensures { result ≡ word ty (value a *ℤ pos (2 ^ places)) }
{
    Wide::reduce(a.bits() << places, ty)
}

/// The count, where it is from 0 to below the width of the type.
fn places(ty: IntType, count: Wide) -> Option<u8>
    ensures cases { MatchOption result
        (¬ IsTrue (shifts ty (value count)))
        (λ n. IsTrue (shifts ty (value count)) × (n ≡ unsigned_abs (value count))) }
    ensures bound { MatchOption result (Unit {0}) (λ n. n < ty.width) }
    ensures known { ty.width ≤ 128 }
{
    count.value().below(ty.bits())
}
