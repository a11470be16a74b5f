//! Quotients toward zero, and what they leave.
ghost use Rattle.std.specs.Prelude.{◌≡◌, if◌then◌else◌, IsTrue, MatchResult, None};
ghost use Rattle.std.specs.Int.RustNames.{int_div, int_rem};
ghost use Rattle.std.specs.Option.{ok_or};
ghost use Rattle.pm_wide.specs.Types.{value};
ghost use Rattle.pm_wide.specs.Operations.{divides, reduced};

use crate::number::Number;
use crate::ty::IntType;
use crate::undefined::Undefined;
use crate::wide::Wide;

/// The quotient of two words, rounded toward zero.
pub fn quotient(ty: IntType, a: Wide, b: Wide) -> Result<Wide, Undefined>
    ensures { result ≡ ok_or (if divides ty (value a) (value b) then reduced ty (int_div (value a) (value b)) else None) (record {}) }
{
    let quotient = in_range_quotient(ty, a, b)?;
    Ok(quotient.word(ty))
}

/// What is left of that quotient; it is undefined where the quotient is.
pub fn remainder(ty: IntType, a: Wide, b: Wide) -> Result<Wide, Undefined>
    ensures { result ≡ ok_or (if divides ty (value a) (value b) then reduced ty (int_rem (value a) (value b)) else None) (record {}) }
{
    let _quotient = in_range_quotient(ty, a, b)?;
    Ok(a.value().remainder(&b.value()).word(ty))
}

/// The quotient, unless the divisor is 0 or the quotient is no value of the type.
fn in_range_quotient(ty: IntType, a: Wide, b: Wide) -> Result<Number, Undefined>
    ensures { MatchResult result
        (λ z. IsTrue (divides ty (value a) (value b)) × (z ≡ int_div (value a) (value b)))
        (λ _. ¬ IsTrue (divides ty (value a) (value b))) }
{
    let divisor = b.value();
    if divisor.is_zero() {
        return Err(Undefined);
    }
    let quotient = a.value().quotient(&divisor);
    if quotient.is_in_range(ty) {
        Ok(quotient)
    } else {
        Err(Undefined)
    }
}
