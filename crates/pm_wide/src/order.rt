//! Comparisons of words by value, and the lesser and the greater of two.
ghost use Rattle.std.specs.Prelude.{◌≡◌, not, ◌&&◌, Some};
ghost use Rattle.std.specs.Int.{int_min, int_max};
ghost use Rattle.std.specs.Int.RustNames.{int_lt, int_le};
ghost use Rattle.pm_wide.specs.Types.{value};
ghost use Rattle.pm_wide.specs.Operations.{int_same, reduced, truth as truth_of};

use crate::ty::IntType;
use crate::wide::Wide;

/// The lesser of two words.
pub fn lesser(ty: IntType, a: Wide, b: Wide) -> Wide
    ensures { Some result ≡ reduced ty (int_min (value a) (value b)) }
{
    if is_below(b, a) {
        b.value().word(ty)
    } else {
        a.value().word(ty)
    }
}

/// The greater of two words.
pub fn greater(ty: IntType, a: Wide, b: Wide) -> Wide
    ensures { Some result ≡ reduced ty (int_max (value a) (value b)) }
{
    if is_below(b, a) {
        a.value().word(ty)
    } else {
        b.value().word(ty)
    }
}

/// Whether a word is below another.
pub fn is_below(a: Wide, b: Wide) -> bool
    ensures { result ≡ int_lt (value a) (value b) }
{
    a.value().is_below(&b.value())
}

/// Whether a word is at most another.
#[tactic(auto, using(crate::proofs::Whole::at_most))]
pub fn is_at_most(a: Wide, b: Wide) -> bool
    ensures { result ≡ int_le (value a) (value b) }
{
    !is_below(b, a)
}

/// Whether two words stand for one number.
pub fn is_same(a: Wide, b: Wide) -> bool
    ensures { result ≡ int_same (value a) (value b) }
{
    is_at_most(a, b) && is_at_most(b, a)
}

/// The `_Bool` of a test.
pub fn truth(test: bool) -> Wide
    ensures { Some result ≡ truth_of test }
{
    Wide::reduce(u128::from(test), IntType::boolean())
}
