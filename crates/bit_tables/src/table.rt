//! The table: words that have bits at one place at most, for every place.
ghost use Rattle.std.specs.Prelude.{◌≡◌, ◌≤◌, ◌<◌, ◌↔◌, ◌++◌, ℕ, [], length, IsTrue, MatchOption, Some, None, true, false};
ghost use Rattle.std.specs.Bool.{MatchBool};
ghost use Rattle.pm_term.specs.TermTrees.{tree_of};
ghost use Rattle.pm_term.specs.Trees.{names_in};
ghost use Rattle.bit_tables.specs.Spots.{AgreeAt, AgreeAtPlace, DifferAtPlace, with_names};
ghost use Rattle.bit_tables.specs.TableClass.{AreInClass};
ghost use Rattle.bit_tables.specs.TableEqual.{AreTableEqual, AreTableDifferent};

use crate::class::is_built;
use crate::names::{Names, names_of};
use crate::words::{Spot, word_at};
use pm_term::{Term, Typed};
use pm_wide::IntType;

/// Whether two sums of bitwise terms agree under all words of their names, or nothing where they
/// aren't both such sums of one type with at most six names. Takes no memory.
pub fn table_equal(left: &Typed, right: &Typed) -> Option<bool>
    ensures equal { (result ≡ Some true) ↔ AreTableEqual left.now right.now }
    ensures different { (result ≡ Some false) ↔ AreTableDifferent left.now right.now }
    ensures outside { (result ≡ None) ↔ (¬ AreInClass left.now right.now) }
{
    let names = class_names(left, right)?;
    Some(agree(left.term(), right.term(), left.ty(), names.as_slice()))
}

/// The names of two terms of the class, or nothing where they are outside.
fn class_names(left: &Typed, right: &Typed) -> Option<Names>
    ensures { MatchOption result
        (¬ AreInClass left.now right.now)
        (λ names. AreInClass left.now right.now × (names.items ≡ with_names [] (names_in left.now ++ names_in right.now))) }
{
    let ty = left.ty();
    let width = ty.bits();
    if is_one_type(ty, right.ty())
        && is_built(left.term(), width)
        && is_built(right.term(), width)
    {
        names_of(left.term(), right.term())
    } else {
        None
    }
}

/// Whether the two are one type.
fn is_one_type(a: IntType, b: IntType) -> bool
    ensures { IsTrue result ↔ (a ≡ b) }
{
    a == b
}

/// Whether the terms agree at every place.
fn agree(left: &Term, right: &Term, ty: IntType, names: &[(u32, IntType)]) -> bool
    requires { length names.now ≤ 6 }
    ensures { MatchBool result
        ((place : ℕ) → place < ty.width → AgreeAtPlace (tree_of left.now) (tree_of right.now) ty.width names.now place)
        ((place : ℕ) × (place < ty.width) × DifferAtPlace (tree_of left.now) (tree_of right.now) ty.width names.now place) }
{
    for place in 0..ty.bits() {
        if !agree_at(left, right, ty, names, place) {
            return false;
        }
    }
    true
}

/// Whether they agree where some of the names have their bit at the place, whichever.
fn agree_at(left: &Term, right: &Term, ty: IntType, names: &[(u32, IntType)], place: u8) -> bool
    requires few { length names.now ≤ 6 }
    requires place { place < 128 }
    ensures { MatchBool result
        (AgreeAtPlace (tree_of left.now) (tree_of right.now) ty.width names.now place)
        (DifferAtPlace (tree_of left.now) (tree_of right.now) ty.width names.now place) }
{
    let masks: u32 = 1 << names.len();
    for mask in 0..masks {
        let spot = Spot { place, mask };
        if word_at(left, ty, names, spot) != word_at(right, ty, names, spot) {
            return false;
        }
    }
    true
}
