//! The check that no name is in its own support, by one order of the statements.
ghost use Rattle.std.specs.Prelude.{◌<◌, ℕ, IsTrue, IfOk};
ghost use Rattle.gim_ast.specs.WellFormed.{is_among};
ghost use Rattle.gim_ssa.specs.Circles.{Rise, number_of};

use crate::rows::{number_at, ranks};
use crate::walks::from_below;
use pm_items::Items;
use pm_ops::OutOfMemory;
use std::alloc::Global;

/// Whether these places have numbers below a bound.
fn are_below(numbers: &[usize], places: &[usize], bound: usize) -> bool
    ensures { IsTrue result → (p : ℕ) → IsTrue (is_among p places.now) →
        number_of numbers.now p < bound }
{
    for place in places {
        if number_at(numbers, *place) >= bound {
            return false;
        }
    }
    true
}

/// Whether each place has a number above those of the places that it leads to.
fn rise(numbers: &[usize], nexts: &[Items<usize>]) -> bool
    ensures { IsTrue result → Rise nexts.now (number_of numbers.now) }
{
    for (place, row) in nexts.iter().enumerate() {
        if !are_below(numbers, row.as_slice(), number_at(numbers, place)) {
            return false;
        }
    }
    true
}

/// Whether no place leads back to itself.
pub fn has_no_circle(alloc: Global, nexts: &[Items<usize>]) -> Result<bool, OutOfMemory>
    ensures { IfOk result (λ yes. IsTrue yes → (number : ℕ → ℕ) × Rise nexts.now number) }
{
    let order = from_below(alloc, nexts, nexts.len())?;
    let numbers = ranks(alloc, &order, nexts.len())?;
    Ok(rise(&numbers, nexts))
}
