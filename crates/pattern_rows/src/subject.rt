//! Subjects: what test rows are tried on.
ghost use Rattle.std.specs.Prelude.{◌≡◌, ℕ, ◌<◌, Bool, true, Option, IsSome};
ghost use Rattle.pm_ops.specs.declared.code.Code.{Code};
ghost use Rattle.pm_ops.specs.Codes.{arity_of};
ghost use Rattle.pm_wide.specs.declared.operand.Operand.{Operand};
ghost use Rattle.pattern_rows.specs.declared.row.Place.{Place};
ghost use Rattle.pattern_rows.specs.declared.row.ProbeAt.{ProbeAt};
ghost use Rattle.pattern_rows.specs.Counting.{ticked};
ghost use Rattle.pattern_rows.specs.Places.{below, code_at};

use crate::row::{Place, ProbeAt};
use crate::steps::Steps;
use pm_wide::Operand;

/// A right side, with what stands behind its operands.
pub trait Subject<L> {
    /// Which tests hold.
    ghost holds: { Self → ProbeAt → Bool };

    /// Which operand stands at a place: none where the place isn't there, and at the outermost one.
    ghost operand_at: { Self → Place → Option Operand };

    /// Whether a test holds. Counts one step.
    fn test(&self, at: &ProbeAt, steps: &mut Steps<L>) -> bool
        ensures answer { result ≡ holds self.now at.now }
        ensures counted { steps.new ≡ ticked steps.old };

    /// The operand at a place. Counts one step.
    fn operand(&self, place: &Place, steps: &mut Steps<L>) -> Option<Operand>
        ensures answer { result ≡ operand_at self.now place.now }
        ensures counted { steps.new ≡ ticked steps.old };

    /// Where an operation has a code, its operands are there, as many as the code takes.
    ghost operands_are_there: { (s : Self) (at : Place) (code : Code) → holds s (code_at at code) ≡ true →
        (position : ℕ) → position < arity_of code → IsSome (operand_at s (below at position)) };
}
