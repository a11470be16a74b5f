//! Faults, each where a rule is broken.

ghost use Rattle.std.specs.Prelude.{◌≡◌};
ghost use Rattle.cond_subset.specs.Names.{Judges};
ghost use Rattle.cond_subset.specs.Syntax.{fault_at};
ghost use Rattle.pd_pattern_names.specs.Known.{broken};

use pm_ops::{PatternFault, PatternKind};
use pm_places::Span;

/// A fault of this kind at a place.
pub fn fault_at(kind: PatternKind, at: Span) -> PatternFault
    ensures { result ≡ fault_at kind at }
{
    PatternFault {
        kind,
        at: at.from,
        len: at.to.saturating_sub(at.from),
    }
}

/// A fault where a rule is broken.
pub fn broken(is: bool, kind: PatternKind, at: Span) -> Result<(), PatternFault>
    ensures { Judges (broken is kind at) result }
{
    if is { Err(fault_at(kind, at)) } else { Ok(()) }
}
