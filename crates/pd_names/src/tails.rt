//! Tails.

ghost use Rattle.std.specs.Prelude.{◌≡◌};
ghost use Rattle.cond_subset.specs.Names.{Judges};
ghost use Rattle.pd_forms.specs.Tails.{tail_of};
ghost use Rattle.pd_names.specs.Tails.{tail_fault};

use crate::blocks::check_block;
use crate::parts::check_part;
use crate::sight::{Sight, below};
use pd_forms::TailText;
use pd_pattern_names::Known;
use pm_ops::PatternFault;
use std::alloc::Global;

/// Each capture, name and call of a tail is known.
pub(crate) fn check_tail(
    alloc: Global,
    source: &[u8],
    known: &Known,
    sight: &Sight,
    tail: &TailText,
) -> Result<(), PatternFault>
    ensures { Judges (tail_fault source.now known.now sight.now (tail_of tail.now)) result }
{
    match tail {
        TailText::Empty => Ok(()),
        TailText::If(condition, inner) => {
            check_part(alloc, source, known, sight, &[], condition)?;
            check_tail(alloc, source, known, sight, inner.get())
        }
        TailText::With(decls, inner) => {
            check_block(alloc, source, known, sight, decls.as_slice())?;
            let within = below(alloc, sight, decls.as_slice())?;
            check_tail(alloc, source, known, &within, inner.get())
        }
    }
}
