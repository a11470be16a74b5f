//! The rules on the names of a GIMPLE file.
//!
//! A function is seen as what occurs in it: identifiers, numbers of blocks, names and constants.
//! They are judged one after another (`judge`), by what the function has as a whole (`scope`) and
//! by what stood before (`past`).
#![tactic(auto)]

mod judge;
pub mod laws;
mod occurrence_texts;
mod past;
mod scope;
mod tables;

ghost use Rattle.std.specs.Prelude.{◌≡◌};
ghost use Rattle.gim_text.specs.Faults.{Judges};
ghost use Rattle.gim_text.specs.Occurrences.{occurrences_of};
ghost use Rattle.gim_names.specs.NamesFault.{occurrences_fault, names_fault};

use crate::judge::kind_of;
use crate::past::Past;
use crate::scope::Scope;
use gim_text::{FunctionText, GimpleFault, GimpleKind, Occurrence, occurrences};
use pm_places::text;
use std::alloc::Global;
use std::collections::HashSet;

/// Judges the occurrences of a function, each by those before it.
fn check_occurrences(
    alloc: Global,
    source: &[u8],
    occurrences: &[Occurrence],
) -> Result<(), GimpleFault>
    ensures { Judges (occurrences_fault source.now occurrences.now) result }
{
    let scope = Scope::of(alloc, source, occurrences)?;
    let mut past = Past::new(alloc);
    for occurrence in occurrences {
        if let Some(kind) = kind_of(source, &scope, &past, occurrence) {
            return Err(GimpleFault::at(kind, occurrence.place()));
        }
        past.note(source, occurrence)?;
    }
    Ok(())
}

/// Judges what stands in a function behind its name.
fn check_function(alloc: Global, source: &[u8], function: &FunctionText) -> Result<(), GimpleFault>
    ensures { Judges (occurrences_fault source.now (occurrences_of function.now)) result }
{
    let occurrences = occurrences(alloc, function)?;
    check_occurrences(alloc, source, occurrences.as_slice())
}

/// Judges the names of a file: answers the first place at which a rule is broken.
pub fn check_names(
    alloc: Global,
    source: &[u8],
    functions: &[FunctionText],
) -> Result<(), GimpleFault>
    ensures { Judges (names_fault source.now functions.now) result }
{
    let mut known = HashSet::new(alloc);
    for function in functions {
        if !known.insert(text(source, function.name))? {
            return Err(GimpleFault::at(GimpleKind::Redefined, function.name));
        }
        check_function(alloc, source, function)?;
    }
    Ok(())
}
