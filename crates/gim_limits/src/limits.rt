//! The stage of limits: how many blocks and names a function has, and how large their numbers are.

ghost use Rattle.std.specs.Prelude.{◌≡◌, ◌+◌, ◌||◌, ◌==◌, ℕ, suc, List, []};
ghost use Rattle.std.specs.Prelude.{◌∷◌, IfOk, option_map, length};
ghost use Rattle.std.specs.List.{cons_option};
ghost use Rattle.gim_text.specs.Faults.{Judges};
ghost use Rattle.pm_places.specs.FirstFaults.{first_fault};
ghost use Rattle.gim_limits.specs.Limits.{is_above, is_any_above, digits_at, version_at};
ghost use Rattle.gim_limits.specs.Limits.{version_of, blocks_among, versions_of, is_name_too_many};
ghost use Rattle.gim_limits.specs.Limits.{is_block_too_many, is_too_large, large_faults};
ghost use Rattle.gim_limits.specs.Limits.{function_limit_faults, limits_fault};
ghost use Rattle.gim_limits.specs.Seen.{IsSeen, Takes};

use crate::numbers::is_above;
use crate::seen::Seen;
use gim_shape::named_at;
use gim_text::{
    BLOCK_LIMIT, FunctionText, GimpleFault, GimpleKind, NAME_LIMIT, Occurrence, block_at, name_at,
    name_parts, occurrences,
};
use pm_ops::OutOfMemory;
use pm_places::{Span, text};
use std::alloc::Global;
use std::collections::HashSet;

/// The digits of the version of a name at a place.
fn version_of(source: &[u8], name: Option<Span>) -> Option<&[u8]>
    ensures { option_map (λ x. x.now) result ≡ version_of source.now name }
{
    match name {
        Some(at) => match name_parts(text(source, at)) {
            Some((_, version)) => Some(version),
            None => None,
        },
        None => None,
    }
}

/// The version of the name that occurs.
fn version_at<'a>(source: &'a [u8], occurrence: &Occurrence) -> Option<&'a [u8]>
    ensures { option_map (λ x. x.now) result ≡ version_at source.now occurrence.now }
{
    version_of(source, name_at(source, occurrence))
}

/// The digits of the version or of the block's number that occurs.
fn digits_at<'a>(source: &'a [u8], occurrence: &Occurrence) -> Option<&'a [u8]>
    ensures { option_map (λ x. x.now) result ≡ digits_at source.now occurrence.now }
{
    match occurrence {
        Occurrence::Block(at) => Some(text(source, *at)),
        Occurrence::Jump(at) => Some(named_at(source, *at)),
        Occurrence::Parameter(_)
        | Occurrence::Local(_)
        | Occurrence::Assigned(_)
        | Occurrence::Used(_)
        | Occurrence::Default(_)
        | Occurrence::Constant(_) => version_at(source, occurrence),
    }
}

/// Whether the number that occurs is too large.
fn is_number_above(source: &[u8], occurrence: &Occurrence) -> bool
    ensures { result ≡ is_any_above (digits_at source.now occurrence.now) }
{
    match digits_at(source, occurrence) {
        Some(digits) => is_above(digits),
        None => false,
    }
}

impl<'a> Seen<'a> {
    /// Nothing yet.
    fn new(alloc: Global) -> Seen<'a>
        ensures { IsSeen [] 0 result }
    {
        Seen {
            versions: HashSet::new(alloc),
            names: 0,
            blocks: 0,
        }
    }

    /// Takes in a version; true where its name is one too many.
    fn take_version(&mut self, version: &'a [u8]) -> Result<bool, OutOfMemory>
        ensures { (versions : List (List ℕ)) (blocks : ℕ) → IsSeen versions blocks self.old →
            IfOk result (λ large. Takes (is_name_too_many versions (Some version.now))
            (IsSeen (version.now ∷ versions) blocks self.new) large) }
    {
        if !self.versions.insert(version)? {
            return Ok(false);
        }
        if self.names == NAME_LIMIT {
            return Ok(true);
        }
        self.names += 1;
        Ok(false)
    }

    /// Takes in the version of a name, if there is one; true where the name is one too many.
    fn take_name(&mut self, version: Option<&'a [u8]>) -> Result<bool, OutOfMemory>
        ensures { (versions : List (List ℕ)) (blocks : ℕ) → IsSeen versions blocks self.old →
            IfOk result (λ large. Takes
            (is_name_too_many versions (option_map (λ x. x.now) version.entry))
            (IsSeen (cons_option (option_map (λ x. x.now) version.entry) versions) blocks
            self.new) large) }
    {
        match version {
            Some(version) => self.take_version(version),
            None => Ok(false),
        }
    }

    /// Takes in a block, if there is one; true where it is one too many.
    fn take_block(&mut self, block: Option<Span>) -> bool
        ensures { (versions : List (List ℕ)) (blocks : List Span) →
            IsSeen versions (length blocks) self.old →
            Takes (is_block_too_many (length blocks) block)
            (IsSeen versions (length (cons_option block blocks)) self.new) result }
    {
        let Some(_at) = block else {
            return false;
        };
        if self.blocks == BLOCK_LIMIT {
            return true;
        }
        self.blocks += 1;
        false
    }

    /// Takes in what occurs; true where something is too large there.
    fn take(&mut self, source: &'a [u8], occurrence: &Occurrence) -> Result<bool, OutOfMemory>
        ensures { (before : List Occurrence) →
            IsSeen (versions_of source.now before) (blocks_among before) self.old →
            IfOk result (λ large. Takes (is_too_large source.now before occurrence.now)
            (IsSeen (versions_of source.now (occurrence.now ∷ before))
            (blocks_among (occurrence.now ∷ before)) self.new) large) }
    {
        if is_number_above(source, occurrence) {
            return Ok(true);
        }
        if self.take_name(version_at(source, occurrence))? {
            return Ok(true);
        }
        Ok(self.take_block(block_at(occurrence)))
    }
}

/// Checks what occurs in a function.
fn check_occurrences(
    alloc: Global,
    source: &[u8],
    occurrences: &[Occurrence],
) -> Result<(), GimpleFault>
    ensures { Judges (first_fault (large_faults source.now [] occurrences.now)) result }
{
    let mut seen = Seen::new(alloc);
    for occurrence in occurrences {
        if seen.take(source, occurrence)? {
            return Err(GimpleFault::at(GimpleKind::TooLarge, occurrence.place()));
        }
    }
    Ok(())
}

/// Checks a function.
fn check_function(alloc: Global, source: &[u8], function: &FunctionText) -> Result<(), GimpleFault>
    ensures { Judges (first_fault (function_limit_faults source.now function.now)) result }
{
    let occurrences = occurrences(alloc, function)?;
    check_occurrences(alloc, source, occurrences.as_slice())
}

/// Checks the limits of functions: how many blocks and names they have, and how large versions and
/// block numbers are.
#[tactic(auto, unfolding(crate::specs::Limits::limits_fault))]
pub fn check_limits(
    alloc: Global,
    source: &[u8],
    functions: &[FunctionText],
) -> Result<(), GimpleFault>
    // the first place at which a limit is passed
    ensures { Judges (limits_fault source.now functions.now) result }
{
    for function in functions {
        check_function(alloc, source, function)?;
    }
    Ok(())
}
