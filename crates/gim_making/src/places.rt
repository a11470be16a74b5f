//! Where names stand in the text of a function.

ghost use Rattle.std.specs.Prelude.{◌≡◌, [], ◌++◌, IfOk, OnOk};
ghost use Rattle.std.specs.List.{filter_map, cons_option};
ghost use Rattle.gim_making.specs.Names.{is_default, name_place, names_in};

use gim_text::{FunctionText, Occurrence, name_at, occurrences};
use pm_ops::OutOfMemory;
use pm_places::Span;
use std::alloc::Global;

/// A name where it stands in the text.
#[derive(Clone, Copy)]
pub struct NamePlace {
    pub at: Span,
    /// Whether it is marked as a default definition.
    pub initial: bool,
}

/// Whether it is a name with `(D)`.
fn is_default(occurrence: &Occurrence) -> bool
    ensures { result ≡ is_default occurrence.now }
{
    match occurrence {
        Occurrence::Default(_) => true,
        _ => false,
    }
}

/// The name that occurs.
fn name_place(source: &[u8], occurrence: &Occurrence) -> Option<NamePlace>
    ensures { result ≡ name_place source.now occurrence.now }
{
    match name_at(source, occurrence) {
        Some(at) => Some(NamePlace {
            at,
            initial: is_default(occurrence),
        }),
        None => None,
    }
}

/// Puts a name, if there is one.
fn push_name(places: &mut Vec<NamePlace>, place: Option<NamePlace>) -> Result<(), OutOfMemory>
    ensures { OnOk result (places.new.items ≡ places.old.items ++ cons_option place []) }
{
    if let Some(place) = place {
        places.push(place)?;
    }
    Ok(())
}

/// The names among what occurs.
fn names_among(
    alloc: Global,
    source: &[u8],
    occurrences: &[Occurrence],
) -> Result<Vec<NamePlace>, OutOfMemory>
    ensures { IfOk result (λ places. places.items ≡
        filter_map (name_place source.now) occurrences.now) }
{
    let mut places = Vec::new(alloc);
    for occurrence in occurrences {
        push_name(&mut places, name_place(source, occurrence))?;
    }
    Ok(places)
}

/// Where the names of a function stand.
pub(crate) fn names_in(
    alloc: Global,
    source: &[u8],
    tree: &FunctionText,
) -> Result<Vec<NamePlace>, OutOfMemory>
    ensures { IfOk result (λ places. places.items ≡ names_in source.now tree.now) }
{
    let occurrences = occurrences(alloc, tree)?;
    names_among(alloc, source, occurrences.as_slice())
}
