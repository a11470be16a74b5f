//! What is known at a place of a file, and what a name is there.

ghost use Rattle.std.specs.Prelude.{◌≡◌};
ghost use Rattle.pd_pattern_names.specs.Known as all;

use pm_items::Items;
use pm_ops::{Code, Pred};
use pm_places::{Span, text};

/// A name that stands for the entries of a list: an operator list, or an identifier of a `for`.
#[derive(Clone, Copy, Debug)]
pub struct Chosen {
    pub name: Span,
    /// How many operands its entries take; `None` where any number fits.
    pub arity: Option<usize>,
}

/// A case of a predicate.
#[derive(Drop)]
pub struct Case {
    pub name: Span,
    /// For each of its parameters, whether it is free in the case.
    pub free: Items<bool>,
}

/// What is known at a place.
#[derive(Drop)]
pub struct Known {
    /// The operator lists above.
    pub lists: Items<Chosen>,
    /// The identifiers of the `for`s round the place.
    pub choices: Items<Chosen>,
    /// The cases of predicates above.
    pub cases: Items<Case>,
    /// The names of predicates where forms above use them.
    pub used: Items<Span>,
}

/// Whether one of these has the name.
pub fn is_chosen(source: &[u8], chosen: &[Chosen], name: &[u8]) -> bool
    ensures { result ≡ all.is_chosen source.now chosen.now name.now }
{
    chosen.iter().any(|one| text(source, one.name) == name)
}

/// The first of these of the name.
fn first_named(source: &[u8], chosen: &[Chosen], name: &[u8]) -> Option<Chosen>
    ensures { result ≡ all.first_named source.now chosen.now name.now }
{
    chosen
        .iter()
        .copied()
        .find(|one| text(source, one.name) == name)
}

/// What the first of these of the name takes.
fn arity_in(source: &[u8], chosen: &[Chosen], name: &[u8]) -> Option<Option<usize>>
    ensures { result ≡ all.arity_in source.now chosen.now name.now }
{
    match first_named(source, chosen, name) {
        Some(one) => Some(one.arity),
        None => None,
    }
}

/// What an entry of a list takes, if it is an operation, `null` or a list above.
pub fn entry_arity(source: &[u8], lists: &[Chosen], name: &[u8]) -> Option<Option<usize>>
    ensures { result ≡ all.entry_arity source.now lists.now name.now }
{
    if let Some(code) = Code::from_name(name) {
        return Some(Some(code.arity() as usize));
    }
    if name == b"null".as_slice() {
        return Some(None);
    }
    arity_in(source, lists, name)
}

/// What an operation, an identifier of a `for` round the place or a list above takes.
pub fn operator_arity(source: &[u8], known: &Known, name: &[u8]) -> Option<Option<usize>>
    ensures { result ≡ all.operator_arity source.now known.now name.now }
{
    if let Some(code) = Code::from_name(name) {
        return Some(Some(code.arity() as usize));
    }
    if let Some(arity) = arity_in(source, known.choices.as_slice(), name) {
        return Some(arity);
    }
    arity_in(source, known.lists.as_slice(), name)
}

/// Whether one of these cases is of the predicate.
pub fn has_case(source: &[u8], cases: &[Case], name: &[u8]) -> bool
    ensures { result ≡ all.has_case source.now cases.now name.now }
{
    cases.iter().any(|one| text(source, one.name) == name)
}

/// How many parameters the predicate has, if one of these cases is its.
pub fn parameters_of(source: &[u8], cases: &[Case], name: &[u8]) -> Option<usize>
    ensures { result ≡ all.parameters_of source.now cases.now name.now }
{
    for one in cases {
        if text(source, one.name) == name {
            return Some(one.free.len());
        }
    }
    None
}

/// Whether the parameter at this place is free in a case, or the case has none there.
fn is_flagged(case: &Case, place: usize) -> bool
    ensures { result ≡ all.flag_at case.now.free place }
{
    match case.free.get(place) {
        Some(flag) => *flag,
        None => true,
    }
}

/// Whether the parameter at this place is free in each case of the predicate.
pub(crate) fn is_free(source: &[u8], cases: &[Case], name: &[u8], place: usize) -> bool
    ensures { result ≡ all.is_free source.now cases.now name.now place }
{
    cases.iter().all(|one| text(source, one.name) != name || is_flagged(one, place))
}

/// Whether a form above uses the predicate.
pub fn is_used(source: &[u8], known: &Known, name: &[u8]) -> bool
    ensures { result ≡ all.is_used source.now known.now name.now }
{
    known.used.iter().any(|at| text(source, *at) == name)
}

/// Whether an operation, a predicate of the language, a list or an identifier of a `for` has the
/// name.
fn is_reserved(source: &[u8], known: &Known, name: &[u8]) -> bool
    ensures { result ≡ all.is_reserved source.now known.now name.now }
{
    Code::from_name(name).is_some()
        || Pred::from_name(name).is_some()
        || is_chosen(source, known.lists.as_slice(), name)
        || is_chosen(source, known.choices.as_slice(), name)
}

/// Whether something has the name already: for the name of a case, something but cases above.
pub fn is_taken(source: &[u8], known: &Known, name: &[u8], of_case: bool) -> bool
    ensures { result ≡ all.is_taken source.now known.now name.now of_case }
{
    is_reserved(source, known, name) || !of_case && has_case(source, known.cases.as_slice(), name)
}
