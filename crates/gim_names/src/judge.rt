//! Whether an occurrence breaks a rule on names.

ghost use Rattle.std.specs.Prelude.{◌≡◌, ℕ, List};
ghost use Rattle.gim_text.specs.Texts.{name_parts};
ghost use Rattle.pm_places.specs.Spans.{text_of};
ghost use Rattle.gim_names.specs.Tables.{Describes, Remembers, IsSound};
ghost use Rattle.gim_names.specs.Rules as rules;
ghost use Rattle.gim_names.specs.NamesFault as faults;

use crate::occurrence_texts::{
    assigned_version, base_default, block_number, declared_text, default_version, parts_at,
    plain_version, version_base,
};
use crate::past::Past;
use crate::scope::Scope;
use crate::tables::{differs, stands};
use gim_text::{GimpleKind, Occurrence, literal};
use pm_places::{Span, text};

/// Whether a parameter, local or block of this identifier or number stood before.
fn is_declared_again(source: &[u8], past: &Past, occurrence: &Occurrence) -> bool
    ensures { (before : List Occurrence) → Remembers source.now before past.now →
        result ≡ rules.is_declared_again source.now before occurrence.now }
{
    stands(&past.declared, declared_text(source, occurrence))
        || stands(&past.blocks, block_number(source, occurrence))
}

/// Whether a name of this version is assigned before, and now.
fn is_assigned_again(source: &[u8], past: &Past, occurrence: &Occurrence) -> bool
    ensures { (before : List Occurrence) → Remembers source.now before past.now →
        result ≡ rules.is_assigned_again source.now before occurrence.now }
{
    stands(&past.assigned, assigned_version(source, occurrence))
}

/// Whether a name of this version and another base stood before.
fn has_other_base(source: &[u8], past: &Past, occurrence: &Occurrence) -> bool
    ensures { (before : List Occurrence) → Remembers source.now before past.now →
        IsSound source.now before → result ≡ rules.has_other_base source.now before occurrence.now }
{
    differs(&past.bases, version_base(source, occurrence))
}

/// Whether a name of this version stood before with `(D)`, and now without, or the other way round.
fn has_other_mark(source: &[u8], past: &Past, occurrence: &Occurrence) -> bool
    ensures { (before : List Occurrence) → Remembers source.now before past.now →
        result ≡ rules.has_other_mark source.now before occurrence.now }
{
    stands(&past.plain, default_version(source, occurrence))
        || stands(&past.initial, plain_version(source, occurrence))
}

/// Whether another default definition of this parameter stood before.
fn has_other_default(source: &[u8], past: &Past, occurrence: &Occurrence) -> bool
    ensures { (before : List Occurrence) → Remembers source.now before past.now →
        IsSound source.now before →
        result ≡ rules.has_other_default source.now before occurrence.now }
{
    differs(&past.defaults, base_default(source, occurrence))
}

/// Whether the occurrence repeats one before it.
fn is_repeated(source: &[u8], past: &Past, occurrence: &Occurrence) -> bool
    ensures { (before : List Occurrence) → Remembers source.now before past.now →
        result ≡ rules.is_repeated source.now before occurrence.now }
{
    is_declared_again(source, past, occurrence) || is_assigned_again(source, past, occurrence)
}

/// Whether the occurrence contradicts a default definition before it, or the want of one.
fn is_marked_otherwise(source: &[u8], past: &Past, occurrence: &Occurrence) -> bool
    ensures { (before : List Occurrence) → Remembers source.now before past.now →
        IsSound source.now before →
        result ≡ rules.is_marked_otherwise source.now before occurrence.now }
{
    has_other_mark(source, past, occurrence) || has_other_default(source, past, occurrence)
}

/// Whether the occurrence contradicts one before it.
fn is_contradicted(source: &[u8], past: &Past, occurrence: &Occurrence) -> bool
    ensures { (before : List Occurrence) → Remembers source.now before past.now →
        IsSound source.now before →
        result ≡ rules.is_contradicted source.now before occurrence.now }
{
    has_other_base(source, past, occurrence) || is_marked_otherwise(source, past, occurrence)
}

/// Whether the occurrence repeats or contradicts one before it.
fn is_redefined(source: &[u8], past: &Past, occurrence: &Occurrence) -> bool
    ensures { (before : List Occurrence) → Remembers source.now before past.now →
        IsSound source.now before → result ≡ rules.is_redefined source.now before occurrence.now }
{
    is_repeated(source, past, occurrence) || is_contradicted(source, past, occurrence)
}

/// Whether the parameter is an anonymous name.
fn is_bare(source: &[u8], at: Span) -> bool
    ensures { result ≡ rules.is_bare (name_parts (text_of source.now at)) }
{
    match parts_at(source, at) {
        Some((base, _)) => base.is_empty(),
        None => false,
    }
}

/// Whether it is no name, or lacks a declaration.
fn lacks_base(source: &[u8], scope: &Scope, at: Span) -> bool
    ensures { (all : List Occurrence) → Describes source.now all scope.now →
        result ≡ rules.lacks_base source.now all (text_of source.now at)
        (name_parts (text_of source.now at)) }
{
    match parts_at(source, at) {
        None => true,
        Some((base, _)) if base.is_empty() => !stands(&scope.locals, Some(text(source, at))),
        Some((base, _)) => {
            !(stands(&scope.locals, Some(base)) || stands(&scope.params, Some(base)))
        }
    }
}

/// Whether it is no name, or its base is no parameter.
fn lacks_param(source: &[u8], scope: &Scope, at: Span) -> bool
    ensures { (all : List Occurrence) → Describes source.now all scope.now →
        result ≡ rules.lacks_param source.now all (name_parts (text_of source.now at)) }
{
    match parts_at(source, at) {
        Some((base, _)) if !base.is_empty() => !stands(&scope.params, Some(base)),
        _ => true,
    }
}

/// Whether nothing in the function assigns this identifier.
fn is_unassigned(source: &[u8], scope: &Scope, at: Span) -> bool
    ensures { (all : List Occurrence) → Describes source.now all scope.now →
        result ≡ rules.is_unassigned source.now all (text_of source.now at) }
{
    !stands(&scope.assigned, Some(text(source, at)))
}

/// Whether it is no name that is declared and assigned.
fn is_unknown(source: &[u8], scope: &Scope, at: Span) -> bool
    ensures { (all : List Occurrence) → Describes source.now all scope.now →
        result ≡ rules.is_unknown source.now all (text_of source.now at) }
{
    lacks_base(source, scope, at) || is_unassigned(source, scope, at)
}

/// Whether the occurrence lacks what it needs.
fn is_undeclared(source: &[u8], scope: &Scope, occurrence: &Occurrence) -> bool
    ensures { (all : List Occurrence) → Describes source.now all scope.now →
        result ≡ rules.is_undeclared source.now all occurrence.now }
{
    match occurrence {
        Occurrence::Parameter(at) => is_bare(source, *at),
        Occurrence::Assigned(at) => lacks_base(source, scope, *at),
        Occurrence::Used(at) => is_unknown(source, scope, *at),
        Occurrence::Default(at) => lacks_param(source, scope, *at),
        Occurrence::Local(_)
        | Occurrence::Block(_)
        | Occurrence::Jump(_)
        | Occurrence::Constant(_) => false,
    }
}

/// Whether it is a constant that its type does not hold.
fn is_wide(source: &[u8], occurrence: &Occurrence) -> bool
    ensures { result ≡ rules.is_wide source.now occurrence.now }
{
    match occurrence {
        Occurrence::Constant(constant) => literal(source, constant).is_none(),
        _ => false,
    }
}

/// The first of the kinds that holds.
fn first_kind(redefined: bool, undeclared: bool, wide: bool) -> Option<GimpleKind>
    ensures { result ≡ faults.first_kind redefined undeclared wide }
{
    if redefined {
        Some(GimpleKind::Redefined)
    } else if undeclared {
        Some(GimpleKind::Undeclared)
    } else if wide {
        Some(GimpleKind::WideLiteral)
    } else {
        None
    }
}

/// The first kind whose rules the occurrence breaks.
pub(crate) fn kind_of(
    source: &[u8],
    scope: &Scope,
    past: &Past,
    occurrence: &Occurrence,
) -> Option<GimpleKind>
    ensures { (all before : List Occurrence) → Describes source.now all scope.now →
        Remembers source.now before past.now → IsSound source.now before →
        result ≡ faults.kind_of_occurrence source.now all before occurrence.now }
{
    let redefined = is_redefined(source, past, occurrence);
    let undeclared = is_undeclared(source, scope, occurrence);
    first_kind(redefined, undeclared, is_wide(source, occurrence))
}
