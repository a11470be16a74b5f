//! What an occurrence says that the rules on names compare.

ghost use Rattle.std.specs.Prelude.{◌≡◌, option_map};
ghost use Rattle.gim_text.specs.Texts.{name_parts};
ghost use Rattle.pm_places.specs.Spans.{text_of};
ghost use Rattle.gim_names.specs.OccurrenceTexts as texts;

use gim_text::{Occurrence, name_parts};
use pm_places::{Span, text};

/// The base and the version of a name.
pub(crate) fn parts_at(source: &[u8], at: Span) -> Option<(&[u8], &[u8])>
    ensures { option_map (λ x. (x.0.now, x.1.now)) result ≡ name_parts (text_of source.now at) }
{
    name_parts(text(source, at))
}

/// The version of a name.
fn version_at(source: &[u8], at: Span) -> Option<&[u8]>
    ensures { option_map (λ x. x.now) result ≡
        texts.version_in (name_parts (text_of source.now at)) }
{
    match parts_at(source, at) {
        Some((_, version)) => Some(version),
        None => None,
    }
}

/// The version and the base of a name.
fn based_at(source: &[u8], at: Span) -> Option<(&[u8], &[u8])>
    ensures { option_map (λ x. (x.0.now, x.1.now)) result ≡
        texts.turned (name_parts (text_of source.now at)) }
{
    match parts_at(source, at) {
        Some((base, version)) => Some((version, base)),
        None => None,
    }
}

/// The version and the base of an anonymous name.
fn anonymous_at(source: &[u8], at: Span) -> Option<(&[u8], &[u8])>
    ensures { option_map (λ x. (x.0.now, x.1.now)) result ≡
        texts.turned (texts.anonymous_parts (name_parts (text_of source.now at))) }
{
    match parts_at(source, at) {
        Some((base, version)) if base.is_empty() => Some((version, base)),
        _ => None,
    }
}

/// The identifier of a parameter.
pub(crate) fn param_text<'a>(source: &'a [u8], occurrence: &Occurrence) -> Option<&'a [u8]>
    ensures { option_map (λ x. x.now) result ≡ texts.param_text source.now occurrence.now }
{
    match occurrence {
        Occurrence::Parameter(at) => Some(text(source, *at)),
        _ => None,
    }
}

/// The identifier of a local.
pub(crate) fn local_text<'a>(source: &'a [u8], occurrence: &Occurrence) -> Option<&'a [u8]>
    ensures { option_map (λ x. x.now) result ≡ texts.local_text source.now occurrence.now }
{
    match occurrence {
        Occurrence::Local(at) => Some(text(source, *at)),
        _ => None,
    }
}

/// The identifier of a parameter or a local.
pub(crate) fn declared_text<'a>(source: &'a [u8], occurrence: &Occurrence) -> Option<&'a [u8]>
    ensures { option_map (λ x. x.now) result ≡ texts.declared_text source.now occurrence.now }
{
    match occurrence {
        Occurrence::Parameter(at) | Occurrence::Local(at) => Some(text(source, *at)),
        _ => None,
    }
}

/// The number of a block.
pub(crate) fn block_number<'a>(source: &'a [u8], occurrence: &Occurrence) -> Option<&'a [u8]>
    ensures { option_map (λ x. x.now) result ≡ texts.block_number source.now occurrence.now }
{
    match occurrence {
        Occurrence::Block(at) => Some(text(source, *at)),
        _ => None,
    }
}

/// The whole identifier of a name that is assigned.
pub(crate) fn assigned_text<'a>(source: &'a [u8], occurrence: &Occurrence) -> Option<&'a [u8]>
    ensures { option_map (λ x. x.now) result ≡ texts.assigned_text source.now occurrence.now }
{
    match occurrence {
        Occurrence::Assigned(at) => Some(text(source, *at)),
        _ => None,
    }
}

/// The version of a name that is assigned.
pub(crate) fn assigned_version<'a>(source: &'a [u8], occurrence: &Occurrence) -> Option<&'a [u8]>
    ensures { option_map (λ x. x.now) result ≡ texts.assigned_version source.now occurrence.now }
{
    match occurrence {
        Occurrence::Assigned(at) => version_at(source, *at),
        _ => None,
    }
}

/// The version of a name without `(D)`.
pub(crate) fn plain_version<'a>(source: &'a [u8], occurrence: &Occurrence) -> Option<&'a [u8]>
    ensures { option_map (λ x. x.now) result ≡ texts.plain_version source.now occurrence.now }
{
    match occurrence {
        Occurrence::Assigned(at) | Occurrence::Used(at) => version_at(source, *at),
        _ => None,
    }
}

/// The version of a name with `(D)`.
pub(crate) fn default_version<'a>(source: &'a [u8], occurrence: &Occurrence) -> Option<&'a [u8]>
    ensures { option_map (λ x. x.now) result ≡ texts.default_version source.now occurrence.now }
{
    match occurrence {
        Occurrence::Default(at) => version_at(source, *at),
        _ => None,
    }
}

/// The version and the base of a name, or of a local that is an anonymous name.
pub(crate) fn version_base<'a>(
    source: &'a [u8],
    occurrence: &Occurrence,
) -> Option<(&'a [u8], &'a [u8])>
    ensures { option_map (λ x. (x.0.now, x.1.now)) result ≡
        texts.version_base source.now occurrence.now }
{
    match occurrence {
        Occurrence::Local(at) => anonymous_at(source, *at),
        Occurrence::Assigned(at) | Occurrence::Used(at) | Occurrence::Default(at) => {
            based_at(source, *at)
        }
        _ => None,
    }
}

/// The base and the version of a default definition.
pub(crate) fn base_default<'a>(
    source: &'a [u8],
    occurrence: &Occurrence,
) -> Option<(&'a [u8], &'a [u8])>
    ensures { option_map (λ x. (x.0.now, x.1.now)) result ≡
        texts.base_default source.now occurrence.now }
{
    match occurrence {
        Occurrence::Default(at) => parts_at(source, *at),
        _ => None,
    }
}
