//! What the head of an operation is, and what a bare name is.

ghost use Rattle.std.specs.Prelude.{◌≡◌};
ghost use Rattle.cond_subset.specs.Names.{Judges};
ghost use Rattle.pd_pattern_names.specs.Heads as head_rules;

use crate::faults::broken;
use crate::known::{Known, has_case, operator_arity, parameters_of};
use pd_forms::HeadText;
use pm_ops::{PatternFault, PatternKind, Pred};
use pm_places::{Span, text};

/// The predicate whose case a pattern is.
#[derive(Clone, Copy, Debug)]
pub struct Own {
    pub name: Span,
    /// It has parameters.
    pub called: bool,
}

/// What the head of an operation is.
#[derive(Clone, Copy, Debug)]
pub enum Head {
    /// An operation, an identifier of a `for` or a list, with the number of operands that it takes.
    Operator(Option<usize>),
    /// A predicate of the file with so many parameters, which are more than none.
    Use(usize),
    /// The predicate whose case the pattern is.
    Itself,
    Unknown,
}

/// Whether the pattern is a case of the predicate of this name.
pub(crate) fn is_own(source: &[u8], own: Option<Own>, name: &[u8]) -> bool
    ensures { result ≡ head_rules.is_own source.now own name.now }
{
    match own {
        Some(one) => text(source, one.name) == name,
        None => false,
    }
}

/// What an optional operation takes whose name ends in the number of its group.
fn numbered_arity(source: &[u8], known: &Known, name: &[u8]) -> Option<Option<usize>>
    ensures { result ≡ head_rules.numbered_arity source.now known.now name.now }
{
    let (base, digit) = name.split_at(name.len().saturating_sub(1));
    if is_group(digit) {
        operator_arity(source, known, base)
    } else {
        None
    }
}

/// Whether these bytes begin with the number of a group.
fn is_group(bytes: &[u8]) -> bool
    ensures { result ≡ head_rules.is_group bytes.now }
{
    match bytes {
        [first, ..] => *first == b'1' || *first == b'2',
        [] => false,
    }
}

/// An operation of so many operands, or something else.
fn operator_or(arity: Option<Option<usize>>, other: Head) -> Head
    ensures { result ≡ head_rules.operator_or arity other }
{
    match arity {
        Some(asked) => Head::Operator(asked),
        None => other,
    }
}

/// A predicate with parameters, or something else.
fn use_or(count: Option<usize>, other: Head) -> Head
    ensures { result ≡ head_rules.use_or count other }
{
    match count {
        Some(parameters) => {
            if parameters > 0 {
                Head::Use(parameters)
            } else {
                other
            }
        }
        None => other,
    }
}

/// What a name is by the number of a group, which counts where a `?` stands.
fn numbered_head(source: &[u8], known: &Known, name: &[u8], marked: bool) -> Head
    ensures { result ≡ head_rules.numbered_head source.now known.now name.now marked }
{
    if marked {
        operator_or(numbered_arity(source, known, name), Head::Unknown)
    } else {
        Head::Unknown
    }
}

/// What a name is that is no operation, identifier of a `for` or list as a whole.
fn other_head(source: &[u8], known: &Known, name: &[u8], marked: bool) -> Head
    ensures { result ≡ head_rules.other_head source.now known.now name.now marked }
{
    let count = parameters_of(source, known.cases.as_slice(), name);
    use_or(count, numbered_head(source, known, name, marked))
}

/// What a name with a `?`, or without, is at the head of an operation.
fn head_named(source: &[u8], known: &Known, own: Option<Own>, name: &[u8], marked: bool) -> Head
    ensures { result ≡ head_rules.head_named source.now known.now own name.now marked }
{
    if is_own(source, own, name) {
        return Head::Itself;
    }
    let arity = operator_arity(source, known, name);
    operator_or(arity, other_head(source, known, name, marked))
}

/// What the head of an operation is.
pub(crate) fn head_of(source: &[u8], known: &Known, own: Option<Own>, head: &HeadText) -> Head
    ensures { result ≡ head_rules.head_of source.now known.now own head.now }
{
    head_named(
        source,
        known,
        own,
        text(source, head.name),
        head.marked.is_some(),
    )
}

/// Whether it is the use of a predicate.
pub(crate) fn is_use(head: Head) -> bool
    ensures { result ≡ head_rules.is_use head }
{
    match head {
        Head::Use(_) => true,
        _ => false,
    }
}

/// Whether a bare name is the use of a predicate of the file.
pub(crate) fn is_bare_use(source: &[u8], known: &Known, own: Option<Own>, name: &[u8]) -> bool
    ensures { result ≡ head_rules.is_bare_use source.now known.now own name.now }
{
    !is_own(source, own, name)
        && Pred::from_name(name).is_none()
        && has_case(source, known.cases.as_slice(), name)
}

/// Whether something that takes so many operands has another number of them.
pub fn differs(arity: Option<usize>, count: usize) -> bool
    ensures { result ≡ head_rules.differs arity count }
{
    match arity {
        Some(asked) => asked != count,
        None => false,
    }
}

/// What the own name of a predicate is in its case.
fn own_kind(own: Option<Own>) -> PatternKind
    ensures { result ≡ head_rules.own_kind own }
{
    match own {
        Some(one) => {
            if one.called {
                PatternKind::UnknownPredicate
            } else {
                PatternKind::UnknownOperator
            }
        }
        None => PatternKind::UnknownOperator,
    }
}

/// The head is known, and has so many operands as it takes.
pub(crate) fn check_name(
    own: Option<Own>,
    head: Head,
    at: Span,
    count: usize,
) -> Result<(), PatternFault>
    ensures { Judges (head_rules.name_fault own head at count) result }
{
    match head {
        Head::Operator(arity) => broken(differs(arity, count), PatternKind::BadArity, at),
        Head::Use(asked) => broken(asked != count, PatternKind::BadArity, at),
        Head::Itself => broken(true, own_kind(own), at),
        Head::Unknown => broken(true, PatternKind::UnknownOperator, at),
    }
}

/// What a bare name is that is no predicate of the language.
fn check_other(source: &[u8], known: &Known, at: Span) -> Result<(), PatternFault>
    ensures { Judges (head_rules.other_fault source.now known.now at) result }
{
    match parameters_of(source, known.cases.as_slice(), text(source, at)) {
        Some(count) => broken(count > 0, PatternKind::BadArity, at),
        None => broken(true, PatternKind::UnknownPredicate, at),
    }
}

/// A bare name is a predicate of the language, or one above without parameters.
pub(crate) fn check_bare(
    source: &[u8],
    known: &Known,
    own: Option<Own>,
    at: Span,
) -> Result<(), PatternFault>
    ensures { Judges (head_rules.bare_fault source.now known.now own at) result }
{
    let name = text(source, at);
    if is_own(source, own, name) {
        return broken(true, PatternKind::UnknownPredicate, at);
    }
    if Pred::from_name(name).is_some() {
        return Ok(());
    }
    check_other(source, known, at)
}
