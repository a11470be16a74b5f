//! Patterns: the rules on names, marks, flags and arguments, in the order of the text.

ghost use Rattle.std.specs.Prelude.{◌≡◌, map};
ghost use Rattle.cond_subset.specs.Names.{Judges};
ghost use Rattle.pd_forms.specs.Trees.{pattern_of, operands};
ghost use Rattle.pd_pattern_names.specs.Patterns as pattern_rules;

use crate::faults::broken;
use crate::flags::{check_flags, hold_capture};
use crate::heads::{Head, Own, check_bare, check_name, head_of, is_use};
use crate::known::{Known, is_free};
use pd_forms::{HeadText, PatternText};
use pd_text::Capture;
use pm_items::Items;
use pm_ops::{PatternFault, PatternKind};
use pm_places::{Span, text};

/// Where a pattern stands.
#[derive(Clone, Copy, Debug)]
pub enum Stand {
    /// It is the pattern of a `simplify`.
    OfSimplify,
    /// It is the pattern of a case of a predicate.
    OfMatch,
    /// It is an argument of a predicate.
    Argument,
    /// It is an operand of an operation.
    Operand,
}

/// Whether no `?` may stand on a pattern there.
fn refuses_mark(stand: Stand) -> bool
    ensures { result ≡ pattern_rules.refuses_mark stand }
{
    match stand {
        Stand::Operand => false,
        _ => true,
    }
}

/// How many patterns there are.
#[tactic(auto, using(crate::proofs::Counts::counted))]
fn count(patterns: &Items<PatternText>) -> usize
    ensures { result ≡ pattern_rules.count (operands (map pattern_of patterns.now)) }
{
    patterns.len()
}

/// Whether a `?` may not stand on such an operation.
fn is_bad_mark(
    source: &[u8],
    known: &Known,
    own: Option<Own>,
    stand: Stand,
    head: Head,
    capture: Option<Capture>,
    patterns: &Items<PatternText>,
) -> bool
    ensures { result ≡ pattern_rules.is_bad_mark source.now known.now own stand head capture (operands (map pattern_of patterns.now)) }
{
    is_use(head)
        || refuses_mark(stand)
        || count(patterns) != 1
        || capture.is_some() && hold_capture(source, known, own, patterns.as_slice())
}

/// The `?` of an operation may stand there.
fn check_mark(is_bad: bool, marked: Option<Span>) -> Result<(), PatternFault>
    ensures { Judges (pattern_rules.mark_fault is_bad marked) result }
{
    match marked {
        Some(at) => broken(is_bad, PatternKind::BadFlag, at),
        None => Ok(()),
    }
}

/// No capture stands on the pattern of a `simplify`.
fn check_capture(stand: Stand, capture: Option<Capture>) -> Result<(), PatternFault>
    ensures { Judges (pattern_rules.capture_fault stand capture) result }
{
    match stand {
        Stand::OfSimplify => match capture {
            Some(one) => broken(true, PatternKind::BadFlag, one.at),
            None => Ok(()),
        },
        _ => Ok(()),
    }
}

/// What stands in an operation before its operands.
fn check_head(
    source: &[u8],
    known: &Known,
    own: Option<Own>,
    stand: Stand,
    head: &HeadText,
    capture: Option<Capture>,
    patterns: &Items<PatternText>,
) -> Result<(), PatternFault>
    ensures { Judges (pattern_rules.head_fault source.now known.now own stand head.now capture (operands (map pattern_of patterns.now))) result }
{
    let kind = head_of(source, known, own, head);
    let operands = count(patterns);
    check_name(own, kind, head.name, operands)?;
    let is_bad = is_bad_mark(source, known, own, stand, kind, capture, patterns);
    check_mark(is_bad, head.marked)?;
    check_flags(source, kind, head.label, operands)?;
    check_capture(stand, capture)
}

/// An argument that is an operation stands for a free parameter.
fn check_before(free: bool, argument: &PatternText) -> Result<(), PatternFault>
    ensures { Judges (pattern_rules.fault_before free (pattern_of argument.now)) result }
{
    match argument {
        PatternText::Operation(at, _, _, _) => broken(!free, PatternKind::BadArgument, *at),
        _ => Ok(()),
    }
}

/// An argument that is a bare name stands for a free parameter.
fn check_after(free: bool, argument: &PatternText) -> Result<(), PatternFault>
    ensures { Judges (pattern_rules.fault_after free (pattern_of argument.now)) result }
{
    match argument {
        PatternText::Predicate(at, _) => broken(!free, PatternKind::BadArgument, *at),
        _ => Ok(()),
    }
}

/// The arguments of a predicate.
#[cycle(patterns)]
fn check_arguments(
    source: &[u8],
    known: &Known,
    own: Option<Own>,
    callee: &[u8],
    arguments: &[PatternText],
) -> Result<(), PatternFault>
    ensures { Judges (pattern_rules.arguments_fault source.now known.now own callee.now 0 (operands (map pattern_of arguments.now))) result }
{
    for (place, argument) in arguments.iter().enumerate() {
        let free = is_free(source, known.cases.as_slice(), callee, place);
        check_before(free, argument)?;
        check_pattern(source, known, own, Stand::Argument, argument)?;
        check_after(free, argument)?;
    }
    Ok(())
}

/// The operands of an operation.
#[cycle(patterns)]
fn check_operands(
    source: &[u8],
    known: &Known,
    own: Option<Own>,
    patterns: &[PatternText],
) -> Result<(), PatternFault>
    ensures { Judges (pattern_rules.operands_fault source.now known.now own (operands (map pattern_of patterns.now))) result }
{
    for pattern in patterns {
        check_pattern(source, known, own, Stand::Operand, pattern)?;
    }
    Ok(())
}

/// What stands below the head of an operation.
#[cycle(patterns)]
fn check_below(
    source: &[u8],
    known: &Known,
    own: Option<Own>,
    head: &HeadText,
    patterns: &[PatternText],
) -> Result<(), PatternFault>
    ensures { Judges (pattern_rules.below_fault source.now known.now own head.now (operands (map pattern_of patterns.now))) result }
{
    if is_use(head_of(source, known, own, head)) {
        check_arguments(source, known, own, text(source, head.name), patterns)
    } else {
        check_operands(source, known, own, patterns)
    }
}

/// The names, marks, flags and arguments of a pattern that stands so: the first rule that is
/// broken, in the order of the text.
#[cycle(patterns)]
pub fn check_pattern(
    source: &[u8],
    known: &Known,
    own: Option<Own>,
    stand: Stand,
    pattern: &PatternText,
) -> Result<(), PatternFault>
    ensures { Judges (pattern_rules.pattern_fault source.now known.now own stand (pattern_of pattern.now)) result }
{
    match pattern {
        PatternText::Capture(_) => Ok(()),
        PatternText::Predicate(at, _) => check_bare(source, known, own, *at),
        PatternText::Operation(_, head, capture, patterns) => {
            check_head(source, known, own, stand, head, *capture, patterns)?;
            check_below(source, known, own, head, patterns.as_slice())
        }
    }
}
