//! Flags, and the marks `?`.

ghost use Rattle.std.specs.Prelude.{◌≡◌, map};
ghost use Rattle.cond_subset.specs.Names.{Judges};
ghost use Rattle.pd_forms.specs.Trees.{pattern_of, operands};
ghost use Rattle.pd_pattern_names.specs.Flags as flag_rules;

use crate::faults::broken;
use crate::heads::{Head, Own, head_of, is_bare_use, is_use};
use crate::known::Known;
use pd_forms::PatternText;
use pm_ops::{PatternFault, PatternKind};
use pm_places::{Span, text};

/// Whether these are flags: `c`, `C` and `s`, each at most once, and not both `c` and `C`.
fn are_flags(letters: &[u8]) -> bool
    ensures { result ≡ flag_rules.are_flags letters.now }
{
    letters == b"c".as_slice()
        || letters == b"C".as_slice()
        || letters == b"s".as_slice()
        || letters == b"cs".as_slice()
        || letters == b"sc".as_slice()
        || letters == b"Cs".as_slice()
        || letters == b"sC".as_slice()
}

/// Whether a flag asks for two operands.
fn commutes(letters: &[u8]) -> bool
    ensures { result ≡ flag_rules.commutes letters.now }
{
    letters != b"s".as_slice()
}

/// Whether these flags may not stand on an operation of so many operands.
fn are_bad_flags(head: Head, letters: &[u8], count: usize) -> bool
    ensures { result ≡ flag_rules.are_bad_flags head letters.now count }
{
    is_use(head) || !are_flags(letters) || commutes(letters) && count != 2
}

/// The flags of an operation may stand there.
pub(crate) fn check_flags(
    source: &[u8],
    head: Head,
    label: Option<Span>,
    count: usize,
) -> Result<(), PatternFault>
    ensures { Judges (flag_rules.flags_fault source.now head label count) result }
{
    match label {
        Some(at) => {
            let is_bad = are_bad_flags(head, text(source, at), count);
            broken(is_bad, PatternKind::BadFlag, at)
        }
        None => Ok(()),
    }
}

/// Whether a capture stands on the pattern or on one that is reached from it through operations
/// with `?` alone, or one of these is the use of a predicate. A capture stands on itself.
#[cycle(flags)]
fn holds_capture(source: &[u8], known: &Known, own: Option<Own>, pattern: &PatternText) -> bool
    ensures { result ≡ flag_rules.holds_capture source.now known.now own (pattern_of pattern.now) }
{
    match pattern {
        PatternText::Capture(_) => true,
        PatternText::Predicate(at, capture) => {
            capture.is_some() || is_bare_use(source, known, own, text(source, *at))
        }
        PatternText::Operation(_, head, capture, operands) => {
            capture.is_some()
                || is_use(head_of(source, known, own, head))
                || head.marked.is_some() && hold_capture(source, known, own, operands.as_slice())
        }
    }
}

/// Whether that holds of one of these patterns.
#[cycle(flags)]
pub(crate) fn hold_capture(
    source: &[u8],
    known: &Known,
    own: Option<Own>,
    patterns: &[PatternText],
) -> bool
    ensures { result ≡ flag_rules.hold_capture source.now known.now own (operands (map pattern_of patterns.now)) }
{
    for pattern in patterns {
        if holds_capture(source, known, own, pattern) {
            return true;
        }
    }
    false
}
