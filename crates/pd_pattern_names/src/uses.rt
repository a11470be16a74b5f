//! Where a pattern uses predicates of the file, and which parameters of a case are free.

ghost use Rattle.std.specs.Prelude.{◌≡◌, ◌++◌, map, IfOk};
ghost use Rattle.pd_forms.specs.Trees.{pattern_of, operands};
ghost use Rattle.pd_pattern_names.specs.Uses as use_rules;

use crate::captures::is_bound;
use crate::heads::{Own, head_of, is_bare_use, is_use};
use crate::known::{Known, is_free};
use pd_forms::{HeadText, PatternText};
use pd_text::Capture;
use pm_items::Items;
use pm_ops::OutOfMemory;
use pm_places::{Span, text};

/// A place is noted if it is a use.
fn note_if(is: bool, at: Span, noted: &mut Items<Span>) -> Result<(), OutOfMemory>
    ensures { IfOk result (λ _. noted.new ≡ noted.old ++ use_rules.if_used is at) }
{
    if is {
        noted.push(at)?;
    }
    Ok(())
}

/// The names are noted by which a pattern uses predicates of the file.
#[cycle(uses)]
#[tactic(auto, using(std::proofs::lemmas::List::append_assoc))]
pub fn note_uses(
    source: &[u8],
    known: &Known,
    own: Option<Own>,
    pattern: &PatternText,
    noted: &mut Items<Span>,
) -> Result<(), OutOfMemory>
    ensures { IfOk result (λ _. noted.new ≡ noted.old ++ use_rules.uses_of source.now known.now own (pattern_of pattern.now)) }
{
    match pattern {
        PatternText::Capture(_) => Ok(()),
        PatternText::Predicate(at, _) => {
            let is = is_bare_use(source, known, own, text(source, *at));
            note_if(is, *at, noted)
        }
        PatternText::Operation(_, head, _, patterns) => {
            let is = is_use(head_of(source, known, own, head));
            note_if(is, head.name, noted)?;
            note_all(source, known, own, patterns.as_slice(), noted)
        }
    }
}

/// The same of these patterns.
#[cycle(uses)]
#[tactic(auto, using(std::proofs::lemmas::List::append_assoc))]
fn note_all(
    source: &[u8],
    known: &Known,
    own: Option<Own>,
    patterns: &[PatternText],
    noted: &mut Items<Span>,
) -> Result<(), OutOfMemory>
    ensures { IfOk result (λ _. noted.new ≡ noted.old ++ use_rules.uses_among source.now known.now own (operands (map pattern_of patterns.now))) }
{
    for pattern in patterns {
        note_uses(source, known, own, pattern, noted)?;
    }
    Ok(())
}

/// Whether the capture of a pattern is this parameter.
fn stands_on(source: &[u8], parameter: Span, capture: Option<Capture>) -> bool
    ensures { result ≡ use_rules.stands_on source.now parameter capture }
{
    match capture {
        Some(one) => is_bound(source, &[one.at], parameter),
        None => false,
    }
}

/// Whether a pattern is this parameter as a plain capture.
fn is_plain(source: &[u8], parameter: Span, pattern: &PatternText) -> bool
    ensures { result ≡ use_rules.is_plain source.now parameter (pattern_of pattern.now) }
{
    match pattern {
        PatternText::Capture(one) => stands_on(source, parameter, Some(*one)),
        _ => false,
    }
}

/// Whether a parameter stands among these arguments of a predicate for free ones alone.
fn stands_for_free(
    source: &[u8],
    known: &Known,
    parameter: Span,
    callee: &[u8],
    arguments: &[PatternText],
) -> bool
    ensures { result ≡ use_rules.stands_for_free source.now known.now.cases parameter callee.now 0 (operands (map pattern_of arguments.now)) }
{
    for (place, argument) in arguments.iter().enumerate() {
        let is = is_plain(source, parameter, argument);
        if is && !is_free(source, known.cases.as_slice(), callee, place) {
            return false;
        }
    }
    true
}

/// Whether a parameter stands for free ones alone where these are the arguments of a predicate.
fn is_passed_free(
    source: &[u8],
    known: &Known,
    own: Option<Own>,
    parameter: Span,
    head: &HeadText,
    patterns: &[PatternText],
) -> bool
    ensures { result ≡ use_rules.is_passed_free source.now known.now own parameter head.now (operands (map pattern_of patterns.now)) }
{
    if is_use(head_of(source, known, own, head)) {
        stands_for_free(source, known, parameter, text(source, head.name), patterns)
    } else {
        true
    }
}

/// Whether a parameter of a case is free in its pattern.
#[cycle(freedom)]
pub fn is_free_in(
    source: &[u8],
    known: &Known,
    own: Option<Own>,
    parameter: Span,
    pattern: &PatternText,
) -> bool
    ensures { result ≡ use_rules.is_free_in source.now known.now own parameter (pattern_of pattern.now) }
{
    match pattern {
        PatternText::Capture(_) => true,
        PatternText::Predicate(_, capture) => !stands_on(source, parameter, *capture),
        PatternText::Operation(_, head, capture, patterns) => {
            !stands_on(source, parameter, *capture)
                && is_passed_free(source, known, own, parameter, head, patterns.as_slice())
                && is_free_among(source, known, own, parameter, patterns.as_slice())
        }
    }
}

/// The same of these patterns.
#[cycle(freedom)]
fn is_free_among(
    source: &[u8],
    known: &Known,
    own: Option<Own>,
    parameter: Span,
    patterns: &[PatternText],
) -> bool
    ensures { result ≡ use_rules.is_free_among source.now known.now own parameter (operands (map pattern_of patterns.now)) }
{
    for pattern in patterns {
        if !is_free_in(source, known, own, parameter, pattern) {
            return false;
        }
    }
    true
}
