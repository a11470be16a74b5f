//! The captures of a pattern, and how many operations it has.

ghost use Rattle.std.specs.Prelude.{◌≡◌, ◌++◌, ◌-◌, ◌+◌, ◌≤◌, length, map, nat_lt, IfOk};
ghost use Rattle.pd_forms.specs.Trees.{pattern_of, operands};
ghost use Rattle.pd_pattern_names.specs.Captures as capture_rules;

use crate::heads::{Head, Own, head_of, is_use};
use crate::known::Known;
use pd_forms::PatternText;
use pd_text::Capture;
use pm_items::Items;
use pm_ops::OutOfMemory;
use pm_places::{Span, text};
use std::alloc::Global;

/// A name without a `@` before it.
fn after_mark(name: &[u8]) -> &[u8]
    ensures { result.now ≡ capture_rules.after_mark name.now }
{
    match name {
        [first, rest @ ..] if *first == b'@' => rest,
        _ => name,
    }
}

/// The name of a capture, without its `@` or `@@`.
fn capture_name(source: &[u8], at: Span) -> &[u8]
    ensures { result.now ≡ capture_rules.capture_name source.now at }
{
    after_mark(after_mark(text(source, at)))
}

/// Whether one of these captures has the name of this one.
pub fn is_bound(source: &[u8], captures: &[Span], at: Span) -> bool
    ensures { result ≡ capture_rules.is_bound source.now captures.now at }
{
    captures.iter().any(|one| capture_name(source, *one) == capture_name(source, at))
}

/// How many names these captures have.
pub fn count_names(source: &[u8], captures: &[Span]) -> usize
    ensures { result ≡ capture_rules.count_names source.now captures.now }
{
    let mut count = 0;
    let mut rest = captures;
    while let [first, after @ ..] = rest {
        if !is_bound(source, after, *first) {
            count += 1;
        }
        rest = after;
    }
    count
}

/// A capture is noted where there is one.
fn note_capture(capture: Option<Capture>, noted: &mut Items<Span>) -> Result<(), OutOfMemory>
    ensures { IfOk result (λ _. noted.new ≡ noted.old ++ capture_rules.of_capture capture) }
{
    if let Some(one) = capture {
        noted.push(one.at)?;
    }
    Ok(())
}

/// The captures of a pattern are noted, in the order of the text.
#[cycle(captures)]
#[tactic(auto, using(std::proofs::lemmas::List::append_assoc))]
fn note_captures(pattern: &PatternText, noted: &mut Items<Span>) -> Result<(), OutOfMemory>
    ensures { IfOk result (λ _. noted.new ≡ noted.old ++ capture_rules.captures_of (pattern_of pattern.now)) }
{
    match pattern {
        PatternText::Capture(one) => note_capture(Some(*one), noted),
        PatternText::Predicate(_, capture) => note_capture(*capture, noted),
        PatternText::Operation(_, _, capture, patterns) => {
            note_capture(*capture, noted)?;
            note_all(patterns.as_slice(), noted)
        }
    }
}

/// The captures of these patterns are noted.
#[cycle(captures)]
#[tactic(auto, using(std::proofs::lemmas::List::append_assoc))]
fn note_all(patterns: &[PatternText], noted: &mut Items<Span>) -> Result<(), OutOfMemory>
    ensures { IfOk result (λ _. noted.new ≡ noted.old ++ capture_rules.captures_among (operands (map pattern_of patterns.now))) }
{
    for pattern in patterns {
        note_captures(pattern, noted)?;
    }
    Ok(())
}

/// The places of the captures of a pattern, in the order of the text.
pub fn captures_of(alloc: Global, pattern: &PatternText) -> Result<Items<Span>, OutOfMemory>
    ensures { IfOk result (λ x. x ≡ capture_rules.captures_of (pattern_of pattern.now)) }
{
    let mut noted = Items::new(alloc);
    note_captures(pattern, &mut noted)?;
    Ok(noted)
}

/// How many operations more there may be after a head: uses of predicates don't count.
fn room_after_head(head: Head, room: usize) -> usize
    ensures { result ≡ room - capture_rules.counted head }
{
    if is_use(head) {
        room
    } else {
        room.saturating_sub(1)
    }
}

/// How many operations more there may be after those of a pattern, none where it has too many.
#[cycle(nodes)]
fn room_after(
    source: &[u8],
    known: &Known,
    own: Option<Own>,
    pattern: &PatternText,
    room: usize,
) -> usize
    ensures { result ≡ room - capture_rules.nodes_of source.now known.now own (pattern_of pattern.now) }
{
    match pattern {
        PatternText::Operation(_, head, _, patterns) => {
            let left = room_after_head(head_of(source, known, own, head), room);
            room_after_all(source, known, own, patterns.as_slice(), left)
        }
        _ => room,
    }
}

/// How many operations more there may be after those of these patterns.
#[cycle(nodes)]
fn room_after_all(
    source: &[u8],
    known: &Known,
    own: Option<Own>,
    patterns: &[PatternText],
    room: usize,
) -> usize
    ensures { result ≡ room - capture_rules.nodes_among source.now known.now own (operands (map pattern_of patterns.now)) }
{
    let mut left = room;
    for pattern in patterns {
        left = room_after(source, known, own, pattern, left);
    }
    left
}

/// Whether a pattern has more operations than it may have.
#[tactic(auto, using(crate::proofs::Counts::over))]
pub fn has_many_nodes(source: &[u8], known: &Known, own: Option<Own>, pattern: &PatternText) -> bool
    ensures { result ≡ nat_lt 32 (capture_rules.nodes_of source.now known.now own (pattern_of pattern.now)) }
{
    room_after(source, known, own, pattern, 33) == 0
}
