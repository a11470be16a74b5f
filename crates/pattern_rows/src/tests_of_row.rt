//! The test row of a pattern.
ghost use Rattle.std.specs.Prelude.{◌≡◌, ◌++◌, ◌∷◌, [], IsTrue, IfOk, OnOk};
ghost use Rattle.std.specs.List.{list_any};
ghost use Rattle.std.specs.Option.{option_copied};
ghost use Rattle.pattern_rows.specs.Patterns.{pattern_of, is_expanded};
ghost use Rattle.pattern_rows.specs.Places.{probe_at};
ghost use Rattle.pattern_rows.specs.TestRows.{test_row_of, row_of_spots, tests_at, hole_at};
ghost use Rattle.pattern_rows.specs.TestRows.{names as is_name, marks as is_mark, is_named, is_marked};
ghost use Rattle.pattern_rows.specs.TestRows.{first_place, head_probe, cap_probe, probes_at, stands_for};

use crate::row::{Place, Probe, ProbeAt, TestRow};
use crate::spot::{Head, Spot, spots_of_pattern};
use pd_ast::{Cap, Row};
use pm_items::Items;
use pm_ops::{OutOfMemory, Text};
use std::alloc::Global;

/// The test row of a row's pattern, in which no choice is left.
pub fn test_row(alloc: Global, row: &Row) -> Result<TestRow, OutOfMemory>
    requires { IsTrue (is_expanded (pattern_of row.now.pattern)) }
    ensures { IfOk result (λ tests. tests ≡ test_row_of (pattern_of row.now.pattern)) }
{
    let spots = spots_of_pattern(alloc, row.pattern.get())?;
    row_of(alloc, spots.as_slice())
}

/// The test row of these spots.
fn row_of(alloc: Global, spots: &[Spot]) -> Result<TestRow, OutOfMemory>
    ensures { IfOk result (λ row. row ≡ row_of_spots spots.now) }
{
    let mut tests = Items::new(alloc);
    let mut holes = Items::new(alloc);
    for (i, spot) in spots.iter().enumerate() {
        push_tests(alloc, spots, &spots[..i], spot, &mut tests)?;
        push_hole(alloc, spots, &spots[..i], spot, &mut holes)?;
    }
    Ok(TestRow { tests, holes })
}

/// Adds what a spot asks.
fn push_tests(
    alloc: Global,
    all: &[Spot],
    before: &[Spot],
    spot: &Spot,
    tests: &mut Items<ProbeAt>,
) -> Result<(), OutOfMemory>
    ensures { OnOk result (tests.new ≡ tests.old ++ tests_at all.now before.now spot.now) }
{
    push_head(alloc, &spot.place, spot.head, tests)?;
    if let Some(cap) = &spot.cap {
        push_again(alloc, all, before, &spot.place, cap, tests)?;
    }
    Ok(())
}

/// Adds the code or the predicate of a spot.
fn push_head(
    alloc: Global,
    place: &Place,
    head: Head,
    tests: &mut Items<ProbeAt>,
) -> Result<(), OutOfMemory>
    ensures { OnOk result (tests.new ≡ tests.old ++ probes_at place.now (head_probe head)) }
{
    match head {
        Head::Anything => Ok(()),
        Head::Code(code) => push_probe(alloc, place, Probe::IsCode(code), tests),
        Head::Pred(pred) => push_probe(alloc, place, Probe::Holds(pred), tests),
    }
}

/// Adds that a capture which occurred before finds the same operand again.
fn push_again(
    alloc: Global,
    all: &[Spot],
    before: &[Spot],
    place: &Place,
    cap: &Cap,
    tests: &mut Items<ProbeAt>,
) -> Result<(), OutOfMemory>
    ensures { OnOk result (tests.new ≡
        tests.old ++ probes_at place.now (cap_probe all.now before.now (Some cap.now))) }
{
    let Some(first) = first_named(before, &cap.name) else {
        return Ok(());
    };
    let first = first.copy(alloc)?;
    if has_mark(all, &cap.name) {
        push_probe(alloc, place, Probe::SameNumberAs(first), tests)
    } else {
        push_probe(alloc, place, Probe::SameAs(first), tests)
    }
}

/// Adds a test of a place.
fn push_probe(
    alloc: Global,
    place: &Place,
    probe: Probe,
    tests: &mut Items<ProbeAt>,
) -> Result<(), OutOfMemory>
    ensures { OnOk result (tests.new ≡ tests.old ++ probe_at place.now probe ∷ []) }
{
    let place = place.copy(alloc)?;
    tests.push(ProbeAt { place, probe })?;
    Ok(())
}

/// Adds the hole of a spot whose capture didn't occur before.
fn push_hole(
    alloc: Global,
    all: &[Spot],
    before: &[Spot],
    spot: &Spot,
    holes: &mut Items<(Text, Place)>,
) -> Result<(), OutOfMemory>
    ensures { OnOk result (holes.new ≡
        holes.old ++ hole_at all.now before.now spot.now.place spot.now.cap) }
{
    let Some(cap) = &spot.cap else {
        return Ok(());
    };
    if first_named(before, &cap.name).is_some() {
        return Ok(());
    }
    let name = cap.name.copy(alloc)?;
    let place = standing_for(all, &cap.name, &spot.place).copy(alloc)?;
    holes.push((name, place))?;
    Ok(())
}

/// The place that a capture stands for, where it occurs first at that place.
fn standing_for<'a>(all: &'a [Spot], name: &Text, first: &'a Place) -> &'a Place
    ensures { result.now ≡ stands_for all.now name.now first.now }
{
    match first_marked(all, name) {
        Some(place) => place,
        None => first,
    }
}

/// The place of the first spot with a capture of this name.
fn first_named<'a>(spots: &'a [Spot], name: &Text) -> Option<&'a Place>
    ensures { option_copied result ≡ first_place (is_named name.now) spots.now }
{
    for spot in spots {
        if names(name, &spot.cap) {
            return Some(&spot.place);
        }
    }
    None
}

/// The place of the first spot with a capture of this name that is written with `@@`.
fn first_marked<'a>(spots: &'a [Spot], name: &Text) -> Option<&'a Place>
    ensures { option_copied result ≡ first_place (is_marked name.now) spots.now }
{
    for spot in spots {
        if marks(name, &spot.cap) {
            return Some(&spot.place);
        }
    }
    None
}

/// Whether some capture of this name is written with `@@`.
fn has_mark(spots: &[Spot], name: &Text) -> bool
    ensures { result ≡ list_any (is_marked name.now) spots.now }
{
    spots.iter().any(|spot| marks(name, &spot.cap))
}

/// Whether a capture has this name.
fn names(name: &Text, cap: &Option<Cap>) -> bool
    ensures { result ≡ is_name name.now cap.now }
{
    match cap {
        Some(cap) => cap.name.bytes() == name.bytes(),
        None => false,
    }
}

/// Whether a capture has this name and is written with `@@`.
fn marks(name: &Text, cap: &Option<Cap>) -> bool
    ensures { result ≡ is_mark name.now cap.now }
{
    match cap {
        Some(cap) => cap.by_value && cap.name.bytes() == name.bytes(),
        None => false,
    }
}
