//! Test rows tried one after another.
ghost use Rattle.std.specs.Prelude.{◌≡◌, ◌≤◌, ◌+◌, IsTrue, drop, length};
ghost use Rattle.std.specs.List.{list_all};
ghost use Rattle.pattern_rows.specs.Counting.{counted};
ghost use Rattle.pattern_rows.specs.Found.{found, filled};
ghost use Rattle.tree_matcher.specs.Scanning.{first_found, passed_by, scanned, fits_caps};
ghost use Rattle.tree_matcher.specs.Looks.{tried, asked, looks, looks_in};

use pattern_rows::{Caps, Place, ProbeAt, Steps, Subject, TestRow};
use pm_ops::Text;

/// A scan: the least number above `after` of a row that holds of the subject, with its captures; `None`
/// exactly where no such row is there. Rows are numbered from 1.
///
/// Each test and each place of a capture is asked at most once, in order, and counts one step. Takes
/// no memory.
pub fn scan_match<S: Subject<L>, L>(
    rows: &[TestRow],
    subject: &S,
    after: Option<u32>,
    steps: &mut Steps<L>,
) -> Option<(u32, Caps)>
    requires few { length rows.now ≤ 65536 }
    requires fit { IsTrue (list_all fits_caps rows.now) }
    ensures answer { result ≡ scanned (S.holds subject.now) (S.operand_at subject.now)
        rows.now after }
    ensures count { steps.new ≡ counted steps.old
        (looks_in (S.holds subject.now) (S.operand_at subject.now)
        (drop (passed_by after) rows.now)) }
{
    let passed = match after {
        Some(number) => number as usize,
        None => 0,
    };
    if passed >= rows.len() {
        return None;
    }
    scan_behind(&rows[passed..], passed as u32, subject, steps)
}

/// Whether each row has at most 32 captures, as a scan asks.
pub fn rows_fit(rows: &[TestRow]) -> bool
    ensures { result ≡ list_all fits_caps rows.now }
{
    rows.iter().all(|row| row.holes.len() < 33)
}

/// The same over the rows behind a number.
#[tactic(auto, using(crate::proofs::Counts::counted_sum, crate::proofs::Counts::counted_no_more))]
fn scan_behind<S: Subject<L>, L>(
    rows: &[TestRow],
    passed: u32,
    subject: &S,
    steps: &mut Steps<L>,
) -> Option<(u32, Caps)>
    requires few { passed + length rows.now ≤ 65536 }
    requires fit { IsTrue (list_all fits_caps rows.now) }
    ensures answer { result ≡ first_found (S.holds subject.now) (S.operand_at subject.now)
        passed rows.now }
    ensures count { steps.new ≡ counted steps.old
        (looks_in (S.holds subject.now) (S.operand_at subject.now) rows.now) }
{
    for (i, row) in rows.iter().enumerate() {
        if let Some(caps) = captures_of(row, subject, steps) {
            return Some((passed + i as u32 + 1, caps));
        }
    }
    None
}

/// The captures of a row, where it holds.
#[tactic(auto, using(crate::proofs::Counts::counted_sum, crate::proofs::Counts::counted_no_more))]
fn captures_of<S: Subject<L>, L>(row: &TestRow, subject: &S, steps: &mut Steps<L>) -> Option<Caps>
    requires { IsTrue (fits_caps row.now) }
    ensures answer { result ≡ found (S.holds subject.now) (S.operand_at subject.now) row.now }
    ensures count { steps.new ≡ counted steps.old
        (looks (S.holds subject.now) (S.operand_at subject.now) row.now) }
{
    if !all_hold(row.tests.as_slice(), subject, steps) {
        return None;
    }
    captures_at(row.holes.as_slice(), subject, steps)
}

/// Whether all tests hold. The first that doesn't is the last to be tried.
fn all_hold<S: Subject<L>, L>(tests: &[ProbeAt], subject: &S, steps: &mut Steps<L>) -> bool
    ensures answer { result ≡ list_all (S.holds subject.now) tests.now }
    ensures count { steps.new ≡ counted steps.old (tried (S.holds subject.now) tests.now) }
{
    for test in tests {
        if !subject.test(test, steps) {
            return false;
        }
    }
    true
}

/// The operands at the places of captures, where each has one. The first that hasn't is the last to
/// be asked.
#[tactic(auto, using(crate::proofs::Slots::filled_next))]
fn captures_at<S: Subject<L>, L>(
    holes: &[(Text, Place)],
    subject: &S,
    steps: &mut Steps<L>,
) -> Option<Caps>
    requires { length holes.now ≤ 32 }
    ensures answer { result ≡ filled (S.operand_at subject.now) holes.now }
    ensures count { steps.new ≡ counted steps.old (asked (S.operand_at subject.now) holes.now) }
{
    let mut slots = [None; 32];
    for (i, hole) in holes.iter().enumerate() {
        slots[i] = Some(subject.operand(&hole.1, steps)?);
    }
    Some(Caps { slots })
}
