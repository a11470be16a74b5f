//! The order of statements: a name is taken only after the statement that assigns it.

ghost use Rattle.std.specs.Prelude.{◌≡◌, ◌==◌, ◌&&◌, List, ℕ, [], true, false, nat_eq, not, IfOk, MatchOption};
ghost use Rattle.std.specs.HashSet.{contains};
ghost use Rattle.gim_ast.specs.WellFormed.{all_distinct};
ghost use Rattle.first_gimple.specs.Rules.{has_number};
ghost use Rattle.first_gimple.specs.Tests.{is_known, line_holds, is_in_order};

use crate::draft::{Line, Taken};
use pm_ops::OutOfMemory;
use std::alloc::Global;
use std::collections::HashSet;

/// The numbers as a set, unless one of them comes again.
pub(crate) fn distinct_numbers(
    alloc: Global,
    numbers: &[u32],
) -> Result<Option<HashSet<u32>>, OutOfMemory>
    ensures { IfOk result (λ found. MatchOption found (all_distinct ◌==◌ numbers.now ≡ false) (λ set. (all_distinct ◌==◌ numbers.now ≡ true) × ((q : ℕ) → contains nat_eq set q ≡ has_number q numbers.now))) }
{
    let mut set = HashSet::new(alloc);
    let mut at = numbers.len();
    while at > 0 {
        at -= 1;
        if !set.insert(numbers[at])? {
            return Ok(None);
        }
    }
    Ok(Some(set))
}

/// Whether it is no name without a base, or one of these.
fn is_known(known: &HashSet<u32>, taken: &Taken) -> bool
    ensures { (names : List ℕ) → ((q : ℕ) → contains nat_eq known.now q ≡ has_number q names) → result ≡ is_known names taken.now }
{
    match taken {
        Taken::Local(version) => known.contains(version),
        Taken::Initial(_, _) | Taken::Literal(_) => true,
    }
}

/// Whether a statement takes only names that are assigned before, and assigns a declared one that is not.
fn line_holds(declared: &HashSet<u32>, known: &HashSet<u32>, line: &Line) -> bool
    ensures { (locals names : List ℕ) → ((q : ℕ) → contains nat_eq declared.now q ≡ has_number q locals) → ((q : ℕ) → contains nat_eq known.now q ≡ has_number q names) → result ≡ line_holds locals names line.now }
{
    is_known(known, &line.left)
        && is_known(known, &line.right)
        && declared.contains(&line.name)
        && !known.contains(&line.name)
}

/// Whether each statement holds after those before it, and what is returned is known after all of them.
pub(crate) fn is_in_order(
    alloc: Global,
    declared: &HashSet<u32>,
    lines: &[Line],
    end: &Taken,
) -> Result<bool, OutOfMemory>
    ensures { (locals : List ℕ) → ((q : ℕ) → contains nat_eq declared.now q ≡ has_number q locals) → IfOk result (λ holds. holds ≡ is_in_order locals [] lines.now end.now) }
{
    let mut known = HashSet::new(alloc);
    for line in lines {
        if !line_holds(declared, &known, line) {
            return Ok(false);
        }
        known.insert(line.name)?;
    }
    Ok(is_known(&known, end))
}
