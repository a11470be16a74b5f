//! What keeps a pattern from being expanded into its orders.
ghost use Rattle.std.specs.Prelude.{◌≡◌, length};
ghost use Rattle.commute_expand.specs.Faults.{commute_fault, too_many};
ghost use Rattle.commute_expand.specs.Orders.{orders};

use crate::marks::{first_wrong_mark, marks};
use pd_ast::Pat;
use pm_ops::{PatternFault, PatternKind};

/// How many marks a pattern may have: each doubles its orders, of which there may be 65,536.
const MARKS: u64 = 16;

/// The first wrong mark, or else too many rows.
pub fn commute_fault(pattern: &Pat) -> Option<PatternFault>
    ensures { result ≡ commute_fault pattern.now }
{
    match first_wrong_mark(pattern) {
        Some(fault) => Some(fault),
        None => too_many(pattern),
    }
}

/// Whether a pattern has too many orders, which are counted and not made.
#[tactic(auto, using(crate::proofs::Counted::few, crate::proofs::Counted::many))]
fn too_many(pattern: &Pat) -> Option<PatternFault>
    ensures { result ≡ too_many (length (orders pattern.now)) }
{
    if marks(pattern) <= MARKS {
        return None;
    }
    Some(PatternFault {
        kind: PatternKind::TooManyRows,
        at: 0,
        len: 0,
    })
}
