//! What keeps a row or a case from being inlined.
ghost use Rattle.std.specs.Prelude.{◌≡◌, length, map, IfOk};
ghost use Rattle.pattern_uses.specs.Counts.{operations};
ghost use Rattle.pred_inline.specs.Faults.{captures_fault, limit_fault, many_fault, operations_fault};
ghost use Rattle.pred_inline.specs.Inlined.{cases_named, choices};

use crate::case::Predicate;
use crate::choices::choice_count;
use pattern_uses::{capture_count, operations};
use pd_ast::Pat;
use pm_ops::{OutOfMemory, PatternFault, PatternKind, Text};
use std::alloc::Global;

/// How many rows one row may have.
const ROWS: u64 = 65_536;

/// How many captures a row may have, and how many operations its pattern.
const CAPTURES: usize = 32;

const OPERATIONS: u64 = 32;

/// Too many choices of a case of each of these predicates, at the `(` of the form.
#[tactic(auto, using(crate::proofs::Limits::few, crate::proofs::Limits::many))]
pub fn many_fault(at: usize, preds: &[Predicate], names: &[Text]) -> Option<PatternFault>
    ensures { result ≡
        many_fault at (length (choices (map (cases_named preds.now) names.now))) }
{
    if choice_count(preds, names) <= ROWS {
        return None;
    }
    Some(PatternFault {
        kind: PatternKind::TooManyRows,
        at,
        len: 1,
    })
}

/// Too many captures, or else too many operations, at the `(` of the form.
pub fn limit_fault(
    alloc: Global,
    at: usize,
    pattern: &Pat,
) -> Result<Option<PatternFault>, OutOfMemory>
    ensures { IfOk result (λ fault. fault ≡ limit_fault at pattern.now) }
{
    match captures_fault(at, capture_count(alloc, pattern)?) {
        Some(fault) => Ok(Some(fault)),
        None => Ok(operations_fault(at, pattern)),
    }
}

#[tactic(auto, using(crate::proofs::Limits::few, crate::proofs::Limits::many))]
fn captures_fault(at: usize, count: usize) -> Option<PatternFault>
    ensures { result ≡ captures_fault at count }
{
    if count <= CAPTURES {
        return None;
    }
    Some(PatternFault {
        kind: PatternKind::TooManyCaptures,
        at,
        len: 1,
    })
}

#[tactic(auto, using(crate::proofs::Limits::few, crate::proofs::Limits::many))]
fn operations_fault(at: usize, pattern: &Pat) -> Option<PatternFault>
    ensures { result ≡ operations_fault at (operations pattern.now) }
{
    if operations(pattern) <= OPERATIONS {
        return None;
    }
    Some(PatternFault {
        kind: PatternKind::TooManyNodes,
        at,
        len: 1,
    })
}
