//! Rows and cases whose uses are all inlined.
ghost use Rattle.std.specs.Prelude.{◌≡◌, IfOk};
ghost use Rattle.pred_inline.specs.Inlined.{all_before, all_round, before, behind, case_finished};
ghost use Rattle.pred_inline.specs.Inlined.{inside, result_changed, round, row_finished};
ghost use Rattle.pred_inline.specs.Inlined.{tail_changed};

use crate::case::Case;
use crate::opened::{Opened, only};
use pattern_uses::copied_decls;
use pd_ast::{Out, PredRow, Row, Tail};
use pd_substitution::{Renamed, result_with, tail_with};
use pm_items::Shared;
use pm_ops::OutOfMemory;
use std::alloc::Global;

/// A row, so many of whose conditions stand outside.
pub fn row_finished(
    alloc: Global,
    row: &Row,
    conditions: usize,
    done: Opened,
) -> Result<Row, OutOfMemory>
    ensures { IfOk result (λ made. made ≡ row_finished row.now conditions done) }
{
    let gives = result_changed(alloc, done.changes.as_slice(), &row.result)?;
    Ok(Row {
        at: row.at,
        result: inside(alloc, conditions, &gives, done.tails.as_slice())?,
        pattern: done.pattern,
    })
}

/// A case of a predicate, so many of whose conditions stand outside.
pub fn case_finished(
    alloc: Global,
    case: &Case,
    conditions: usize,
    done: Opened,
) -> Result<Case, OutOfMemory>
    ensures { IfOk result (λ made. made ≡ case_finished case.now conditions done) }
{
    let last = tail_changed(alloc, done.changes.as_slice(), &case.row.tail)?;
    let tail = behind(alloc, conditions, &last, done.tails.as_slice())?;
    Ok(Case {
        params: done.params,
        same: done.same,
        row: PredRow {
            at: case.row.at,
            pattern: done.pattern,
            tail,
        },
    })
}

/// A result with the changes of its row made.
fn result_changed(
    alloc: Global,
    changes: &[Renamed],
    gives: &Shared<Out>,
) -> Result<Shared<Out>, OutOfMemory>
    ensures { IfOk result (λ made. made ≡ result_changed changes.now gives.now) }
{
    let mut made = gives.share()?;
    for one in changes {
        let by = only(alloc, one)?;
        made = result_with(alloc, &by, &made)?;
    }
    Ok(made)
}

fn tail_changed(
    alloc: Global,
    changes: &[Renamed],
    rest: &Shared<Tail>,
) -> Result<Shared<Tail>, OutOfMemory>
    ensures { IfOk result (λ made. made ≡ tail_changed changes.now rest.now) }
{
    let mut made = rest.share()?;
    for one in changes {
        let by = only(alloc, one)?;
        made = tail_with(alloc, &by, &made)?;
    }
    Ok(made)
}

/// The ends of cases inside so many conditions, which stand outside.
#[tactic(auto, using(crate::proofs::Outside::inside_none, crate::proofs::Outside::inside_some))]
fn inside(
    alloc: Global,
    conditions: usize,
    gives: &Shared<Out>,
    tails: &[Shared<Tail>],
) -> Result<Shared<Out>, OutOfMemory>
    ensures { IfOk result (λ made. made ≡ inside conditions tails.now gives.now) }
{
    if conditions == 0 {
        return all_round(alloc, tails, gives);
    }
    match gives.get() {
        Out::If(when, inner, None) => {
            let inner = inside(alloc, conditions - 1, inner, tails)?;
            Ok(Shared::new(alloc, Out::If(when.copy(alloc)?, inner, None))?)
        }
        Out::If(_, _, Some(_)) | Out::Hole(_) | Out::Brace(_) => all_round(alloc, tails, gives),
        Out::Node(_) | Out::Switch(_, _) | Out::With(_, _) => all_round(alloc, tails, gives),
    }
}

/// The ends of cases round a result, the first one outside.
fn all_round(
    alloc: Global,
    tails: &[Shared<Tail>],
    gives: &Shared<Out>,
) -> Result<Shared<Out>, OutOfMemory>
    ensures { IfOk result (λ made. made ≡ all_round tails.now gives.now) }
{
    match tails {
        [] => Ok(gives.share()?),
        [rest, behind @ ..] => {
            let inner = all_round(alloc, behind, gives)?;
            round(alloc, rest.get(), inner)
        }
    }
}

fn round(alloc: Global, rest: &Tail, gives: Shared<Out>) -> Result<Shared<Out>, OutOfMemory>
    ensures { IfOk result (λ made. made ≡ round rest.now gives) }
{
    match rest {
        Tail::Done => Ok(gives),
        Tail::If(when, rest) => {
            let inner = round(alloc, rest.get(), gives)?;
            Ok(Shared::new(alloc, Out::If(when.copy(alloc)?, inner, None))?)
        }
        Tail::With(decls, rest) => {
            let inner = round(alloc, rest.get(), gives)?;
            let decls = copied_decls(alloc, decls.as_slice())?;
            Ok(Shared::new(alloc, Out::With(decls, inner))?)
        }
    }
}

/// The ends of cases behind so many conditions of another end, and before the rest of it.
#[tactic(auto, using(crate::proofs::Outside::behind_none, crate::proofs::Outside::behind_some))]
fn behind(
    alloc: Global,
    conditions: usize,
    last: &Shared<Tail>,
    tails: &[Shared<Tail>],
) -> Result<Shared<Tail>, OutOfMemory>
    ensures { IfOk result (λ made. made ≡ behind conditions tails.now last.now) }
{
    if conditions == 0 {
        return all_before(alloc, tails, last);
    }
    match last.get() {
        Tail::If(when, rest) => {
            let rest = behind(alloc, conditions - 1, rest, tails)?;
            Ok(Shared::new(alloc, Tail::If(when.copy(alloc)?, rest))?)
        }
        Tail::Done | Tail::With(_, _) => all_before(alloc, tails, last),
    }
}

/// The ends of cases before another end, the first one first.
fn all_before(
    alloc: Global,
    tails: &[Shared<Tail>],
    last: &Shared<Tail>,
) -> Result<Shared<Tail>, OutOfMemory>
    ensures { IfOk result (λ made. made ≡ all_before tails.now last.now) }
{
    match tails {
        [] => Ok(last.share()?),
        [rest, behind @ ..] => {
            let inner = all_before(alloc, behind, last)?;
            before(alloc, rest.get(), inner)
        }
    }
}

fn before(alloc: Global, rest: &Tail, last: Shared<Tail>) -> Result<Shared<Tail>, OutOfMemory>
    ensures { IfOk result (λ made. made ≡ before rest.now last) }
{
    match rest {
        Tail::Done => Ok(last),
        Tail::If(when, rest) => {
            let inner = before(alloc, rest.get(), last)?;
            Ok(Shared::new(alloc, Tail::If(when.copy(alloc)?, inner))?)
        }
        Tail::With(decls, rest) => {
            let inner = before(alloc, rest.get(), last)?;
            let decls = copied_decls(alloc, decls.as_slice())?;
            Ok(Shared::new(alloc, Tail::With(decls, inner))?)
        }
    }
}
