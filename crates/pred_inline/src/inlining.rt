//! Rows and cases without uses of predicates.
ghost use Rattle.std.specs.Prelude.{◌≡◌, map, IfOk};
ghost use Rattle.pm_places.specs.FirstFaults.{or_fault};
ghost use Rattle.commute_expand.specs.Faults.{Judges};
ghost use Rattle.pred_inline.specs.Faults.{cases_fault, cases_limit, rows_fault, rows_limit};
ghost use Rattle.pred_inline.specs.Inlined.{all_inlined, begun, case_by, cases_inlined, row_by};
ghost use Rattle.pred_inline.specs.Inlined.{cases_named, choices, rows_inlined};

use crate::case::{Case, Pair, Predicate};
use crate::choices::choices;
use crate::faults::{limit_fault, many_fault};
use crate::finishing::{case_finished, row_finished};
use crate::one_use::one_inlined;
use crate::opened::Opened;
use pattern_uses::{copied_names, labels, taken, used_predicates};
use pd_ast::{Pat, Row};
use pm_items::{Items, Shared};
use pm_ops::{OutOfMemory, PatternFault, Text};
use std::alloc::Global;

/// The rows of a row by the cases of the predicates that it uses: a case for each use, an earlier
/// use slower than a later one. So many conditions of its result stand outside of the ends of the
/// cases.
///
/// `TooManyRows` comes first, exactly where there would be more than 65,536 rows. Then comes the
/// first row with more than 32 captures (`TooManyCaptures`) or 32 operations (`TooManyNodes`), in
/// this order. All stand at the `(` of the form.
pub fn inline(
    alloc: Global,
    row: &Row,
    conditions: usize,
    preds: &[Predicate],
) -> Result<Items<Row>, PatternFault>
    ensures fault { Judges (rows_fault preds.now row.now conditions) result }
    ensures value { IfOk result (λ made. made ≡ rows_inlined preds.now row.now conditions) }
{
    let names = used_predicates(alloc, row.pattern.get())?;
    let fault = many_fault(row.at, preds, names.as_slice());
    rows_unless(alloc, fault, row, conditions, preds, names.as_slice())
}

fn rows_unless(
    alloc: Global,
    fault: Option<PatternFault>,
    row: &Row,
    conditions: usize,
    preds: &[Predicate],
    names: &[Text],
) -> Result<Items<Row>, PatternFault>
    ensures fault { Judges (or_fault fault
        (rows_limit row.now conditions (choices (map (cases_named preds.now) names.now)))) result }
    ensures value { IfOk result (λ made. made ≡
        map (row_by row.now conditions) (choices (map (cases_named preds.now) names.now))) }
{
    match fault {
        Some(fault) => Err(fault),
        None => {
            let choices = choices(alloc, preds, names)?;
            rows_by(alloc, row, conditions, choices.as_slice())
        }
    }
}

fn rows_by(
    alloc: Global,
    row: &Row,
    conditions: usize,
    choices: &[Items<Shared<Case>>],
) -> Result<Items<Row>, PatternFault>
    ensures fault { Judges (rows_limit row.now conditions choices.now) result }
    ensures value { IfOk result (λ made. made ≡ map (row_by row.now conditions) choices.now) }
{
    let mut made = Items::new(alloc);
    for cases in choices {
        let one = row_by(alloc, row, conditions, cases.as_slice())?;
        if let Some(fault) = limit_fault(alloc, row.at, one.pattern.get())? {
            return Err(fault);
        }
        made.push(one)?;
    }
    Ok(made)
}

#[tactic(auto, unfolding(crate::specs::Inlined::row_by))]
fn row_by(
    alloc: Global,
    row: &Row,
    conditions: usize,
    cases: &[Shared<Case>],
) -> Result<Row, OutOfMemory>
    ensures { IfOk result (λ made. made ≡ row_by row.now conditions cases.now) }
{
    let open = begun(alloc, &row.pattern, Items::new(alloc), Items::new(alloc))?;
    row_finished(alloc, row, conditions, all_inlined(alloc, cases, open)?)
}

/// The cases of a case by the cases of the predicates that it uses, in the same order and with the
/// same faults. So many conditions of its end stand outside of the ends of those cases.
pub fn inline_case(
    alloc: Global,
    case: &Case,
    conditions: usize,
    preds: &[Predicate],
) -> Result<Items<Case>, PatternFault>
    ensures fault { Judges (cases_fault preds.now case.now conditions) result }
    ensures value { IfOk result (λ made. made ≡ cases_inlined preds.now case.now conditions) }
{
    let names = used_predicates(alloc, case.row.pattern.get())?;
    let fault = many_fault(case.row.at, preds, names.as_slice());
    cases_unless(alloc, fault, case, conditions, preds, names.as_slice())
}

fn cases_unless(
    alloc: Global,
    fault: Option<PatternFault>,
    case: &Case,
    conditions: usize,
    preds: &[Predicate],
    names: &[Text],
) -> Result<Items<Case>, PatternFault>
    ensures fault { Judges (or_fault fault
        (cases_limit case.now conditions (choices (map (cases_named preds.now) names.now)))) result }
    ensures value { IfOk result (λ made. made ≡
        map (case_by case.now conditions) (choices (map (cases_named preds.now) names.now))) }
{
    match fault {
        Some(fault) => Err(fault),
        None => {
            let choices = choices(alloc, preds, names)?;
            cases_by(alloc, case, conditions, choices.as_slice())
        }
    }
}

fn cases_by(
    alloc: Global,
    case: &Case,
    conditions: usize,
    choices: &[Items<Shared<Case>>],
) -> Result<Items<Case>, PatternFault>
    ensures fault { Judges (cases_limit case.now conditions choices.now) result }
    ensures value { IfOk result (λ made. made ≡ map (case_by case.now conditions) choices.now) }
{
    let mut made = Items::new(alloc);
    for cases in choices {
        let one = case_by(alloc, case, conditions, cases.as_slice())?;
        if let Some(fault) = limit_fault(alloc, case.row.at, one.row.pattern.get())? {
            return Err(fault);
        }
        made.push(one)?;
    }
    Ok(made)
}

#[tactic(auto, unfolding(crate::specs::Inlined::case_by))]
fn case_by(
    alloc: Global,
    case: &Case,
    conditions: usize,
    cases: &[Shared<Case>],
) -> Result<Case, OutOfMemory>
    ensures { IfOk result (λ made. made ≡ case_by case.now conditions cases.now) }
{
    let params = copied_names(alloc, case.params.as_slice())?;
    let same = copied_pairs(alloc, case.same.as_slice())?;
    let open = begun(alloc, &case.row.pattern, params, same)?;
    case_finished(alloc, case, conditions, all_inlined(alloc, cases, open)?)
}

fn copied_pairs(alloc: Global, pairs: &[Pair]) -> Result<Items<Pair>, OutOfMemory>
    ensures { IfOk result (λ made. made ≡ pairs.now) }
{
    let mut made = Items::new(alloc);
    for pair in pairs {
        made.push(Pair {
            first: pair.first.copy(alloc)?,
            second: pair.second.copy(alloc)?,
        })?;
    }
    Ok(made)
}

/// A row whose uses are taken out.
fn begun(
    alloc: Global,
    pattern: &Shared<Pat>,
    params: Items<Text>,
    same: Items<Pair>,
) -> Result<Opened, OutOfMemory>
    ensures { IfOk result (λ made. made ≡ begun pattern.now params same) }
{
    let names = used_predicates(alloc, pattern.get())?;
    let names = labels(alloc, names.as_slice())?;
    let out = taken(alloc, pattern.get(), names.as_slice())?;
    Ok(Opened {
        pattern: out.pattern,
        args: Items::new(alloc),
        uses: out.uses,
        tails: Items::new(alloc),
        changes: Items::new(alloc),
        params,
        same,
    })
}

/// The uses inlined by these cases, one after the other.
fn all_inlined(alloc: Global, cases: &[Shared<Case>], row: Opened) -> Result<Opened, OutOfMemory>
    ensures { IfOk result (λ made. made ≡ all_inlined 0 cases.now row) }
{
    let mut made = row;
    for i in 0..cases.len() {
        made = one_inlined(alloc, i, cases[i].get(), made)?;
    }
    Ok(made)
}
