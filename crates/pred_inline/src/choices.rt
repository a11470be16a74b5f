//! A choice of a case for each use.
ghost use Rattle.std.specs.Prelude.{◌≡◌, ◌-◌, ◌^◌, [], ◌∷◌, length, map, min, IfOk};
ghost use Rattle.std.specs.List.{flat_map};
ghost use Rattle.std.specs.Option.{option_copied};
ghost use Rattle.pred_inline.specs.Inlined.{before_each, cases_named, cases_or_none, choices};
ghost use Rattle.pred_inline.specs.Inlined.{counted_within, predicate_named};

use crate::case::{Case, Predicate};
use pm_items::{Items, Shared};
use pm_ops::{OutOfMemory, Text};
use std::alloc::Global;

/// The cases of the predicate of that name; none where there is no such predicate.
pub fn cases_named<'a>(preds: &'a [Predicate], name: &Text) -> &'a [Shared<Case>]
    ensures { result.now ≡ cases_named preds.now name.now }
{
    cases_or_none(predicate_named(preds, name))
}

/// The first predicate of that name.
fn predicate_named<'a>(preds: &'a [Predicate], name: &Text) -> Option<&'a Predicate>
    ensures { option_copied result ≡ predicate_named preds.now name.now }
{
    preds.iter().find(|one| one.name.bytes() == name.bytes())
}

fn cases_or_none<'a>(predicate: Option<&'a Predicate>) -> &'a [Shared<Case>]
    ensures { result.now ≡ cases_or_none (option_copied predicate.entry) }
{
    match predicate {
        Some(predicate) => predicate.cases.as_slice(),
        None => &[],
    }
}

/// How many choices there are of a case of each of these predicates. Stands still at 2^64 - 1.
#[tactic(auto, using(crate::proofs::Counted::all_counted))]
pub fn choice_count(preds: &[Predicate], names: &[Text]) -> u64
    ensures { result ≡ min (length (choices (map (cases_named preds.now) names.now))) (2 ^ 64 - 1) }
{
    counted_within(preds, names)
}

fn counted_within(preds: &[Predicate], names: &[Text]) -> u64
    ensures { result ≡ counted_within (map (cases_named preds.now) names.now) }
{
    match names {
        [] => 1,
        [name, rest @ ..] => {
            let cases = cases_named(preds, name).len() as u64;
            cases.saturating_mul(counted_within(preds, rest))
        }
    }
}

/// The choices of a case of each of these predicates, an earlier one slower than a later one. Where
/// one has no case, nothing is made of those behind it.
pub fn choices(
    alloc: Global,
    preds: &[Predicate],
    names: &[Text],
) -> Result<Items<Items<Shared<Case>>>, OutOfMemory>
    ensures { IfOk result (λ made. made ≡ choices (map (cases_named preds.now) names.now)) }
{
    match names {
        [] => no_choice(alloc),
        [name, rest @ ..] => {
            let cases = cases_named(preds, name);
            if cases.is_empty() {
                return Ok(Items::new(alloc));
            }
            let inner = choices(alloc, preds, rest)?;
            each_before(alloc, cases, inner.as_slice())
        }
    }
}

/// The one choice without a case.
fn no_choice(alloc: Global) -> Result<Items<Items<Shared<Case>>>, OutOfMemory>
    ensures { IfOk result (λ made. made ≡ [] ∷ []) }
{
    let mut made = Items::new(alloc);
    made.push(Items::new(alloc))?;
    Ok(made)
}

/// Each of these cases, before each of the inner choices.
fn each_before(
    alloc: Global,
    cases: &[Shared<Case>],
    inner: &[Items<Shared<Case>>],
) -> Result<Items<Items<Shared<Case>>>, OutOfMemory>
    ensures { IfOk result (λ made. made ≡ flat_map (before_each inner.now) cases.now) }
{
    let mut made = Items::new(alloc);
    for case in cases {
        made.append(before_each(alloc, case, inner)?)?;
    }
    Ok(made)
}

fn before_each(
    alloc: Global,
    case: &Shared<Case>,
    inner: &[Items<Shared<Case>>],
) -> Result<Items<Items<Shared<Case>>>, OutOfMemory>
    ensures { IfOk result (λ made. made ≡ before_each inner.now case.now) }
{
    let mut made = Items::new(alloc);
    for rest in inner {
        made.push(one_before(alloc, case, rest.as_slice())?)?;
    }
    Ok(made)
}

fn one_before(
    alloc: Global,
    case: &Shared<Case>,
    rest: &[Shared<Case>],
) -> Result<Items<Shared<Case>>, OutOfMemory>
    ensures { IfOk result (λ made. made ≡ case.now ∷ rest.now) }
{
    let mut made = Items::new(alloc);
    made.push(case.share()?)?;
    for one in rest {
        made.push(one.share()?)?;
    }
    Ok(made)
}
