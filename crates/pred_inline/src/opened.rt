//! A row or a case whose uses are inlined, and what is done to the whole of it.
ghost use Rattle.std.specs.Prelude.{◌≡◌, map, IfOk};
ghost use Rattle.pd_substitution.specs.Chosen.{name_with};
ghost use Rattle.pd_substitution.specs.Substituted.{pattern_with, tail_with};
ghost use Rattle.pred_inline.specs.Opened.{change, changed, changed_by, only, pair_with, stay_two};
ghost use Rattle.pred_inline.specs.Opened.{united, with_pair};

use crate::case::Pair;
use pattern_uses::is_among;
use pd_ast::{Pat, Tail};
use pd_substitution::{Renamed, Substitution, name_with, pattern_with, tail_with};
use pm_items::{Items, Shared};
use pm_ops::{OutOfMemory, Text};
use std::alloc::Global;

/// A row or a case, so many of whose uses are inlined.
#[derive(Debug, Drop)]
pub struct Opened {
    pub pattern: Shared<Pat>,
    /// The arguments of the use that is inlined.
    pub args: Items<Shared<Pat>>,
    /// Those of all uses, in preorder.
    pub uses: Items<Items<Shared<Pat>>>,
    /// The ends of the cases so far, in the order of their uses.
    pub tails: Items<Shared<Tail>>,
    /// What is still to be changed in the result or the end of the row.
    pub changes: Items<Renamed>,
    /// The parameters, where it is a case.
    pub params: Items<Text>,
    /// Parameters that stand for one and the same operand.
    pub same: Items<Pair>,
}

/// One capture called otherwise.
fn change(alloc: Global, from: &Text, to: &Text) -> Result<Renamed, OutOfMemory>
    ensures { IfOk result (λ made. made ≡ change from.now to.now) }
{
    Ok(Renamed {
        from: from.copy(alloc)?,
        to: to.copy(alloc)?,
        by_value: None,
    })
}

/// A substitution that renames one capture alone.
pub fn only(alloc: Global, one: &Renamed) -> Result<Substitution, OutOfMemory>
    ensures { IfOk result (λ made. made ≡ only one.now) }
{
    let mut captures = Items::new(alloc);
    captures.push(Renamed {
        from: one.from.copy(alloc)?,
        to: one.to.copy(alloc)?,
        by_value: one.by_value,
    })?;
    Ok(Substitution {
        names: Shared::new(alloc, Items::new(alloc))?,
        entries: Items::new(alloc),
        captures,
        prefix: None,
        subject: None,
    })
}

/// Two captures become one: the first is called as the second in the whole row.
#[tactic(auto, unfolding(crate::specs::Opened::united))]
pub fn united(
    alloc: Global,
    first: &Text,
    second: &Text,
    row: Opened,
) -> Result<Opened, OutOfMemory>
    ensures { IfOk result (λ made. made ≡ united first.now second.now row) }
{
    if first.bytes() == second.bytes() {
        return Ok(row);
    }
    changed(alloc, change(alloc, first, second)?, row)
}

/// Whether two names are different parameters of the case that is expanded.
pub fn stay_two(params: &[Text], first: &Text, second: &Text) -> bool
    ensures { result ≡ stay_two params.now first.now second.now }
{
    first.bytes() != second.bytes() && is_among(first, params) && is_among(second, params)
}

/// The row with one more pair of parameters that stand for one and the same operand.
#[tactic(auto, unfolding(crate::specs::Opened::with_pair))]
pub fn with_pair(
    alloc: Global,
    first: &Text,
    second: &Text,
    row: Opened,
) -> Result<Opened, OutOfMemory>
    ensures { IfOk result (λ made. made ≡ with_pair first.now second.now row) }
{
    let mut same = row.same;
    same.push(Pair {
        first: first.copy(alloc)?,
        second: second.copy(alloc)?,
    })?;
    Ok(Opened {
        pattern: row.pattern,
        args: row.args,
        uses: row.uses,
        tails: row.tails,
        changes: row.changes,
        params: row.params,
        same,
    })
}

/// The whole row with a change made, but for its result or end, which has it to come.
fn changed(alloc: Global, one: Renamed, row: Opened) -> Result<Opened, OutOfMemory>
    ensures { IfOk result (λ made. made ≡ changed one row) }
{
    let by = only(alloc, &one)?;
    changed_by(alloc, &by, one, row)
}

#[tactic(auto, unfolding(crate::specs::Opened::changed_by))]
fn changed_by(
    alloc: Global,
    by: &Substitution,
    one: Renamed,
    row: Opened,
) -> Result<Opened, OutOfMemory>
    ensures { IfOk result (λ made. made ≡ changed_by by.now one row) }
{
    let pattern = pattern_with(alloc, by, &row.pattern)?;
    let args = patterns_with(alloc, by, row.args.as_slice())?;
    let uses = uses_with(alloc, by, row.uses.as_slice())?;
    let tails = tails_with(alloc, by, row.tails.as_slice())?;
    let params = names_with(alloc, by, row.params.as_slice())?;
    let same = pairs_with(alloc, by, row.same.as_slice())?;
    let mut changes = row.changes;
    changes.push(one)?;
    Ok(Opened {
        pattern,
        args,
        uses,
        tails,
        changes,
        params,
        same,
    })
}

fn patterns_with(
    alloc: Global,
    by: &Substitution,
    patterns: &[Shared<Pat>],
) -> Result<Items<Shared<Pat>>, OutOfMemory>
    ensures { IfOk result (λ made. made ≡ map (pattern_with by.now) patterns.now) }
{
    let mut made = Items::new(alloc);
    for pattern in patterns {
        made.push(pattern_with(alloc, by, pattern)?)?;
    }
    Ok(made)
}

fn uses_with(
    alloc: Global,
    by: &Substitution,
    uses: &[Items<Shared<Pat>>],
) -> Result<Items<Items<Shared<Pat>>>, OutOfMemory>
    ensures { IfOk result (λ made. made ≡ map (map (pattern_with by.now)) uses.now) }
{
    let mut made = Items::new(alloc);
    for args in uses {
        made.push(patterns_with(alloc, by, args.as_slice())?)?;
    }
    Ok(made)
}

fn tails_with(
    alloc: Global,
    by: &Substitution,
    tails: &[Shared<Tail>],
) -> Result<Items<Shared<Tail>>, OutOfMemory>
    ensures { IfOk result (λ made. made ≡ map (tail_with by.now) tails.now) }
{
    let mut made = Items::new(alloc);
    for tail in tails {
        made.push(tail_with(alloc, by, tail)?)?;
    }
    Ok(made)
}

fn names_with(alloc: Global, by: &Substitution, names: &[Text]) -> Result<Items<Text>, OutOfMemory>
    ensures { IfOk result (λ made. made ≡ map (name_with by.now) names.now) }
{
    let mut made = Items::new(alloc);
    for name in names {
        made.push(name_with(alloc, by, name)?)?;
    }
    Ok(made)
}

fn pairs_with(alloc: Global, by: &Substitution, pairs: &[Pair]) -> Result<Items<Pair>, OutOfMemory>
    ensures { IfOk result (λ made. made ≡ map (pair_with by.now) pairs.now) }
{
    let mut made = Items::new(alloc);
    for pair in pairs {
        made.push(Pair {
            first: name_with(alloc, by, &pair.first)?,
            second: name_with(alloc, by, &pair.second)?,
        })?;
    }
    Ok(made)
}
