//! Arguments of one use that become one.
ghost use Rattle.std.specs.Prelude.{◌≡◌, slice_set, IfOk};
ghost use Rattle.std.specs.Option.{option_copied};
ghost use Rattle.pattern_uses.specs.Captures.{capture_of};
ghost use Rattle.pred_inline.specs.Arguments.{place_of};
ghost use Rattle.pred_inline.specs.Opened.{arg_united, args_united, pair_united, pairs_united};
ghost use Rattle.pred_inline.specs.Opened.{united_or_paired};

use crate::arguments::{argument_for, capture_of_argument, place_of};
use crate::case::Pair;
use crate::opened::{Opened, stay_two, united, with_pair};
use pattern_uses::{capture_of, captured, shared_patterns};
use pd_ast::{Cap, Pat};
use pm_items::{Items, Shared};
use pm_ops::{OutOfMemory, Text};
use std::alloc::Global;

/// The arguments that are one by these pairs of parameters.
pub fn pairs_united(
    alloc: Global,
    params: &[Text],
    pairs: &[Pair],
    row: Opened,
) -> Result<Opened, OutOfMemory>
    ensures { IfOk result (λ made. made ≡ pairs_united params.now pairs.now row) }
{
    let mut made = row;
    for pair in pairs {
        made = pair_united(alloc, params, pair, made)?;
    }
    Ok(made)
}

fn pair_united(
    alloc: Global,
    params: &[Text],
    pair: &Pair,
    row: Opened,
) -> Result<Opened, OutOfMemory>
    ensures { IfOk result (λ made. made ≡ pair_united params.now pair.now row) }
{
    let second = argument_for(params, row.args.as_slice(), &pair.second);
    let cap = capture_of_argument(alloc, second)?;
    let arg = shared_argument(argument_for(params, row.args.as_slice(), &pair.first))?;
    args_united(alloc, params, &pair.first, arg, cap, row)
}

/// The same argument, shared.
fn shared_argument(arg: Option<&Shared<Pat>>) -> Result<Option<Shared<Pat>>, OutOfMemory>
    ensures { IfOk result (λ made. made ≡ option_copied arg.entry) }
{
    match arg {
        Some(arg) => Ok(Some(arg.share()?)),
        None => Ok(None),
    }
}

fn args_united(
    alloc: Global,
    params: &[Text],
    name: &Text,
    arg: Option<Shared<Pat>>,
    cap: Option<Cap>,
    row: Opened,
) -> Result<Opened, OutOfMemory>
    ensures { IfOk result (λ made. made ≡ args_united params.now name.now arg cap row) }
{
    match arg {
        None => Ok(row),
        Some(arg) => match cap {
            None => Ok(row),
            Some(cap) => arg_united(alloc, params, name, arg.get(), &cap, row),
        },
    }
}

fn arg_united(
    alloc: Global,
    params: &[Text],
    name: &Text,
    arg: &Pat,
    cap: &Cap,
    row: Opened,
) -> Result<Opened, OutOfMemory>
    ensures { IfOk result (λ made. made ≡
        arg_united params.now name.now arg.now (capture_of arg.now) cap.now row) }
{
    match capture_of(alloc, arg)? {
        Some(own) => united_or_paired(alloc, &own.name, &cap.name, row),
        None => {
            let new = Shared::new(alloc, captured(alloc, cap, arg)?)?;
            let args = with_argument(alloc, params, row.args.as_slice(), name, &new)?;
            Ok(Opened {
                pattern: row.pattern,
                args,
                uses: row.uses,
                tails: row.tails,
                changes: row.changes,
                params: row.params,
                same: row.same,
            })
        }
    }
}

/// Two captures become one, but two parameters of the case that is expanded stay two names.
#[tactic(auto, unfolding(crate::specs::Opened::united_or_paired))]
fn united_or_paired(
    alloc: Global,
    first: &Text,
    second: &Text,
    row: Opened,
) -> Result<Opened, OutOfMemory>
    ensures { IfOk result (λ made. made ≡ united_or_paired first.now second.now row) }
{
    if stay_two(row.params.as_slice(), first, second) {
        return with_pair(alloc, first, second, row);
    }
    united(alloc, first, second, row)
}

/// This argument in the place of the one for a parameter.
#[tactic(auto, using(std::proofs::lemmas::List::set_past))]
fn with_argument(
    alloc: Global,
    params: &[Text],
    args: &[Shared<Pat>],
    name: &Text,
    new: &Shared<Pat>,
) -> Result<Items<Shared<Pat>>, OutOfMemory>
    ensures { IfOk result (λ made. made ≡
        slice_set args.now (place_of params.now name.now) new.now) }
{
    let mut made = shared_patterns(alloc, args)?;
    let at = place_of(params, name);
    if at < made.len() {
        made.set(at, new.share()?);
    }
    Ok(made)
}
