//! The changes, one after another.
ghost use Rattle.std.specs.Prelude.{◌≡◌, None, IfOk, OnOk, IsTrue};
ghost use Rattle.gim_ast.specs.Readable.{IsValid};
ghost use Rattle.gim_ast.specs.WellFormed.{IsWellFormed};
ghost use Rattle.cfg_tidy.specs.Branches.{first_branch};
ghost use Rattle.cfg_tidy.specs.Rounds.{MakesBranches, Settles, IsSettled, TakesPhi};
ghost use Rattle.cfg_tidy.specs.SameRuns.{RunAlike, take_no_phi};
ghost use Rattle.cfg_tidy.specs.Tidying.{AllReached, IsTidied};

use crate::branches::{branch, first_branch};
use crate::change::{Change, Tidied};
use crate::dropping::drop_block;
use crate::phis::first_copy;
use crate::reaching::{all_reached, first_unfound};
use crate::replacing::replace;
use gim_ast::Function;
use gim_changes::trim;
use pm_items::Items;
use pm_ops::OutOfMemory;
use std::alloc::Global;

/// Makes the branches whose way is known into jumps, each the first one, until there is none.
fn make_branches(function: &mut Function, changes: &mut Items<Change>) -> Result<(), OutOfMemory>
    ensures { OnOk result (MakesBranches function.old changes.old function.new changes.new) }
{
    while let Some((number, end, to)) = first_branch(function.blocks.as_slice()) {
        branch(function, number, &end, to);
        changes.push(Change::Branch(number))?;
    }
    Ok(())
}

/// Takes the blocks out that nothing reaches, each the first one, until there is none.
fn drop_unreached(
    alloc: Global,
    function: &mut Function,
    changes: &mut Items<Change>,
) -> Result<(), OutOfMemory>
    requires { first_branch function.old.blocks ≡ None }
    ensures { OnOk result (Settles function.old changes.old function.new changes.new) }
{
    let reach = all_reached(alloc, function.blocks.as_slice())?;
    while let Some(number) = first_unfound(function.blocks.as_slice(), &reach) {
        drop_block(function, number);
        changes.push(Change::Dropped(number))?;
    }
    Ok(())
}

/// Makes the branches and takes out what they leave unreached. Without a branch all blocks are reached as before.
fn settle(
    alloc: Global,
    function: &mut Function,
    changes: &mut Items<Change>,
) -> Result<(), OutOfMemory>
    requires { AllReached function.old.blocks function.old.blocks }
    ensures { OnOk result (Settles function.old changes.old function.new changes.new) }
{
    let before = changes.len();
    make_branches(function, changes)?;
    if changes.len() == before {
        return Ok(());
    }
    drop_unreached(alloc, function, changes)
}

/// Takes the first phi out that has one operand, and tells its name.
fn take_phi(function: &mut Function) -> Option<u32>
    requires { IsSettled function.old }
    ensures { TakesPhi function.old result function.new }
{
    match first_copy(function.blocks.as_slice()) {
        Some((name, by)) => {
            replace(function, name, &by);
            Some(name)
        }
        None => None,
    }
}

/// Makes the changes that are possible, each the first one, until none is.
fn make_changes(alloc: Global, function: Function) -> Result<Tidied, OutOfMemory>
    ensures { IfOk result (λ tidied. IsTidied function tidied.changes tidied.function) }
{
    let mut function = function;
    let mut changes = Items::new(alloc);
    make_branches(&mut function, &mut changes)?;
    drop_unreached(alloc, &mut function, &mut changes)?;
    while let Some(name) = take_phi(&mut function) {
        changes.push(Change::Phi(name))?;
        settle(alloc, &mut function, &mut changes)?;
    }
    trim(&mut function);
    Ok(Tidied { function, changes })
}

/// Makes the changes of the control flow that are possible, each the first one, until none is: an `if` on two constants
/// or with two equal targets becomes a jump, a block that jumps don't reach from the entry goes, and a phi whose
/// arguments other than its own name are one operand goes, that operand put for its name.
///
/// The only error is want of memory. Time grows as the number of changes times the size of the function. What is reached is
/// sought again only where a branch became a jump.
pub fn tidy(alloc: Global, function: Function) -> Result<Tidied, OutOfMemory>
    ensures changes { IfOk result (λ tidied. IsTidied function tidied.changes tidied.function) }
    ensures valid { IfOk result (λ tidied. IsValid function → IsValid tidied.function) }
    // On all arguments and each fuel, also where the run is undefined.
    ensures runs { IfOk result (λ tidied. IsValid function → RunAlike function tidied.function) }
    // Where no phi went, that holds of each well-formed function.
    ensures runs_without_phis { IfOk result (λ tidied. IsWellFormed function → IsTrue (take_no_phi tidied.changes) →
        RunAlike function tidied.function) }
{
    make_changes(alloc, function)
}
