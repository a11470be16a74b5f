//! Runs, block by block.
ghost use Rattle.std.specs.Prelude.{◌≡◌, ◌≤◌, length, IsTrue};
ghost use Rattle.std.specs.List.{list_all};
ghost use Rattle.gim_ast.specs.Runs.{entry_of, run_from, step_at, step_in};
ghost use Rattle.gim_ast.specs.WellFormed.{IsWellFormed};
ghost use Rattle.gim_run.specs.Blocks.{block_holds, has_room};
ghost use Rattle.gim_run.specs.Outcomes.{outcome};
ghost use Rattle.gim_run.specs.Slots.{env_of, AreSlots};
ghost use Rattle.gim_run.specs.Ways as ways;

use crate::indexed::Indexed;
use crate::steps::{Way, leave, pass_block};
use gim_ast::Block;
use pm_wide::Wide;

/// How a run ended, or that it hasn't.
#[derive(Clone, Copy, Debug, PartialEq, Eq)]
pub enum Outcome {
    /// The word that was returned.
    Returned(Wide),
    /// The statement that assigns this name has no value.
    Undefined { name: u32 },
    /// No more blocks may be entered.
    Running,
}

/// A block led on, or ended the run.
pub(crate) enum Step {
    Further { from: u32, to: u32 },
    Ended(Outcome),
}

/// Passes a block that is entered from the block of the number `from`.
#[tactic(auto, using(crate::proofs::StepLemmas::block_end_known, crate::proofs::StepLemmas::block_end_fits))]
fn inside(
    function: &Indexed,
    slots: &mut [Wide],
    scratch: &mut [(u32, Wide)],
    from: u32,
    to: u32,
    block: &Block,
) -> Step
    requires slots { AreSlots function.now slots.old }
    requires holds { IsTrue (block_holds function.now block.now) }
    requires room { length block.now.phis ≤ length scratch.old }
    ensures step { step_in function.now (record { from = from; to = to; env = env_of function.now.names slots.old }) block.now
        ≡ ways.step result (env_of function.now.names slots.new) }
    ensures slots { AreSlots function.now slots.new }
    ensures room { length scratch.new ≡ length scratch.old }
{
    match pass_block(function, slots, scratch, from, block) {
        Some(name) => Step::Ended(Outcome::Undefined { name }),
        None => match leave(function, slots, block.end) {
            Way::To(to) => Step::Further {
                from: block.number,
                to,
            },
            Way::Out(word) => Step::Ended(Outcome::Returned(word)),
        },
    }
}

/// Passes the block of the number `to`. Without such a block it stays where it is.
#[tactic(auto, using(crate::proofs::StepLemmas::step_inside, crate::proofs::StepLemmas::step_nowhere, crate::proofs::StepLemmas::got_holds, crate::proofs::StepLemmas::room_for))]
fn advance(
    function: &Indexed,
    slots: &mut [Wide],
    scratch: &mut [(u32, Wide)],
    from: u32,
    to: u32,
) -> Step
    requires slots { AreSlots function.now slots.old }
    requires hold { IsTrue (list_all (block_holds function.now) function.now.blocks) }
    requires room { IsTrue (list_all (has_room (length scratch.old)) function.now.blocks) }
    ensures step { step_at function.now (record { from = from; to = to; env = env_of function.now.names slots.old })
        ≡ ways.step result (env_of function.now.names slots.new) }
    ensures slots { AreSlots function.now slots.new }
    ensures room { length scratch.new ≡ length scratch.old }
{
    let blocks = &function.function().blocks;
    let at = function.block_place(to);
    if at < blocks.len() {
        inside(function, slots, scratch, from, to, blocks.at(at))
    } else {
        Step::Further { from, to }
    }
}

/// Goes on from the block of a number, until the run ends or as many blocks are entered as `fuel` says.
#[tactic(auto, using(crate::proofs::StepLemmas::run_on, crate::proofs::StepLemmas::run_out, crate::proofs::StepLemmas::run_ended))]
pub(crate) fn go(
    function: &Indexed,
    slots: &mut [Wide],
    scratch: &mut [(u32, Wide)],
    entry: u32,
    fuel: u32,
) -> Outcome
    requires slots { AreSlots function.now slots.old }
    requires hold { IsTrue (list_all (block_holds function.now) function.now.blocks) }
    requires room { IsTrue (list_all (has_room (length scratch.old)) function.now.blocks) }
    ensures outcome { run_from function.now fuel (record { from = 0; to = entry; env = env_of function.now.names slots.old }) ≡ outcome result }
    ensures slots { AreSlots function.now slots.new }
    ensures room { length scratch.new ≡ length scratch.old }
{
    let mut from = 0;
    let mut to = entry;
    for entered in 0..fuel {
        match advance(function, slots, scratch, from, to) {
            Step::Further {
                from: left,
                to: next,
            } => {
                from = left;
                to = next;
            }
            Step::Ended(outcome) => return outcome,
        }
    }
    Outcome::Running
}

/// Goes on from the entry of a well-formed function, whose slots are as they are to be at the start.
#[tactic(auto, using(crate::proofs::HoldLemmas::blocks_hold))]
pub(crate) fn from_entry(
    function: &Indexed,
    slots: &mut [Wide],
    scratch: &mut [(u32, Wide)],
    fuel: u32,
) -> Outcome
    requires well_formed { IsWellFormed function.now }
    requires slots { AreSlots function.now slots.old }
    requires room { IsTrue (list_all (has_room (length scratch.old)) function.now.blocks) }
    ensures outcome { run_from function.now fuel (record { from = 0; to = entry_of function.now.blocks; env = env_of function.now.names slots.old }) ≡ outcome result }
    ensures slots { AreSlots function.now slots.new }
    ensures room { length scratch.new ≡ length scratch.old }
{
    let entry = match function.function().blocks.as_slice() {
        [first, ..] => first.number,
        [] => 0,
    };
    go(function, slots, scratch, entry, fuel)
}
