//! A machine that runs a function again and again.
ghost use Rattle.std.specs.Prelude.{◌≡◌, IfOk, IsTrue, length, map};
ghost use Rattle.std.specs.List.{list_all};
ghost use Rattle.gim_ast.specs.declared.function.NameRow.{NameRow};
ghost use Rattle.gim_ast.specs.Runs.{run_of, zero_of};
ghost use Rattle.gim_ast.specs.WellFormed.{IsWellFormed};
ghost use Rattle.gim_run.specs.Blocks.{has_room};
ghost use Rattle.gim_run.specs.Arguments.{AreArguments};
ghost use Rattle.gim_run.specs.Outcomes.{outcome};

use crate::indexed::Indexed;
use crate::runs::{Outcome, from_entry};
use crate::start::begin;
use gim_ast::{Block, Function, NameRow};
use pm_ops::OutOfMemory;
use pm_wide::Wide;
use std::alloc::{AllocError, Global};
use std::marker::Model;

/// A function made ready to run, with room for the words of its names and for what phis read.
///
/// Contracts see the function.
#[derive(Drop)]
pub struct Machine<'a> {
    function: Indexed<'a>,
    /// The word of each name, at the place of its row.
    slots: Vec<Wide>,
    /// What the phis of one block have read, each with its name.
    scratch: Vec<(u32, Wide)>,
}

impl<'a> Model for Machine<'a> {
    ghost use Rattle.gim_ast.specs.declared.function.Function.{Function};

    ghost Value = { Function };

    ghost use Rattle.gim_run.specs.Machines.{function_of, IsReady};

    ghost view = { function_of };

    ghost invariant = { IsReady };
}

/// Makes a function ready to run.
pub fn prepare(alloc: Global, function: &Function) -> Result<Machine<'_>, OutOfMemory>
    requires { IsWellFormed function.now }
    ensures { IfOk result (λ machine. machine ≡ function.now) }
{
    let slots = zeros(alloc, function.names.as_slice())?;
    let most = most_phis(function.blocks.as_slice());
    let scratch = vec![in alloc; (0, Wide::default()); most]?;
    let function = Indexed::new(alloc, function)?;
    Ok(Machine {
        function,
        slots,
        scratch,
    })
}

impl Machine<'_> {
    /// Runs the function on arguments, until it ends or as many blocks are entered as `fuel` says. Takes no memory.
    pub fn run(&mut self, args: &[Wide], fuel: u32) -> Outcome
        requires { AreArguments self.old args.now }
        ensures outcome { outcome result ≡ run_of self.old args.now fuel }
        ensures same { self.new ≡ self.old }
    {
        let slots = self.slots.as_mut_slice();
        begin(self.function.function(), slots, args);
        from_entry(&self.function, slots, self.scratch.as_mut_slice(), fuel)
    }
}

/// The 0 of each row's type.
fn zeros(alloc: Global, rows: &[NameRow]) -> Result<Vec<Wide>, AllocError>
    ensures { IfOk result (λ zeros. zeros.items ≡ map (λ (row : NameRow). zero_of row.ty) rows.now) }
{
    rows.iter()
        .map(|row| Wide::reduce(0, row.ty))
        .collect(alloc)
}

/// How many phis there are in one block at most.
fn most_phis(blocks: &[Block]) -> usize
    ensures { IsTrue (list_all (has_room result) blocks.now) }
{
    let mut most = 0;
    for block in blocks {
        let count = block.phis.len();
        if count > most {
            most = count;
        }
    }
    most
}
