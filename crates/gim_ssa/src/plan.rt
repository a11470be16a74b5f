//! What the check looks up in a function, made once.
ghost use Rattle.std.specs.Prelude.{◌≡◌, ℕ, map, IfOk};
ghost use Rattle.gim_ast.specs.WellFormed.{numbers_of};
ghost use Rattle.gim_ssa.specs.Plan.{IsPlan, IsReady, number_of_block};

use crate::layout::{Layout, lay_out, rows};
use crate::places::{Initials, Places};
use gim_ast::{Block, Function};
use pm_items::Items;
use pm_ops::OutOfMemory;
use std::alloc::Global;

/// A function by places, with tables from its numbers and names to them.
#[derive(Drop)]
pub struct Plan {
    pub layout: Layout,
    /// For each assigned name the places of the assigned names that its statement reads.
    pub rows: Items<Items<usize>>,
    /// The places of assigned names.
    pub places: Places,
    /// The places of the numbers of blocks.
    pub numbers: Places,
    pub initials: Initials,
}

/// The numbers of blocks.
fn block_numbers(alloc: Global, blocks: &[Block]) -> Result<Items<u32>, OutOfMemory>
    ensures { IfOk result (λ numbers. numbers ≡ map number_of_block blocks.now) }
{
    let mut numbers = Items::new(alloc);
    for block in blocks {
        numbers.push(block.number)?;
    }
    Ok(numbers)
}

impl Plan {
    /// The plan of a function.
    pub fn new(alloc: Global, function: &Function) -> Result<Plan, OutOfMemory>
        ensures plan { IfOk result (IsPlan function.now) }
        ensures ready { IfOk result IsReady }
    {
        let block_numbers = block_numbers(alloc, function.blocks.as_slice())?;
        let numbers = Places::new(alloc, block_numbers.as_slice())?;
        let layout = lay_out(alloc, function, &numbers)?;
        let places = Places::new(alloc, layout.names.as_slice())?;
        let rows = rows(alloc, function, &places)?;
        let initials = Initials::new(alloc, function.names.as_slice())?;
        Ok(Plan {
            layout,
            rows,
            places,
            numbers,
            initials,
        })
    }
}
