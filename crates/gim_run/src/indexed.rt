//! A function whose names and blocks are found by their numbers.
ghost use Rattle.std.specs.Prelude.{◌≡◌, IfOk, length};
ghost use Rattle.gim_run.specs.Blocks.{place_of_block};
ghost use Rattle.gim_run.specs.Places.{TellsRows, TellsBlocks};
ghost use Rattle.gim_run.specs.Slots.{place_of};

use gim_ast::{Block, Function, NameRow};
use pm_ops::OutOfMemory;
use std::alloc::Global;
use std::collections::HashMap;
use std::marker::Model;

/// A function, with the places of its names' rows and of its blocks.
///
/// Contracts see the function.
#[derive(Drop)]
pub(crate) struct Indexed<'a> {
    function: &'a Function,
    rows: HashMap<u32, usize>,
    blocks: HashMap<u32, usize>,
}

impl<'a> Model for Indexed<'a> {
    ghost use Rattle.gim_ast.specs.declared.function.Function.{Function};

    ghost Value = { Function };

    ghost use Rattle.gim_run.specs.Places.{function_of, Tells};

    ghost view = { function_of };

    ghost invariant = { Tells };
}

impl<'a> Indexed<'a> {
    /// Finds where all rows and blocks stand.
    pub(crate) fn new(alloc: Global, function: &'a Function) -> Result<Indexed<'a>, OutOfMemory>
        ensures { IfOk result (λ indexed. indexed ≡ function.now) }
    {
        let rows = places_of_rows(alloc, function.names.as_slice())?;
        let blocks = places_of_blocks(alloc, function.blocks.as_slice())?;
        Ok(Indexed {
            function,
            rows,
            blocks,
        })
    }

    /// The function.
    pub(crate) fn function(&self) -> &Function
        ensures { result.now ≡ self.now }
    {
        self.function
    }

    /// The place of the first row of a version, or the number of rows.
    pub(crate) fn row_place(&self, version: u32) -> usize
        ensures { result ≡ place_of self.now.names version }
    {
        match self.rows.get(&version) {
            Some(at) => *at,
            None => self.function.names.len(),
        }
    }

    /// The place of the first block of a number, or the number of blocks.
    pub(crate) fn block_place(&self, number: u32) -> usize
        ensures { result ≡ place_of_block self.now.blocks number }
    {
        match self.blocks.get(&number) {
            Some(at) => *at,
            None => self.function.blocks.len(),
        }
    }
}

/// Where the first row of each version stands.
#[tactic(auto, using(std::proofs::lemmas::List::at_drop_more))]
fn places_of_rows(alloc: Global, rows: &[NameRow]) -> Result<HashMap<u32, usize>, OutOfMemory>
    ensures { IfOk result (λ places. TellsRows places rows.now) }
{
    let mut places = HashMap::new(alloc);
    let mut left = rows.len();
    while left > 0 {
        left -= 1;
        places.insert(rows[left].version, left)?;
    }
    Ok(places)
}

/// Where the first block of each number stands.
#[tactic(auto, using(std::proofs::lemmas::List::at_drop_more))]
fn places_of_blocks(alloc: Global, blocks: &[Block]) -> Result<HashMap<u32, usize>, OutOfMemory>
    ensures { IfOk result (λ places. TellsBlocks places blocks.now) }
{
    let mut places = HashMap::new(alloc);
    let mut left = blocks.len();
    while left > 0 {
        left -= 1;
        places.insert(blocks[left].number, left)?;
    }
    Ok(places)
}
