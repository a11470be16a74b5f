//! The places of all statements, in program order.
ghost use Rattle.std.specs.Prelude.{◌≡◌, ◌++◌, map, length, Some, slice_get, IfOk, OnOk, ◌<◌};
ghost use Rattle.gim_ast.specs.declared.function.Block.{Block};
ghost use Rattle.value_numbers.specs.Spots.{Spot, spot_at, spots_in, spots_of, spots_of_block, ArePlaces};

use gim_ast::{Function, Stmt};
use pm_items::Items;
use pm_ops::OutOfMemory;
use std::alloc::Global;

/// Where a statement stands: the place of its block, and its place among the statements of the
/// block.
#[derive(Clone, Copy)]
pub struct Place {
    pub block: usize,
    pub stmt: usize,
}

/// Appends the places of the statements of a block.
fn push_block(
    places: &mut Items<Place>,
    function: &Function,
    block: usize,
) -> Result<(), OutOfMemory>
    requires { block < length function.now.blocks }
    ensures { OnOk result ((home : Block) → slice_get function.now.blocks block ≡ Some home →
        map (spot_at function.now) places.new
        ≡ map (spot_at function.now) places.old ++ map Some (spots_of_block home)) }
{
    for stmt in 0..function.blocks.at(block).stmts.len() {
        places.push(Place { block, stmt })?;
    }
    Ok(())
}

/// The places of all statements.
pub fn places(alloc: Global, function: &Function) -> Result<Items<Place>, OutOfMemory>
    ensures { IfOk result (λ places. ArePlaces function.now places (spots_of function.now)) }
{
    let mut places = Items::new(alloc);
    for block in 0..function.blocks.len() {
        push_block(&mut places, function, block)?;
    }
    Ok(places)
}

/// The statement at a place.
pub fn stmt_at(function: &Function, place: Place) -> &Stmt
    requires { (spot : Spot) × (spot_at function.now place ≡ Some spot) }
    ensures { (spot : Spot) → spot_at function.now place ≡ Some spot → result.now ≡ spot.stmt }
{
    function.blocks.at(place.block).stmts.at(place.stmt)
}
