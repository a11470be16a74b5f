//! The stage of shape: ends of blocks, jumps and phis.

ghost use Rattle.std.specs.Prelude.{◌≡◌, ◌++◌, ℕ, List, false, true, map};
ghost use Rattle.std.specs.List.{flat_map};
ghost use Rattle.gim_text.specs.Occurrences.{targets_in_end};
ghost use Rattle.gim_text.specs.declared.tree.BlockText.{BlockText};
ghost use Rattle.gim_text.specs.Faults.{Judges};
ghost use Rattle.pm_places.specs.FirstFaults.{first_fault};
ghost use Rattle.gim_shape.specs.Tables.{has_text, places_for, AreTables};
ghost use Rattle.gim_shape.specs.Shape.{jump_fault, block_faults, function_faults, shape_fault};

use crate::blocks::Tables;
use crate::phis::check_items;
use crate::text::named_at;
use gim_text::{BlockText, EndText, FunctionText, GimpleFault, GimpleKind};
use pm_places::{Span, text};
use std::alloc::Global;
use std::collections::HashSet;

/// Checks that a jump leads to one of the blocks of these numbers.
fn check_jump<'a>(
    source: &'a [u8],
    numbers: &HashSet<&'a [u8]>,
    at: Span,
) -> Result<(), GimpleFault>
    ensures { Judges (jump_fault source.now (has_text numbers.now) at) result }
{
    let number = named_at(source, at);
    if numbers.contains(&number) {
        Ok(())
    } else {
        Err(GimpleFault::at(GimpleKind::MissingBlock, at))
    }
}

/// Checks that the jumps of an end lead to blocks of these numbers.
fn check_end<'a>(
    source: &'a [u8],
    numbers: &HashSet<&'a [u8]>,
    end: EndText,
) -> Result<(), GimpleFault>
    ensures { Judges (first_fault (map (jump_fault source.now (has_text numbers.now))
        (targets_in_end (Some end)))) result }
{
    match end {
        EndText::Goto(at) => check_jump(source, numbers, at),
        EndText::If(_, _, _, to, otherwise) => {
            check_jump(source, numbers, to)?;
            check_jump(source, numbers, otherwise)
        }
        EndText::Return(_) => Ok(()),
    }
}

/// Checks a block of a function with these tables, told whether it may have phis.
fn check_block<'a>(
    alloc: Global,
    source: &'a [u8],
    tables: &Tables<'a>,
    may: bool,
    block: &BlockText,
) -> Result<(), GimpleFault>
    ensures { Judges (first_fault (block_faults source.now (has_text tables.now.numbers)
        (places_for tables.now.jumps) may block.now)) result }
{
    let Some(end) = block.end else {
        return Err(GimpleFault::at(GimpleKind::NoReturn, block.head));
    };
    let from = tables.predecessors(text(source, block.number));
    check_items(alloc, source, from, may, block.items.as_slice())?;
    check_end(source, &tables.numbers, end)
}

/// Checks the blocks behind the entry.
fn check_rest<'a>(
    alloc: Global,
    source: &'a [u8],
    tables: &Tables<'a>,
    rest: &[BlockText],
) -> Result<(), GimpleFault>
    ensures { Judges (first_fault (flat_map
        (block_faults source.now (has_text tables.now.numbers) (places_for tables.now.jumps) true)
        rest.now)) result }
{
    for block in rest {
        check_block(alloc, source, tables, true, block)?;
    }
    Ok(())
}

/// Checks the entry and the blocks behind it.
fn check_blocks<'a>(
    alloc: Global,
    source: &'a [u8],
    tables: &Tables<'a>,
    entry: &BlockText,
    rest: &[BlockText],
) -> Result<(), GimpleFault>
    ensures { Judges (first_fault (block_faults source.now (has_text tables.now.numbers)
        (places_for tables.now.jumps) false entry.now ++
        flat_map (block_faults source.now (has_text tables.now.numbers)
        (places_for tables.now.jumps) true) rest.now)) result }
{
    check_block(alloc, source, tables, false, entry)?;
    check_rest(alloc, source, tables, rest)
}

/// Checks a function.
fn check_function(alloc: Global, source: &[u8], function: &FunctionText) -> Result<(), GimpleFault>
    ensures { Judges (first_fault (function_faults source.now function.now)) result }
{
    let blocks = function.blocks.as_slice();
    let tables = Tables::of(alloc, source, blocks)?;
    match blocks {
        [] => Err(GimpleFault::at(GimpleKind::MissingBlock, function.close)),
        [entry, rest @ ..] => check_blocks(alloc, source, &tables, entry, rest),
    }
}

/// Checks the shape of functions: that each has a block and each block an end, that jumps lead to
/// blocks, that phis stand before statements and not in the entry, and that each has one argument
/// for each block that jumps to its block.
#[tactic(auto, unfolding(crate::specs::Shape::shape_fault))]
pub fn check_shape(
    alloc: Global,
    source: &[u8],
    functions: &[FunctionText],
) -> Result<(), GimpleFault>
    // the first place at which a rule of shape is broken
    ensures { Judges (shape_fault source.now functions.now) result }
{
    for function in functions {
        check_function(alloc, source, function)?;
    }
    Ok(())
}
