//! A block that nothing reaches goes.
ghost use Rattle.std.specs.Prelude.{◌≡◌, ◌<◌, length, map, filter, remove};
ghost use Rattle.cfg_tidy.specs.Removal.{block_stays, without_args, dropped};

use crate::branches::remove_args;
use gim_ast::{Block, Function};
use pm_items::Items;

/// Takes the blocks of a number out, and the phi arguments for them.
#[tactic(auto, unfolding(crate::specs::Removal::dropped))]
pub(crate) fn drop_block(function: &mut Function, number: u32)
    ensures { function.new ≡ dropped number function.old }
{
    remove_blocks(&mut function.blocks, number);
    remove_args_in(&mut function.blocks, number);
}

/// Takes the blocks of a number out.
fn remove_blocks(blocks: &mut Items<Block>, number: u32)
    ensures { blocks.new ≡ filter (block_stays number) blocks.old }
{
    for i in (0..blocks.len()).rev() {
        if blocks.at(i).number == number {
            remove_block(blocks, i);
        }
    }
}

/// Takes the block at a place out.
fn remove_block(blocks: &mut Items<Block>, at: usize)
    requires { at < length blocks.old }
    ensures { blocks.new ≡ remove blocks.old at }
{
    blocks.remove(at);
}

/// Takes the phi arguments for a block out of blocks.
fn remove_args_in(blocks: &mut Items<Block>, from: u32)
    ensures { blocks.new ≡ map (without_args from) blocks.old }
{
    for i in 0..blocks.len() {
        remove_args_of_block(blocks.at_mut(i), from);
    }
}

/// Takes the phi arguments for a block out of a block.
fn remove_args_of_block(block: &mut Block, from: u32)
    ensures { block.new ≡ without_args from block.old }
{
    remove_args(&mut block.phis, from);
}
