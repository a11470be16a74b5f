//! Removal of what is unused.
ghost use Rattle.std.specs.Prelude.{◌≡◌, ◌<◌, filter, map, remove, length};
ghost use Rattle.gim_ast.specs.Functions.{assigned_in, phi_name, stmt_name};
ghost use Rattle.gim_changes.specs.LastUnused.{last_unused_of};
ghost use Rattle.gim_changes.specs.Removal as removal;
ghost use Rattle.gim_changes.specs.Removal.{phi_stays, stmt_stays};

use gim_ast::{Block, Function, Phi, Stmt};
use pm_items::Items;

/// Removes the last phi or statement whose name nothing uses, until there is none.
pub fn prune(function: &mut Function)
    ensures { function.new ≡ removal.pruned function.old }
{
    while let Some(name) = last_unused(function) {
        remove_name(function, name);
    }
}

/// The last name in program order that is assigned and not used.
#[tactic(auto, unfolding(crate::specs::Removal::unused, gim_ast::specs::Functions::assigned))]
fn last_unused(function: &Function) -> Option<u32>
    ensures { result ≡ removal.last_unused function.now }
{
    let mut found = None;
    for block in function.blocks.as_slice() {
        found = last_unused_in_block(function, block, found);
    }
    found
}

/// The last of the names of a block that are not used, or what was found.
#[tactic(auto, using(crate::proofs::Unused::last_unused_of_append))]
fn last_unused_in_block(function: &Function, block: &Block, found: Option<u32>) -> Option<u32>
    ensures { result ≡ last_unused_of function.now found (assigned_in block.now) }
{
    let found = last_unused_phi(function, block.phis.as_slice(), found);
    last_unused_stmt(function, block.stmts.as_slice(), found)
}

/// The last of the names of phis that are not used, or what was found.
fn last_unused_phi(function: &Function, phis: &[Phi], found: Option<u32>) -> Option<u32>
    ensures { result ≡ last_unused_of function.now found (map phi_name phis.now) }
{
    let mut found = found;
    for phi in phis {
        if !function.uses(phi.name) {
            found = Some(phi.name);
        }
    }
    found
}

/// The last of the names of statements that are not used, or what was found.
fn last_unused_stmt(function: &Function, stmts: &[Stmt], found: Option<u32>) -> Option<u32>
    ensures { result ≡ last_unused_of function.now found (map stmt_name stmts.now) }
{
    let mut found = found;
    for stmt in stmts {
        if !function.uses(stmt.name) {
            found = Some(stmt.name);
        }
    }
    found
}

/// Removes the phis and statements of a name. Its row of `names` stays.
#[tactic(auto, unfolding(crate::specs::Removal::without))]
pub fn remove_name(function: &mut Function, name: u32)
    ensures { function.new ≡ removal.without name function.old }
{
    remove_in_blocks(&mut function.blocks, name);
}

/// Removes the phis and statements of a name from blocks.
fn remove_in_blocks(blocks: &mut Items<Block>, name: u32)
    ensures { blocks.new ≡ map (removal.without_in_block name) blocks.old }
{
    for i in 0..blocks.len() {
        remove_in_block(blocks.at_mut(i), name);
    }
}

/// Removes the phis and statements of a name from a block.
fn remove_in_block(block: &mut Block, name: u32)
    ensures { block.new ≡ removal.without_in_block name block.old }
{
    remove_phis(&mut block.phis, name);
    remove_stmts(&mut block.stmts, name);
}

/// Removes the phis of a name.
fn remove_phis(phis: &mut Items<Phi>, name: u32)
    ensures { phis.new ≡ filter (phi_stays name) phis.old }
{
    for i in (0..phis.len()).rev() {
        if phis.at(i).name == name {
            remove_phi(phis, i);
        }
    }
}

/// Removes the phi at a place.
fn remove_phi(phis: &mut Items<Phi>, at: usize)
    requires { at < length phis.old }
    ensures { phis.new ≡ remove phis.old at }
{
    phis.remove(at);
}

/// Removes the statements of a name.
fn remove_stmts(stmts: &mut Items<Stmt>, name: u32)
    ensures { stmts.new ≡ filter (stmt_stays name) stmts.old }
{
    for i in (0..stmts.len()).rev() {
        if stmts.at(i).name == name {
            remove_stmt(stmts, i);
        }
    }
}

/// Removes the statement at a place.
fn remove_stmt(stmts: &mut Items<Stmt>, at: usize)
    requires { at < length stmts.old }
    ensures { stmts.new ≡ remove stmts.old at }
{
    stmts.remove(at);
}
