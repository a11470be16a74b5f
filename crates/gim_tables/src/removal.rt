//! Removal of what is unused, by counts of uses.
ghost use Rattle.std.specs.Prelude.{◌≡◌, ◌<◌, length, map, remove, OnOk, IfOk};
ghost use Rattle.gim_ast.specs.Functions.{assigned_in, phi_name, stmt_name};
ghost use Rattle.gim_ast.specs.Functions.{is_used as function_uses};
ghost use Rattle.gim_changes.specs.LastUnused.{last_unused_of};
ghost use Rattle.gim_changes.specs.Removal.{last_unused as the_last_unused, pruned};
ghost use Rattle.gim_changes.specs.Trimming.{tidied, trimmed};
ghost use Rattle.gim_tables.specs.Told.{TellsUses, TellsAssigned, row_stays_by};

use crate::counts::{count_of, counts_in};
use crate::standing::assigned_names;
use gim_ast::{Block, Function, NameRow, Phi, Stmt};
use gim_changes::remove_name;
use pm_items::Items;
use pm_ops::OutOfMemory;
use std::alloc::Global;
use std::collections::HashMap;

/// Removes the last phi or statement whose name nothing uses, until there is none, and then the
/// rows of names that stand nowhere. Where memory is short some of it may be removed.
pub fn tidy(alloc: Global, function: &mut Function) -> Result<(), OutOfMemory>
    ensures { OnOk result (function.new ≡ tidied function.old) }
{
    prune(alloc, function)?;
    trim(alloc, function)
}

/// Removes the last phi or statement whose name nothing uses, until there is none.
fn prune(alloc: Global, function: &mut Function) -> Result<(), OutOfMemory>
    ensures { OnOk result (function.new ≡ pruned function.old) }
{
    while let Some(name) = next_unused(alloc, function)? {
        remove_name(function, name);
    }
    Ok(())
}

/// The last name in program order that is assigned and not used.
fn next_unused(alloc: Global, function: &Function) -> Result<Option<u32>, OutOfMemory>
    ensures { IfOk result (λ name. name ≡ the_last_unused function.now) }
{
    let counts = uses_in(alloc, function)?;
    Ok(last_unused(function, &counts))
}

/// How often each name of a function is used.
#[tactic(auto, unfolding(gim_ast::specs::Functions::operands_of))]
pub(crate) fn uses_in(alloc: Global, function: &Function) -> Result<HashMap<u32, u32>, OutOfMemory>
    ensures { IfOk result (λ table. TellsUses table function.now) }
{
    counts_in(alloc, function.blocks.as_slice())
}

/// The last name that is assigned and not used, by the counts.
#[tactic(auto, unfolding(gim_changes::specs::Removal::unused, gim_ast::specs::Functions::assigned))]
fn last_unused(function: &Function, counts: &HashMap<u32, u32>) -> Option<u32>
    requires { TellsUses counts.now function.now }
    ensures { result ≡ the_last_unused function.now }
{
    let mut found = None;
    for block in function.blocks.as_slice() {
        found = last_in_block(function, counts, block, found);
    }
    found
}

/// The last of the names of a block that are not used, or what was found.
#[tactic(auto, using(gim_changes::proofs::Unused::last_unused_of_append))]
fn last_in_block(
    function: &Function,
    counts: &HashMap<u32, u32>,
    block: &Block,
    found: Option<u32>,
) -> Option<u32>
    requires { TellsUses counts.now function.now }
    ensures { result ≡ last_unused_of function.now found (assigned_in block.now) }
{
    let found = last_phi(function, counts, block.phis.as_slice(), found);
    last_stmt(function, counts, block.stmts.as_slice(), found)
}

/// The last of the names of phis that are not used, or what was found.
fn last_phi(
    function: &Function,
    counts: &HashMap<u32, u32>,
    phis: &[Phi],
    found: Option<u32>,
) -> Option<u32>
    requires { TellsUses counts.now function.now }
    ensures { result ≡ last_unused_of function.now found (map phi_name phis.now) }
{
    let mut found = found;
    for phi in phis {
        if !is_used(function, counts, phi.name) {
            found = Some(phi.name);
        }
    }
    found
}

/// The last of the names of statements that are not used, or what was found.
fn last_stmt(
    function: &Function,
    counts: &HashMap<u32, u32>,
    stmts: &[Stmt],
    found: Option<u32>,
) -> Option<u32>
    requires { TellsUses counts.now function.now }
    ensures { result ≡ last_unused_of function.now found (map stmt_name stmts.now) }
{
    let mut found = found;
    for stmt in stmts {
        if !is_used(function, counts, stmt.name) {
            found = Some(stmt.name);
        }
    }
    found
}

/// Whether a name of the function is used, by the counts.
#[tactic(auto, using(crate::proofs::Counting::used_by_count))]
fn is_used(function: &Function, counts: &HashMap<u32, u32>, name: u32) -> bool
    requires { TellsUses counts.now function.now }
    ensures { result ≡ function_uses function.now name }
{
    let _names = function.names.len();
    count_of(counts, name) > 0
}

/// Keeps only the rows of `names` whose names stand somewhere, and those of anonymous names.
fn trim(alloc: Global, function: &mut Function) -> Result<(), OutOfMemory>
    ensures { OnOk result (function.new ≡ trimmed function.old) }
{
    let counts = uses_in(alloc, function)?;
    let names = names_in(alloc, function)?;
    trim_by(function, &counts, &names);
    Ok(())
}

/// The names that a function assigns.
#[tactic(auto, unfolding(gim_ast::specs::Functions::assigned))]
fn names_in(alloc: Global, function: &Function) -> Result<HashMap<u32, bool>, OutOfMemory>
    ensures { IfOk result (λ table. TellsAssigned table function.now) }
{
    assigned_names(alloc, function.blocks.as_slice())
}

/// The same, by the counts and the assigned names.
#[tactic(auto, unfolding(gim_changes::specs::Trimming::trimmed))]
fn trim_by(function: &mut Function, counts: &HashMap<u32, u32>, names: &HashMap<u32, bool>)
    requires uses { TellsUses counts.now function.old }
    requires assigned { TellsAssigned names.now function.old }
    ensures { function.new ≡ trimmed function.old }
{
    for i in (0..function.names.len()).rev() {
        if !stays(counts, names, function.names.at(i)) {
            remove_row(&mut function.names, i);
        }
    }
}

/// Removes the row at a place.
fn remove_row(rows: &mut Items<NameRow>, at: usize)
    requires { at < length rows.old }
    ensures { rows.new ≡ remove rows.old at }
{
    rows.remove(at);
}

/// Whether a row of `names` is kept, by the tables.
fn stays(counts: &HashMap<u32, u32>, names: &HashMap<u32, bool>, row: &NameRow) -> bool
    ensures { result ≡ row_stays_by counts.now names.now row.now }
{
    names.contains_key(&row.version)
        || count_of(counts, row.version) > 0
        || row.base.bytes().is_empty()
}
