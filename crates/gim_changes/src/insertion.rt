//! A new statement before a place, with the declaration and the row of its name.
ghost use Rattle.std.specs.Prelude.{◌≡◌, ◌↔◌, IsTrue, ◌≤◌, Some, length, take, slice_get, OnOk, OnErr};
ghost use Rattle.gim_ast.specs.declared.function.Block.{Block as TheBlock};
ghost use Rattle.gim_changes.specs.Insertion as insertion;
ghost use Rattle.gim_changes.specs.Insertion.{HasPlace, changed_at, insert_in_block, row_for};

use gim_ast::{Block, Decl, Function, NameRow, Stmt};
use pm_items::Items;
use pm_ops::{OutOfMemory, Text};
use std::alloc::Global;

/// Whether the function has a block at a place, and a place before a statement or at the end there.
pub fn has_place(function: &Function, block: usize, before: usize) -> bool
    ensures { IsTrue result ↔ HasPlace function.now block before }
{
    match function.blocks.get(block) {
        Some(home) => before <= home.stmts.len(),
        None => false,
    }
}

/// Puts a statement into the block of a place, before the statement that has the place `before` there, or at the
/// end. Its name is declared last and gets the last row of `names`. Where memory is short nothing is changed.
#[tactic(auto, unfolding(crate::specs::Insertion::with_stmt))]
pub fn insert_stmt(
    alloc: Global,
    function: &mut Function,
    block: usize,
    before: usize,
    stmt: Stmt,
    decl: Decl,
) -> Result<(), OutOfMemory>
    requires { HasPlace function.old block before }
    ensures ok { OnOk result (function.new ≡ insertion.with_stmt block before stmt decl function.old) }
    ensures err { OnErr result (function.new ≡ function.old) }
{
    let decls = function.decls.len();
    let names = function.names.len();
    let inserted = insert_parts(alloc, function, block, before, stmt, decl);
    if inserted.is_err() {
        function.decls.truncate(decls);
        function.names.truncate(names);
    }
    inserted
}

/// Puts the parts in their places. Where memory is short some of the declaration and the row may stand already.
#[tactic(auto, unfolding(crate::specs::Insertion::with_stmt), using(crate::proofs::Insertions::front_again))]
fn insert_parts(
    alloc: Global,
    function: &mut Function,
    block: usize,
    before: usize,
    stmt: Stmt,
    decl: Decl,
) -> Result<(), OutOfMemory>
    requires { HasPlace function.old block before }
    ensures ok { OnOk result (function.new ≡ insertion.with_stmt block before stmt decl function.old) }
    ensures blocks { OnErr result (function.new ≡ record function.old { decls = function.new.decls; names = function.new.names }) }
    ensures decls { OnErr result (take (length function.old.decls) function.new.decls ≡ function.old.decls) }
    ensures names { OnErr result (take (length function.old.names) function.new.names ≡ function.old.names) }
{
    let row = NameRow {
        version: stmt.name,
        base: Text::empty(alloc),
        ty: decl.ty,
        initial: false,
    };
    function.decls.push(decl)?;
    function.names.push(row)?;
    insert_in_blocks(&mut function.blocks, block, before, stmt)
}

/// Puts the statement into the block of a place.
fn insert_in_blocks(
    blocks: &mut Items<Block>,
    block: usize,
    before: usize,
    stmt: Stmt,
) -> Result<(), OutOfMemory>
    requires { (b : Block) × (slice_get blocks.old block ≡ Some b) × (before ≤ length b.stmts) }
    ensures ok { OnOk result (blocks.new ≡ changed_at block (insert_in_block before stmt) blocks.old) }
    ensures err { OnErr result (blocks.new ≡ blocks.old) }
{
    let home = blocks.at_mut(block);
    home.stmts.insert(before, stmt)?;
    Ok(())
}
