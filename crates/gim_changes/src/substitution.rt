//! An operand put for a name in every use, and other right sides and conditions.
ghost use Rattle.std.specs.Prelude.{◌≡◌, [], ◌∷◌, map};
ghost use Rattle.gim_ast.specs.Functions.{is_name as is_this_name};
ghost use Rattle.gim_changes.specs.Substitution as put;
ghost use Rattle.gim_changes.specs.Substitution.{put_in_arg as put_in_arg_lem, with_rhs_in_block, with_condition_in_block};

use gim_ast::{Block, End, Function, Operands, Phi, Rhs, Stmt};
use pm_items::Items;
use pm_ops::Code;
use pm_wide::Operand;
use std::alloc::Global;

/// Puts an operand for a name in every use.
#[tactic(auto, unfolding(crate::specs::Substitution::put_in_all))]
pub fn put_in_all(function: &mut Function, name: u32, by: &Operand)
    ensures { function.new ≡ put.put_in_all name by.now function.old }
{
    put_in_blocks(&mut function.blocks, name, by);
}

/// Puts an operand for a name in each block.
fn put_in_blocks(blocks: &mut Items<Block>, name: u32, by: &Operand)
    ensures { blocks.new ≡ map (put.put_in_block name by.now) blocks.old }
{
    for i in 0..blocks.len() {
        put_in_block(blocks.at_mut(i), name, by);
    }
}

/// Puts an operand for a name in a block.
fn put_in_block(block: &mut Block, name: u32, by: &Operand)
    ensures { block.new ≡ put.put_in_block name by.now block.old }
{
    put_in_phis(&mut block.phis, name, by);
    put_in_stmts(&mut block.stmts, name, by);
    put_in_end(&mut block.end, name, by);
}

/// Puts an operand for a name in each phi.
fn put_in_phis(phis: &mut Items<Phi>, name: u32, by: &Operand)
    ensures { phis.new ≡ map (put.put_in_phi name by.now) phis.old }
{
    for i in 0..phis.len() {
        put_in_phi(phis.at_mut(i), name, by);
    }
}

/// Puts an operand for a name in a phi.
fn put_in_phi(phi: &mut Phi, name: u32, by: &Operand)
    ensures { phi.new ≡ put.put_in_phi name by.now phi.old }
{
    put_in_args(&mut phi.args, name, by);
}

/// Puts an operand for a name in each argument.
fn put_in_args(args: &mut Items<(u32, Operand)>, name: u32, by: &Operand)
    ensures { args.new ≡ map (put_in_arg_lem name by.now) args.old }
{
    for i in 0..args.len() {
        put_in_arg(args.at_mut(i), name, by);
    }
}

/// Puts an operand for a name in an argument.
fn put_in_arg(arg: &mut (u32, Operand), name: u32, by: &Operand)
    ensures { arg.new ≡ put_in_arg_lem name by.now arg.old }
{
    put_in_operand(&mut arg.1, name, by);
}

/// Puts an operand for a name in each statement.
fn put_in_stmts(stmts: &mut Items<Stmt>, name: u32, by: &Operand)
    ensures { stmts.new ≡ map (put.put_in_stmt name by.now) stmts.old }
{
    for i in 0..stmts.len() {
        put_in_stmt(stmts.at_mut(i), name, by);
    }
}

/// Puts an operand for a name in a statement.
fn put_in_stmt(stmt: &mut Stmt, name: u32, by: &Operand)
    ensures { stmt.new ≡ put.put_in_stmt name by.now stmt.old }
{
    match &mut stmt.rhs {
        Rhs::Copy(operand) => put_in_operand(operand, name, by),
        Rhs::Op(_, operands) => put_in_operands(operands, name, by),
    }
}

/// Puts an operand for a name among operands.
fn put_in_operands(operands: &mut Operands, name: u32, by: &Operand)
    ensures { operands.new ≡ map (put.put name by.now) operands.old }
{
    for i in 0..operands.len() {
        let operand = replaced(&operands.as_slice()[i], name, by);
        operands.set(i, operand);
    }
}

/// Puts an operand for a name in an end.
fn put_in_end(end: &mut End, name: u32, by: &Operand)
    ensures { end.new ≡ put.put_in_end name by.now end.old }
{
    match end {
        End::Goto(_) => {}
        End::If(_, left, right, _, _) => {
            put_in_operand(left, name, by);
            put_in_operand(right, name, by);
        }
        End::Return(operand) => put_in_operand(operand, name, by),
    }
}

/// Writes `by` over an operand that is the name.
fn put_in_operand(operand: &mut Operand, name: u32, by: &Operand)
    ensures { operand.new ≡ put.put name by.now operand.old }
{
    *operand = replaced(operand, name, by);
}

/// `by` where the operand is the name, and else the operand.
fn replaced(operand: &Operand, name: u32, by: &Operand) -> Operand
    ensures { result ≡ put.put name by.now operand.now }
{
    if is_name(operand, name) {
        *by
    } else {
        *operand
    }
}

/// Whether an operand is the name.
fn is_name(operand: &Operand, name: u32) -> bool
    ensures { result ≡ is_this_name name operand.now }
{
    match operand {
        Operand::Name(version, _) => *version == name,
        Operand::Const(_) => false,
    }
}

/// Makes an operation on two operands the right side of each statement of the name.
#[tactic(auto, unfolding(crate::specs::Substitution::with_rhs))]
pub fn set_rhs(
    alloc: Global,
    function: &mut Function,
    name: u32,
    code: Code,
    left: &Operand,
    right: &Operand,
)
    ensures { function.new ≡ put.with_rhs name (Rhs.Op code (left.now ∷ right.now ∷ [])) function.old }
{
    set_rhs_in_blocks(alloc, &mut function.blocks, name, code, left, right);
}

/// Makes the operation the right side of each statement of the name in blocks.
fn set_rhs_in_blocks(
    alloc: Global,
    blocks: &mut Items<Block>,
    name: u32,
    code: Code,
    left: &Operand,
    right: &Operand,
)
    ensures { blocks.new ≡ map (with_rhs_in_block name (Rhs.Op code (left.now ∷ right.now ∷ []))) blocks.old }
{
    for i in 0..blocks.len() {
        set_rhs_in_block(alloc, blocks.at_mut(i), name, code, left, right);
    }
}

/// Makes the operation the right side of each statement of the name in a block.
fn set_rhs_in_block(
    alloc: Global,
    block: &mut Block,
    name: u32,
    code: Code,
    left: &Operand,
    right: &Operand,
)
    ensures { block.new ≡ with_rhs_in_block name (Rhs.Op code (left.now ∷ right.now ∷ [])) block.old }
{
    set_rhs_in_stmts(alloc, &mut block.stmts, name, code, left, right);
}

/// Makes the operation the right side of each of these statements that is of the name.
fn set_rhs_in_stmts(
    alloc: Global,
    stmts: &mut Items<Stmt>,
    name: u32,
    code: Code,
    left: &Operand,
    right: &Operand,
)
    ensures { stmts.new ≡ map (put.with_rhs_in_stmt name (Rhs.Op code (left.now ∷ right.now ∷ []))) stmts.old }
{
    for i in 0..stmts.len() {
        set_rhs_in_stmt(alloc, stmts.at_mut(i), name, code, left, right);
    }
}

/// Makes the operation the right side of a statement of the name.
fn set_rhs_in_stmt(
    alloc: Global,
    stmt: &mut Stmt,
    name: u32,
    code: Code,
    left: &Operand,
    right: &Operand,
)
    ensures { stmt.new ≡ put.with_rhs_in_stmt name (Rhs.Op code (left.now ∷ right.now ∷ [])) stmt.old }
{
    if stmt.name == name {
        stmt.rhs = Rhs::Op(code, Operands::two(alloc, *left, *right));
    }
}

/// Makes a comparison the condition at the end of each block of the number.
#[tactic(auto, unfolding(crate::specs::Substitution::with_condition))]
pub fn set_condition(
    function: &mut Function,
    number: u32,
    code: Code,
    left: &Operand,
    right: &Operand,
)
    ensures { function.new ≡ put.with_condition number code left.now right.now function.old }
{
    set_condition_in_blocks(&mut function.blocks, number, code, left, right);
}

/// Makes the comparison the condition of each of these blocks that has the number.
fn set_condition_in_blocks(
    blocks: &mut Items<Block>,
    number: u32,
    code: Code,
    left: &Operand,
    right: &Operand,
)
    ensures { blocks.new ≡ map (with_condition_in_block number code left.now right.now) blocks.old }
{
    for i in 0..blocks.len() {
        set_condition_in_block(blocks.at_mut(i), number, code, left, right);
    }
}

/// Makes the comparison the condition of a block of the number.
fn set_condition_in_block(
    block: &mut Block,
    number: u32,
    code: Code,
    left: &Operand,
    right: &Operand,
)
    ensures { block.new ≡ with_condition_in_block number code left.now right.now block.old }
{
    if block.number == number {
        set_condition_in_end(&mut block.end, code, left, right);
    }
}

/// Makes the comparison the condition of an end that has one.
fn set_condition_in_end(end: &mut End, code: Code, left: &Operand, right: &Operand)
    ensures { end.new ≡ put.with_condition_in_end code left.now right.now end.old }
{
    if let End::If(old_code, old_left, old_right, _, _) = end {
        *old_code = code;
        *old_left = *left;
        *old_right = *right;
    }
}
