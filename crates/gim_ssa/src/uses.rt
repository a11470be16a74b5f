//! The uses of names in a function, in program order.
ghost use Rattle.std.specs.Prelude.{◌≡◌, ◌+◌, ◌^◌, ◌<◌, ◌++◌, map, length, IfOk, OnOk};
ghost use Rattle.gim_ast.specs.Functions.{operands_of_rhs, operands_of_end};
ghost use Rattle.gim_ast.specs.Readable.{uses_in_phi, uses_in_phis, uses_in_stmts, uses_in_block, uses_in};
ghost use Rattle.gim_ssa.specs.Uses.{uses_of_names, seen, AreShort, IsShort};

use gim_ast::{Block, End, Function, Phi, Rhs, Stmt};
use pm_ops::OutOfMemory;
use pm_wide::Operand;
use std::alloc::Global;

/// A use of a name: the block and the item where it stands, and the point where the name is read.
#[derive(Clone, Copy)]
pub struct NameUse {
    /// The number of the block.
    pub block: u32,
    /// The phi, statement or end of the block, from 1.
    pub item: u32,
    pub name: u32,
    /// The number of the block where the name is read.
    pub at: u32,
    /// How many names that block is still to assign there.
    pub left: usize,
}

/// Appends the uses in operands, which are like `like` but for the name.
fn push_operands(
    uses: &mut Vec<NameUse>,
    like: &NameUse,
    operands: &[Operand],
) -> Result<(), OutOfMemory>
    ensures { OnOk result (uses.new.items ≡ uses.old.items ++ uses_of_names like.now operands.now) }
{
    for operand in operands {
        if let Operand::Name(name, _) = operand {
            uses.push(NameUse {
                name: *name,
                ..*like
            })?;
        }
    }
    Ok(())
}

/// Appends the uses in a right side.
fn push_rhs(uses: &mut Vec<NameUse>, like: &NameUse, rhs: &Rhs) -> Result<(), OutOfMemory>
    ensures { OnOk result (uses.new.items ≡ uses.old.items ++ uses_of_names like.now (operands_of_rhs rhs.now)) }
{
    match rhs {
        Rhs::Copy(operand) => push_operands(uses, like, &[*operand]),
        Rhs::Op(_, operands) => push_operands(uses, like, operands.as_slice()),
    }
}

/// Appends the uses in an end.
fn push_end(uses: &mut Vec<NameUse>, like: &NameUse, end: &End) -> Result<(), OutOfMemory>
    ensures { OnOk result (uses.new.items ≡ uses.old.items ++ uses_of_names like.now (operands_of_end end.now)) }
{
    match end {
        End::Goto(_) => Ok(()),
        End::If(_, left, right, _, _) => push_operands(uses, like, &[*left, *right]),
        End::Return(operand) => push_operands(uses, like, &[*operand]),
    }
}

/// Appends the uses in a phi: an argument is read at the end of the block that it comes from.
#[tactic(auto, using(crate::proofs::UsesLemmas::seen_at))]
fn push_phi(uses: &mut Vec<NameUse>, block: u32, item: u32, phi: &Phi) -> Result<(), OutOfMemory>
    ensures { OnOk result (uses.new.items ≡ uses.old.items ++ map seen (uses_in_phi block item phi.now)) }
{
    for arg in phi.args.as_slice() {
        let like = NameUse {
            block,
            item,
            name: 0,
            at: arg.0,
            left: 0,
        };
        push_operands(uses, &like, &[arg.1])?;
    }
    Ok(())
}

/// Appends the uses in phis that are counted from `item`.
fn push_phis(
    uses: &mut Vec<NameUse>,
    block: u32,
    mut item: u32,
    phis: &[Phi],
) -> Result<(), OutOfMemory>
    requires { item + length phis.now < 2 ^ 32 }
    ensures { OnOk result (uses.new.items ≡ uses.old.items ++ map seen (uses_in_phis block item phis.now)) }
{
    for phi in phis {
        push_phi(uses, block, item, phi)?;
        item += 1;
    }
    Ok(())
}

/// Appends the uses in statements that are counted from `item`: each reads before it assigns.
#[tactic(auto, using(crate::proofs::UsesLemmas::seen_at))]
fn push_stmts(
    uses: &mut Vec<NameUse>,
    block: u32,
    mut item: u32,
    stmts: &[Stmt],
) -> Result<(), OutOfMemory>
    requires { item + length stmts.now < 2 ^ 32 }
    ensures { OnOk result (uses.new.items ≡ uses.old.items ++ map seen (uses_in_stmts block item stmts.now)) }
{
    for (before, stmt) in stmts.iter().enumerate() {
        let like = NameUse {
            block,
            item,
            name: 0,
            at: block,
            left: stmts.len() - before,
        };
        push_rhs(uses, &like, &stmt.rhs)?;
        item += 1;
    }
    Ok(())
}

/// Appends the uses in a block.
#[tactic(auto, using(crate::proofs::UsesLemmas::seen_at))]
fn push_block(uses: &mut Vec<NameUse>, block: &Block) -> Result<(), OutOfMemory>
    requires { IsShort block.now }
    ensures { OnOk result (uses.new.items ≡ uses.old.items ++ map seen (uses_in_block block.now)) }
{
    let statements = 1 + block.phis.len() as u32;
    let end = statements + block.stmts.len() as u32;
    push_phis(uses, block.number, 1, block.phis.as_slice())?;
    push_stmts(uses, block.number, statements, block.stmts.as_slice())?;
    let like = NameUse {
        block: block.number,
        item: end,
        name: 0,
        at: block.number,
        left: 0,
    };
    push_end(uses, &like, &block.end)
}

/// All uses, in program order.
pub fn uses(alloc: Global, function: &Function) -> Result<Vec<NameUse>, OutOfMemory>
    requires { AreShort function.now.blocks }
    ensures { IfOk result (λ uses. uses.items ≡ map seen (uses_in function.now)) }
{
    let mut uses = Vec::new(alloc);
    for block in function.blocks.as_slice() {
        push_block(&mut uses, block)?;
    }
    Ok(uses)
}
