//! Equal functions, part by part.

ghost use Rattle.std.specs.Prelude.{◌≡◌, IfOk};

use crate::{Block, Decl, Function, NameRow, Phi, Rhs, Stmt};
use pm_items::Items;
use pm_ops::OutOfMemory;
use pm_wide::Operand;
use std::alloc::Global;

/// Equal declarations.
fn copied_decls(alloc: Global, decls: &[Decl]) -> Result<Items<Decl>, OutOfMemory>
    ensures { IfOk result (λ copied. copied ≡ decls.now) }
{
    let mut copied = Items::new(alloc);
    for decl in decls {
        copied.push(Decl {
            ident: decl.ident.copy(alloc)?,
            ty: decl.ty,
        })?;
    }
    Ok(copied)
}

/// Equal rows of `names`.
fn copied_rows(alloc: Global, rows: &[NameRow]) -> Result<Items<NameRow>, OutOfMemory>
    ensures { IfOk result (λ copied. copied ≡ rows.now) }
{
    let mut copied = Items::new(alloc);
    for row in rows {
        copied.push(NameRow {
            version: row.version,
            base: row.base.copy(alloc)?,
            ty: row.ty,
            initial: row.initial,
        })?;
    }
    Ok(copied)
}

/// Equal arguments of a phi.
fn copied_args(alloc: Global, args: &[(u32, Operand)]) -> Result<Items<(u32, Operand)>, OutOfMemory>
    ensures { IfOk result (λ copied. copied ≡ args.now) }
{
    let mut copied = Items::new(alloc);
    for arg in args {
        copied.push((arg.0, arg.1))?;
    }
    Ok(copied)
}

/// Equal phis.
fn copied_phis(alloc: Global, phis: &[Phi]) -> Result<Items<Phi>, OutOfMemory>
    ensures { IfOk result (λ copied. copied ≡ phis.now) }
{
    let mut copied = Items::new(alloc);
    for phi in phis {
        copied.push(Phi {
            name: phi.name,
            args: copied_args(alloc, phi.args.as_slice())?,
        })?;
    }
    Ok(copied)
}

/// An equal right side.
fn copied_rhs(alloc: Global, rhs: &Rhs) -> Result<Rhs, OutOfMemory>
    ensures { IfOk result (λ copied. copied ≡ rhs.now) }
{
    match rhs {
        Rhs::Copy(operand) => Ok(Rhs::Copy(*operand)),
        Rhs::Op(code, operands) => Ok(Rhs::Op(*code, operands.copy(alloc)?)),
    }
}

/// Equal statements.
fn copied_stmts(alloc: Global, stmts: &[Stmt]) -> Result<Items<Stmt>, OutOfMemory>
    ensures { IfOk result (λ copied. copied ≡ stmts.now) }
{
    let mut copied = Items::new(alloc);
    for stmt in stmts {
        copied.push(Stmt {
            name: stmt.name,
            rhs: copied_rhs(alloc, &stmt.rhs)?,
        })?;
    }
    Ok(copied)
}

/// Equal blocks.
fn copied_blocks(alloc: Global, blocks: &[Block]) -> Result<Items<Block>, OutOfMemory>
    ensures { IfOk result (λ copied. copied ≡ blocks.now) }
{
    let mut copied = Items::new(alloc);
    for block in blocks {
        copied.push(Block {
            number: block.number,
            phis: copied_phis(alloc, block.phis.as_slice())?,
            stmts: copied_stmts(alloc, block.stmts.as_slice())?,
            end: block.end,
        })?;
    }
    Ok(copied)
}

impl Function {
    /// An equal function.
    pub fn copy(&self, alloc: Global) -> Result<Function, OutOfMemory>
        ensures { IfOk result (λ f. f ≡ self.now) }
    {
        Ok(Function {
            name: self.name.copy(alloc)?,
            result: self.result,
            params: copied_decls(alloc, self.params.as_slice())?,
            decls: copied_decls(alloc, self.decls.as_slice())?,
            names: copied_rows(alloc, self.names.as_slice())?,
            blocks: copied_blocks(alloc, self.blocks.as_slice())?,
        })
    }
}
