//! The function that a draft stands for.

ghost use Rattle.std.specs.Prelude.{◌≡◌, IfOk, map};
ghost use Rattle.gim_ast.specs.Identifiers.{anonymous};
ghost use Rattle.first_gimple.specs.Meaning.{made, operand_of, stmt_of, param_decl, local_decl};

use crate::draft::{Draft, Line, Taken};
use crate::rows::unsigned_int;
use gim_ast::{Block, Decl, End, Function, NameRow, Operands, Rhs, Stmt};
use pm_items::Items;
use pm_ops::{OutOfMemory, Text};
use pm_wide::{Operand, Wide};
use std::alloc::Global;

fn operand(taken: &Taken) -> Operand
    ensures { result ≡ operand_of taken.now }
{
    match taken {
        Taken::Local(version) => Operand::Name(*version, unsigned_int()),
        Taken::Initial(_, version) => Operand::Name(*version, unsigned_int()),
        Taken::Literal(value) => Operand::Const(Wide::reduce(u128::from(*value), unsigned_int())),
    }
}

fn stmts(alloc: Global, lines: &[Line]) -> Result<Items<Stmt>, OutOfMemory>
    ensures { IfOk result (λ stmts. stmts ≡ map stmt_of lines.now) }
{
    let mut stmts = Items::new(alloc);
    for line in lines {
        let operands = Operands::two(alloc, operand(&line.left), operand(&line.right));
        stmts.push(Stmt {
            name: line.name,
            rhs: Rhs::Op(line.code, operands),
        })?;
    }
    Ok(stmts)
}

fn params(alloc: Global, names: &[Text]) -> Result<Items<Decl>, OutOfMemory>
    ensures { IfOk result (λ params. params ≡ map param_decl names.now) }
{
    let mut params = Items::new(alloc);
    for name in names {
        params.push(Decl {
            ident: name.copy(alloc)?,
            ty: unsigned_int(),
        })?;
    }
    Ok(params)
}

/// The identifier of a name without a base.
fn identifier(alloc: Global, version: u32) -> Result<Text, OutOfMemory>
    ensures { IfOk result (λ ident. ident ≡ anonymous version) }
{
    let ident = format!(in alloc; "_{version}")?;
    Text::new(alloc, ident.as_bytes())
}

fn locals(alloc: Global, versions: &[u32]) -> Result<Items<Decl>, OutOfMemory>
    ensures { IfOk result (λ locals. locals ≡ map local_decl versions.now) }
{
    let mut locals = Items::new(alloc);
    for version in versions {
        locals.push(Decl {
            ident: identifier(alloc, *version)?,
            ty: unsigned_int(),
        })?;
    }
    Ok(locals)
}

/// The function of the draft, with these names.
#[tactic(auto, unfolding(crate::specs::Meaning::made))]
pub(crate) fn function(
    alloc: Global,
    draft: &Draft,
    names: Items<NameRow>,
) -> Result<Function, OutOfMemory>
    ensures { IfOk result (λ f. f ≡ made draft.now names) }
{
    let block = Block {
        number: draft.number,
        phis: Items::new(alloc),
        stmts: stmts(alloc, draft.lines.as_slice())?,
        end: End::Return(operand(&draft.end)),
    };
    let mut blocks = Items::new(alloc);
    blocks.push(block)?;
    Ok(Function {
        name: draft.name.copy(alloc)?,
        result: unsigned_int(),
        params: params(alloc, draft.params.as_slice())?,
        decls: locals(alloc, draft.locals.as_slice())?,
        names,
        blocks,
    })
}
