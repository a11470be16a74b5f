//! The function that a tree stands for.

ghost use Rattle.std.specs.Prelude.{◌≡◌, IfOk, map};
ghost use Rattle.std.specs.List.{flat_map};
ghost use Rattle.gim_making.specs.Standing.{StandsFor};
ghost use Rattle.gim_making.specs.Trees.{arg_of, block_number, block_of};
ghost use Rattle.gim_making.specs.Trees.{decl_of, end_of, phi_of, stmt_of};
ghost use Rattle.gim_typing.specs.Operands.{operand_of, rhs_of};

use crate::places::names_in;
use crate::rows::names;
use gim_ast::{Block, Decl, End, Function, Operands, Phi, Rhs, Stmt};
use gim_shape::named_at;
use gim_text::{
    ArgText, BlockText, DeclText, EndText, FunctionText, ItemText, OperandText, RightForm, literal,
};
use gim_typing::{Scope, number};
use pm_items::Items;
use pm_ops::{Code, OutOfMemory, Text};
use pm_places::{Span, text};
use pm_wide::{Operand, Wide};
use std::alloc::Global;

fn operand(scope: &Scope, operand: &OperandText) -> Operand
    ensures { result ≡ operand_of scope.now operand.now }
{
    match operand {
        OperandText::Name(at) | OperandText::Default(at) => {
            Operand::Name(scope.version_of_name(*at), scope.type_of_name(*at))
        }
        OperandText::Literal(text) => {
            Operand::Const(literal(scope.source(), text).unwrap_or(Wide::default()))
        }
    }
}

fn rhs(alloc: Global, scope: &Scope, form: &RightForm) -> Rhs
    ensures { result ≡ rhs_of scope.now form.now }
{
    match form {
        RightForm::Copy(a) => Rhs::Copy(operand(scope, a)),
        RightForm::Unary(code, a) => Rhs::Op(*code, Operands::one(alloc, operand(scope, a))),
        RightForm::Cast(_, a) => Rhs::Op(Code::Convert, Operands::one(alloc, operand(scope, a))),
        RightForm::Binary(code, a, b) => {
            let operands = Operands::two(alloc, operand(scope, a), operand(scope, b));
            Rhs::Op(*code, operands)
        }
        RightForm::Choice(a, b, c) => {
            let (a, b, c) = (operand(scope, a), operand(scope, b), operand(scope, c));
            Rhs::Op(Code::Cond, Operands::three(alloc, a, b, c))
        }
    }
}

/// The number of the block that a `__BBn` names.
fn block_number(source: &[u8], at: Span) -> u32
    ensures { result ≡ block_number source.now at }
{
    number(named_at(source, at))
}

fn args(
    alloc: Global,
    scope: &Scope,
    args: &[ArgText],
) -> Result<Items<(u32, Operand)>, OutOfMemory>
    ensures { IfOk result (λ list. list ≡ map (arg_of scope.now) args.now) }
{
    let mut list = Items::new(alloc);
    for arg in args {
        let number = block_number(scope.source(), arg.from);
        list.push((number, operand(scope, &arg.operand)))?;
    }
    Ok(list)
}

fn phis(alloc: Global, scope: &Scope, items: &[ItemText]) -> Result<Items<Phi>, OutOfMemory>
    ensures { IfOk result (λ phis. phis ≡ flat_map (phi_of scope.now) items.now) }
{
    let mut phis = Items::new(alloc);
    for item in items {
        if let ItemText::Phi(name, texts) = item {
            phis.push(Phi {
                name: scope.version_of_name(*name),
                args: args(alloc, scope, texts.as_slice())?,
            })?;
        }
    }
    Ok(phis)
}

fn stmts(alloc: Global, scope: &Scope, items: &[ItemText]) -> Result<Items<Stmt>, OutOfMemory>
    ensures { IfOk result (λ stmts. stmts ≡ flat_map (stmt_of scope.now) items.now) }
{
    let mut stmts = Items::new(alloc);
    for item in items {
        if let ItemText::Stmt(name, right) = item {
            stmts.push(Stmt {
                name: scope.version_of_name(*name),
                rhs: rhs(alloc, scope, &right.form),
            })?;
        }
    }
    Ok(stmts)
}

fn end(scope: &Scope, end: &Option<EndText>) -> End
    ensures { result ≡ end_of scope.now end.now }
{
    let source = scope.source();
    match end {
        None => End::Goto(0),
        Some(EndText::Goto(to)) => End::Goto(block_number(source, *to)),
        Some(EndText::If(code, left, right, yes_to, no_to)) => End::If(
            *code,
            operand(scope, left),
            operand(scope, right),
            block_number(source, *yes_to),
            block_number(source, *no_to),
        ),
        Some(EndText::Return(a)) => End::Return(operand(scope, a)),
    }
}

fn block(alloc: Global, scope: &Scope, tree: &BlockText) -> Result<Block, OutOfMemory>
    ensures { IfOk result (λ block. block ≡ block_of scope.now tree.now) }
{
    Ok(Block {
        number: number(text(scope.source(), tree.number)),
        phis: phis(alloc, scope, tree.items.as_slice())?,
        stmts: stmts(alloc, scope, tree.items.as_slice())?,
        end: end(scope, &tree.end),
    })
}

fn blocks(alloc: Global, scope: &Scope, trees: &[BlockText]) -> Result<Items<Block>, OutOfMemory>
    ensures { IfOk result (λ blocks. blocks ≡ map (block_of scope.now) trees.now) }
{
    let mut blocks = Items::new(alloc);
    for tree in trees {
        blocks.push(block(alloc, scope, tree)?)?;
    }
    Ok(blocks)
}

fn decls(alloc: Global, source: &[u8], trees: &[DeclText]) -> Result<Items<Decl>, OutOfMemory>
    ensures { IfOk result (λ decls. decls ≡ map (decl_of source.now) trees.now) }
{
    let mut decls = Items::new(alloc);
    for tree in trees {
        decls.push(Decl {
            ident: Text::new(alloc, text(source, tree.ident))?,
            ty: tree.ty,
        })?;
    }
    Ok(decls)
}

/// The function of a tree.
#[tactic(auto, unfolding(crate::specs::Standing::made))]
pub(crate) fn function(
    alloc: Global,
    source: &[u8],
    tree: &FunctionText,
) -> Result<Function, OutOfMemory>
    ensures { IfOk result (StandsFor source.now tree.now) }
{
    let scope = Scope::new(alloc, source, tree)?;
    let places = names_in(alloc, source, tree)?;
    Ok(Function {
        name: Text::new(alloc, text(source, tree.name))?,
        result: tree.result,
        params: decls(alloc, source, tree.params.as_slice())?,
        decls: decls(alloc, source, tree.decls.as_slice())?,
        names: names(alloc, &scope, places.as_slice())?,
        blocks: blocks(alloc, &scope, tree.blocks.as_slice())?,
    })
}
