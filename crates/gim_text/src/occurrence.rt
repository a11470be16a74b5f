//! Where identifiers, numbers of blocks, names and constants occur in a function.

ghost use Rattle.std.specs.Prelude.{◌≡◌, [], ◌∷◌, ◌++◌, map, IfOk, OnOk};
ghost use Rattle.std.specs.List.{flat_map};
ghost use Rattle.gim_text.specs.Occurrences.{place_of, occurrence_of_parameter};
ghost use Rattle.gim_text.specs.Occurrences.{occurrence_of_local, occurrence_of_operand};
ghost use Rattle.gim_text.specs.Occurrences.{occurrences_of_argument, occurrences_of_right};
ghost use Rattle.gim_text.specs.Occurrences.{occurrences_of_item, occurrences_of_end};
ghost use Rattle.gim_text.specs.Occurrences.{occurrences_of_block, occurrences_of, name_at};
ghost use Rattle.gim_text.specs.Occurrences.{block_at};
ghost use Rattle.gim_ast.specs.Identifiers.{is_anonymous};

use crate::tree::{
    ArgText, BlockText, DeclText, EndText, FunctionText, ItemText, LiteralText, OperandText,
    RightForm,
};
use lexing::is_number_text;
use pm_items::Items;
use pm_ops::OutOfMemory;
use pm_places::{Span, text};
use std::alloc::Global;

/// What occurs in a function, and where.
#[derive(Clone, Copy)]
pub enum Occurrence {
    /// The identifier of a parameter.
    Parameter(Span),
    /// The identifier of a local.
    Local(Span),
    /// The number at the head of a block.
    Block(Span),
    /// The `__BBn` of a jump or of an argument of a phi.
    Jump(Span),
    /// A name that a phi or a statement assigns.
    Assigned(Span),
    /// A name that a phi, a statement or an end reads.
    Used(Span),
    /// Such a name with `(D)`: the place of the name.
    Default(Span),
    /// A constant.
    Constant(LiteralText),
}

impl Occurrence {
    /// Its place; of a constant that of its number, without the sign.
    pub fn place(&self) -> Span
        ensures { result ≡ place_of self.now }
    {
        match self {
            Occurrence::Parameter(at)
            | Occurrence::Local(at)
            | Occurrence::Block(at)
            | Occurrence::Jump(at)
            | Occurrence::Assigned(at)
            | Occurrence::Used(at)
            | Occurrence::Default(at) => *at,
            Occurrence::Constant(literal) => literal.number,
        }
    }
}

/// What occurs as an operand.
fn of_operand(operand: OperandText) -> Occurrence
    ensures { result ≡ occurrence_of_operand operand }
{
    match operand {
        OperandText::Name(at) => Occurrence::Used(at),
        OperandText::Default(at) => Occurrence::Default(at),
        OperandText::Literal(literal) => Occurrence::Constant(literal),
    }
}

/// Adds one. The borrow checker asks that what a constant holds is moved by itself.
fn push(out: &mut Items<Occurrence>, occurrence: Occurrence) -> Result<(), OutOfMemory>
    ensures { OnOk result (out.new ≡ out.old ++ occurrence ∷ []) }
{
    match occurrence {
        Occurrence::Constant(literal) => out.push(Occurrence::Constant(literal))?,
        other => out.push(other)?,
    }
    Ok(())
}

/// Adds the parameters.
fn push_parameters(out: &mut Items<Occurrence>, parameters: &[DeclText]) -> Result<(), OutOfMemory>
    ensures { OnOk result (out.new ≡ out.old ++ map occurrence_of_parameter parameters.now) }
{
    for decl in parameters {
        push(out, Occurrence::Parameter(decl.ident))?;
    }
    Ok(())
}

/// Adds the locals.
fn push_locals(out: &mut Items<Occurrence>, locals: &[DeclText]) -> Result<(), OutOfMemory>
    ensures { OnOk result (out.new ≡ out.old ++ map occurrence_of_local locals.now) }
{
    for decl in locals {
        push(out, Occurrence::Local(decl.ident))?;
    }
    Ok(())
}

/// Adds the arguments of a phi.
fn push_arguments(out: &mut Items<Occurrence>, args: &[ArgText]) -> Result<(), OutOfMemory>
    ensures { OnOk result (out.new ≡ out.old ++ flat_map occurrences_of_argument args.now) }
{
    for arg in args {
        push(out, Occurrence::Jump(arg.from))?;
        push(out, of_operand(arg.operand))?;
    }
    Ok(())
}

/// Adds the operands of a right side.
fn push_right(out: &mut Items<Occurrence>, form: RightForm) -> Result<(), OutOfMemory>
    ensures { OnOk result (out.new ≡ out.old ++ occurrences_of_right form) }
{
    match form {
        RightForm::Copy(a) | RightForm::Unary(_, a) | RightForm::Cast(_, a) => {
            push(out, of_operand(a))?;
        }
        RightForm::Binary(_, a, b) => {
            push(out, of_operand(a))?;
            push(out, of_operand(b))?;
        }
        RightForm::Choice(a, b, c) => {
            push(out, of_operand(a))?;
            push(out, of_operand(b))?;
            push(out, of_operand(c))?;
        }
    }
    Ok(())
}

/// Adds a phi or a statement.
fn push_item(out: &mut Items<Occurrence>, item: &ItemText) -> Result<(), OutOfMemory>
    ensures { OnOk result (out.new ≡ out.old ++ occurrences_of_item item.now) }
{
    match item {
        ItemText::Phi(name, args) => {
            push(out, Occurrence::Assigned(*name))?;
            push_arguments(out, args.as_slice())
        }
        ItemText::Stmt(name, right) => {
            push(out, Occurrence::Assigned(*name))?;
            push_right(out, right.form)
        }
    }
}

/// Adds phis and statements.
fn push_items(out: &mut Items<Occurrence>, items: &[ItemText]) -> Result<(), OutOfMemory>
    ensures { OnOk result (out.new ≡ out.old ++ flat_map occurrences_of_item items.now) }
{
    for item in items {
        push_item(out, item)?;
    }
    Ok(())
}

/// Adds the end of a block.
fn push_end(out: &mut Items<Occurrence>, end: Option<EndText>) -> Result<(), OutOfMemory>
    ensures { OnOk result (out.new ≡ out.old ++ occurrences_of_end end) }
{
    match end {
        None => {}
        Some(EndText::Goto(to)) => {
            push(out, Occurrence::Jump(to))?;
        }
        Some(EndText::If(_, a, b, yes_to, no_to)) => {
            push(out, of_operand(a))?;
            push(out, of_operand(b))?;
            push(out, Occurrence::Jump(yes_to))?;
            push(out, Occurrence::Jump(no_to))?;
        }
        Some(EndText::Return(a)) => {
            push(out, of_operand(a))?;
        }
    }
    Ok(())
}

/// Adds a block.
fn push_block(out: &mut Items<Occurrence>, block: &BlockText) -> Result<(), OutOfMemory>
    ensures { OnOk result (out.new ≡ out.old ++ occurrences_of_block block.now) }
{
    push(out, Occurrence::Block(block.number))?;
    push_items(out, block.items.as_slice())?;
    push_end(out, block.end)
}

/// Adds blocks.
fn push_blocks(out: &mut Items<Occurrence>, blocks: &[BlockText]) -> Result<(), OutOfMemory>
    ensures { OnOk result (out.new ≡ out.old ++ flat_map occurrences_of_block blocks.now) }
{
    for block in blocks {
        push_block(out, block)?;
    }
    Ok(())
}

/// What occurs in a function, in the order of its text.
pub fn occurrences(alloc: Global, function: &FunctionText) -> Result<Items<Occurrence>, OutOfMemory>
    ensures { IfOk result (λ out. out ≡ occurrences_of function.now) }
{
    let mut out = Items::new(alloc);
    push_parameters(&mut out, function.params.as_slice())?;
    push_locals(&mut out, function.decls.as_slice())?;
    push_blocks(&mut out, function.blocks.as_slice())?;
    Ok(out)
}

/// Whether the text is `_` and a number: a name without a base.
fn is_anonymous(text: &[u8]) -> bool
    ensures { result ≡ is_anonymous text.now }
{
    match text {
        [first, rest @ ..] => *first == b'_' && is_number_text(rest),
        [] => false,
    }
}

/// The place of a name: an anonymous local, or a name that is assigned or read.
pub fn name_at(source: &[u8], occurrence: &Occurrence) -> Option<Span>
    ensures { result ≡ name_at source.now occurrence.now }
{
    match occurrence {
        Occurrence::Local(at) if is_anonymous(text(source, *at)) => Some(*at),
        Occurrence::Assigned(at) | Occurrence::Used(at) | Occurrence::Default(at) => Some(*at),
        _ => None,
    }
}

/// The number at the head of a block.
pub fn block_at(occurrence: &Occurrence) -> Option<Span>
    ensures { result ≡ block_at occurrence.now }
{
    match occurrence {
        Occurrence::Block(at) => Some(*at),
        _ => None,
    }
}
