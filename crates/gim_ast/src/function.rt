//! The types of functions and their parts.
use crate::operands::Operands;
use pm_items::Items;
use pm_ops::{Code, Text};
use pm_wide::{IntType, Operand};

/// A function in static single assignment form, as GCC's GIMPLE front end reads it under `__GIMPLE (ssa)`.
#[derive(Drop)]
pub struct Function {
    pub name: Text,
    /// The type of what it returns.
    pub result: IntType,
    pub params: Items<Decl>,
    /// The declared locals, in the order of the text.
    pub decls: Items<Decl>,
    /// Each name that stands in a phi, a statement or an end, and each anonymous declared name, by rising version.
    pub names: Items<NameRow>,
    /// The blocks in the order of the text. The first is the entry.
    pub blocks: Items<Block>,
}

/// A parameter or a local: `TYPE ident`.
#[derive(Drop)]
pub struct Decl {
    pub ident: Text,
    pub ty: IntType,
}

/// A name `BASE_VERSION`, with its type.
#[derive(Drop)]
pub struct NameRow {
    pub version: u32,
    /// The identifier before the underscore, empty for an anonymous name.
    pub base: Text,
    pub ty: IntType,
    /// Whether it is the default definition of the parameter `base`, written `BASE_VERSION(D)`.
    pub initial: bool,
}

/// A basic block: its phis, its statements and where it leads.
#[derive(Drop)]
pub struct Block {
    /// The number n of `__BB(n)`.
    pub number: u32,
    pub phis: Items<Phi>,
    pub stmts: Items<Stmt>,
    pub end: End,
}

/// A phi: the name that it assigns, and for each block that leads here its number and the operand that comes from it.
#[derive(Drop)]
pub struct Phi {
    /// The version of the assigned name.
    pub name: u32,
    pub args: Items<(u32, Operand)>,
}

/// A statement: the name that it assigns, and its right side. The type of the right side is that of the name.
#[derive(Drop)]
pub struct Stmt {
    /// The version of the assigned name.
    pub name: u32,
    pub rhs: Rhs,
}

/// A right side: an operand as it is, or an operation.
#[derive(Drop)]
pub enum Rhs {
    Copy(Operand),
    Op(Code, Operands),
}

/// The end of a block: a jump, a condition `left code right` with the blocks for true and for false, or a return.
#[derive(Clone, Copy)]
pub enum End {
    Goto(u32),
    If(Code, Operand, Operand, u32, u32),
    Return(Operand),
}
