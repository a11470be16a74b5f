//! Trees of what is written, a type for each line of the grammar. Each leaf keeps its place in the
//! source.

use pm_items::Items;
use pm_ops::Code;
use pm_places::Span;
use pm_wide::IntType;

/// `TYPE __GIMPLE (ssa) NAME (PARAMS) { DECLS BLOCKS }`
#[derive(Drop)]
pub struct FunctionText {
    pub result: IntType,
    pub name: Span,
    pub params: Items<DeclText>,
    pub decls: Items<DeclText>,
    pub blocks: Items<BlockText>,
    /// The `}` at its end.
    pub close: Span,
}

/// `TYPE ident`, a parameter or a local.
#[derive(Clone, Copy)]
pub struct DeclText {
    pub ty: IntType,
    pub ident: Span,
}

/// `__BB(number): ITEMS END`
#[derive(Drop)]
pub struct BlockText {
    /// The `__BB` of its head.
    pub head: Span,
    pub number: Span,
    pub items: Items<ItemText>,
    /// What ends it, if anything does.
    pub end: Option<EndText>,
}

/// A phi or a statement, with the name that it assigns.
#[derive(Drop)]
pub enum ItemText {
    /// `name = __PHI (ARGS);`
    Phi(Span, Items<ArgText>),
    /// `name = RIGHT;`
    Stmt(Span, RightText),
}

/// `__BBn: operand`, an argument of a phi.
#[derive(Clone, Copy)]
pub struct ArgText {
    /// The `__BBn`.
    pub from: Span,
    pub operand: OperandText,
}

/// A right side.
#[derive(Clone, Copy)]
pub struct RightText {
    /// Its first token.
    pub start: Span,
    pub form: RightForm,
}

/// A form of a right side.
#[derive(Clone, Copy)]
pub enum RightForm {
    /// `a`
    Copy(OperandText),
    /// `-a`, `~a`, `__ABS a`, `__ABSU a`
    Unary(Code, OperandText),
    /// `(T) a`
    Cast(IntType, OperandText),
    /// `a + b` and its like, `__MIN (a, b)`, `__MAX (a, b)`
    Binary(Code, OperandText, OperandText),
    /// `a ? b : c`
    Choice(OperandText, OperandText, OperandText),
}

/// An operand.
#[derive(Clone, Copy)]
pub enum OperandText {
    /// `x_1`
    Name(Span),
    /// `x_1(D)`: the place of `x_1`.
    Default(Span),
    /// `5`, `-5`, `_Literal (T) 5`, `_Literal (T) -5`
    Literal(LiteralText),
}

/// A constant.
#[derive(Clone, Copy)]
pub struct LiteralText {
    /// Its first token: the number, its sign or `_Literal`.
    pub start: Span,
    pub ty: LiteralType,
    pub negative: bool,
    /// The number, with its suffix and without its sign.
    pub number: Span,
}

/// What a constant says of its type.
#[derive(Clone, Copy)]
pub enum LiteralType {
    /// Nothing: it is `int` if that holds it, else `long`.
    Plain,
    /// `u`: it is `unsigned int` if that holds it, else `unsigned long`.
    Unsigned,
    /// `l` or `ll`: it is `long`.
    Long,
    /// `ul` and its like: it is `unsigned long`.
    UnsignedLong,
    /// `_Literal (T)`: it is T.
    Written(IntType),
}

/// The end of a block. Blocks are given by the places of their `__BBn`.
#[derive(Clone, Copy)]
pub enum EndText {
    /// `goto __BBn;`
    Goto(Span),
    /// `if (a < b) goto __BBn; else goto __BBm;`
    If(Code, OperandText, OperandText, Span, Span),
    /// `return a;`
    Return(OperandText),
}
