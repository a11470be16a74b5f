//! Trees of C parts as they are written: each leaf, operator and call keeps its place.

use pd_ast::{BinaryOperator, UnaryOperator};
use pm_items::{Boxed, Items};
use pm_places::Span;

/// The name of a call, and the `wi` before its `::`, where they are written.
#[derive(Clone, Copy, Debug, PartialEq, Eq)]
pub struct Callee {
    pub wide: Option<Span>,
    pub name: Span,
}

/// An expression.
#[derive(Drop)]
pub enum ExprText {
    Number(Span),
    /// `@0`
    Capture(Span),
    Name(Span),
    /// `(a)`, with the place of the `(`.
    Parens(Span, Boxed<ExprText>),
    Unary(UnaryOperator, Span, Boxed<ExprText>),
    Binary(BinaryOperator, Span, Boxed<ExprText>, Boxed<ExprText>),
    /// `c ? a : b`, with the place of the `?`.
    Choose(Span, Boxed<ExprText>, Boxed<ExprText>, Boxed<ExprText>),
    /// `name (a, b)`, `wi::name (a, b)`
    Call(Callee, Items<ExprText>),
}

/// The word with which the declaration of a value begins.
#[derive(Clone, Copy, Debug, PartialEq, Eq)]
pub enum DeclWord {
    /// `tree`
    Tree,
    /// `wide_int`
    WideInt,
    /// `bool`
    Boolean,
    /// `int`
    Int,
    /// `unsigned`
    Unsigned,
    /// `signop`
    Signop,
    /// `tree_code`
    TreeCode,
}

/// Arithmetic whose overflow a flag can tell.
#[derive(Clone, Copy, Debug, PartialEq, Eq)]
pub enum Arithmetic {
    /// `wi::add`
    Add,
    /// `wi::sub`
    Subtract,
    /// `wi::mul`
    Multiply,
    /// `wi::neg`
    Negate,
}

/// A call of such arithmetic: the places of its `wi` and of its name.
#[derive(Clone, Copy, Debug, PartialEq, Eq)]
pub struct FlaggedCall {
    pub operation: Arithmetic,
    pub wide: Span,
    pub name: Span,
}

/// A value that a local is declared to have.
#[derive(Drop)]
pub enum ValueText {
    Plain(ExprText),
    /// `wi::add (a, b, s, &flag)` and its like: the arguments before the flag, and the flag's name.
    Flagged(FlaggedCall, Items<ExprText>, Span),
}

/// A declaration, with the name that it declares.
#[derive(Drop)]
pub enum DeclText {
    /// `int name = value;` and its like.
    Valued(DeclWord, Span, ValueText),
    /// `wi::overflow_type name;`
    Overflow(Span),
}
