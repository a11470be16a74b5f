//! What a C part may name.

use pd_ast::CType;
use pm_items::Items;
use pm_ops::Text;
use pm_places::Span;

/// A local with its static type.
#[derive(Drop)]
pub struct Local {
    pub name: Text,
    pub ty: CType,
}

/// What a C part may name beside the words of its language.
#[derive(Drop)]
pub struct Scope {
    /// The captures, by their names without `@`.
    pub captures: Items<Text>,
    /// The identifiers of the enclosing `for`s.
    pub choices: Items<Text>,
    /// The locals; the last one of a name counts.
    pub locals: Items<Local>,
    /// It stands in the tail of a `match`, where `t` is an operand.
    pub in_match: bool,
}

/// A name that a `with` block has declared so far.
#[derive(Clone, Copy, Debug, PartialEq, Eq)]
pub struct Declared {
    pub name: Span,
    /// It has a value; an overflow flag has none before the call that sets it.
    pub ready: bool,
}

/// A name that a `with` block has declared so far, with its static type.
#[derive(Clone, Copy, Debug, PartialEq, Eq)]
pub struct Typed {
    pub name: Span,
    pub ty: CType,
    /// It is an overflow flag.
    pub flag: bool,
}
