//! Results whose captures and braces stand for operands, and whose types are still to be found.
use pm_items::Boxed;
use pm_ops::Code;
use pm_wide::{IntType, Operand};

/// An operation of a result.
#[derive(Clone, Copy, Debug)]
pub struct Head {
    pub code: Code,
    /// `!`: what it gives must be an operand.
    pub must_fold: bool,
    /// The type after `:`.
    pub ty: Option<IntType>,
}

/// An operand, or an operation on one, two or three drafts.
#[derive(Debug, Drop)]
pub enum Draft {
    Leaf(Operand),
    One(Head, Boxed<Draft>),
    Two(Head, Boxed<Draft>, Boxed<Draft>),
    Three(Head, Boxed<Draft>, Boxed<Draft>, Boxed<Draft>),
}
