use pm_items::Items;
use pm_ops::{Code, Text};

/// What a statement takes, or what is returned, as it is written.
#[derive(Drop)]
pub enum Taken {
    /// A name without a base, as `_3`.
    Local(u32),
    /// The default definition of a parameter, as `x_1(D)`.
    Initial(Text, u32),
    /// A number, as `5u`.
    Literal(u32),
}

/// A statement `_3 = left + right;`.
#[derive(Drop)]
pub struct Line {
    /// The version of the assigned name.
    pub name: u32,
    pub code: Code,
    pub left: Taken,
    pub right: Taken,
}

/// A function of the first form, as it is written.
#[derive(Drop)]
pub struct Draft {
    pub name: Text,
    pub params: Items<Text>,
    /// The versions of the declared names.
    pub locals: Items<u32>,
    /// The number of the block.
    pub number: u32,
    pub lines: Items<Line>,
    /// What is returned.
    pub end: Taken,
}
