use pm_ops::Text;

/// Where a step is made: at the statement of a name, by the name's version, or at the condition of
/// a block, by the block's number.
#[derive(Clone, Copy, Debug, PartialEq, Eq)]
pub enum Site {
    Stmt(u32),
    Cond(u32),
}

/// Why a step is made: the right side is an operand, a constant stands before a name, all operands
/// are constants, or the row of that number applies. Rows are numbered from 1.
#[derive(Clone, Copy, Debug, PartialEq, Eq)]
pub enum What {
    Copy,
    Swap,
    Fold,
    Row(u32),
}

/// What a step tells of itself.
#[derive(Drop)]
pub struct Firing {
    pub subject: Site,
    /// The base of the assigned name as it stood before the step. It is empty for an anonymous name
    /// and at a condition.
    pub base: Text,
    pub what: What,
}
