//! The changes that tidying makes.
use gim_ast::Function;
use pm_items::Items;

/// One change of the control flow.
#[derive(Clone, Copy, Debug, PartialEq, Eq)]
pub enum Change {
    /// The `if` at the end of the block of this number always led one way, and is a jump now.
    Branch(u32),
    /// Nothing reached the block of this number, and it is gone.
    Dropped(u32),
    /// The phi of this name had one operand, which stands in every use now.
    Phi(u32),
}

/// A function, tidied, and the changes that led to it, in order.
#[derive(Drop)]
pub struct Tidied {
    pub function: Function,
    pub changes: Items<Change>,
}
