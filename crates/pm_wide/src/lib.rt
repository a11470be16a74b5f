//! Integer types, their words, operands, and the value of each operation: the table on which every
//! promise about values rests.
#![tactic(auto)]

mod arithmetic;
mod bitwise;
mod divide;
pub mod laws;
mod number;
mod operand;
mod operation;
mod order;
mod overflow;
mod shift;
mod ty;
mod typing;
mod undefined;
mod wide;

pub use operand::Operand;
pub use operation::op_value;
pub use overflow::{add_overflow, mul_overflow, neg_overflow, sub_overflow};
pub use ty::IntType;
pub use typing::well_typed;
pub use undefined::Undefined;
pub use wide::{OutOfRange, Wide};
