//! The results of rows: which leaf of a result is taken, with which operands and types, and what
//! becomes of one operation on operands.
//!
//! A raw result is an operand, or an operation over terms. It has no numbers of new names.
#![tactic(auto)]

mod canon;
mod given;
pub mod laws;
mod marks;
mod names;
mod outermost;
mod raw;
mod typed;

pub use canon::{Canon, one_node};
pub use raw::{Raw, RawFault, build_raw, operators};
