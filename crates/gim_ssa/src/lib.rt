//! Where a GIMPLE function may read its names.
//!
//! A name is readable at a point if it holds there what its operation gives on the present values of its operands,
//! whichever way the point was reached. The definitions stand in gim_ast: `Paths` and `Readable`.
#![tactic(auto)]

mod assigned;
mod checking;
mod circles;
mod dominators;
mod fault;
mod known;
pub mod laws;
mod layout;
mod marks;
mod needs;
mod places;
mod plan;
mod reached;
mod readability;
mod rolls;
mod rows;
mod search;
mod standing;
mod uses;
mod walks;

pub use checking::check;
pub use fault::CheckFault;
pub use readability::{Reach, Reading};
