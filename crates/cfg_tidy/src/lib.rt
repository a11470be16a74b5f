//! Tidying the control flow: branches whose way is known, blocks that nothing reaches, and phis that have one operand.
//!
//! The definitions stand in `specs`: each kind of change, and the list of changes that tidying makes.
#![tactic(auto)]

mod branches;
mod change;
mod dropping;
pub mod laws;
mod phis;
mod reaching;
mod replacing;
mod tidying;

pub use change::{Change, Tidied};
pub use tidying::tidy;
