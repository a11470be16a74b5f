//! The rewriting of functions by rows of captures.
//!
//! What is unused goes first. Then, at the first subject that has a choice, a step carries it out,
//! again and again, until no subject has one or the budget is spent. Each step begins again at the
//! first subject and tries the rows one after another.
#![tactic(auto)]

mod choice;
mod firing;
pub mod laws;
mod lookup;
mod matching;
mod rewriting;
mod step;

pub use firing::{Firing, Site, What};
pub use rewriting::{Simplified, simplify};
