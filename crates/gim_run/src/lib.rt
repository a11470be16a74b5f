//! Runs of GIMPLE functions: what a function gives on arguments, when it may enter so many blocks.
#![tactic(auto)]

mod indexed;
pub mod laws;
mod machine;
mod runs;
mod slots;
mod start;
mod steps;

pub use machine::{Machine, prepare};
pub use runs::Outcome;
