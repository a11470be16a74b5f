//! The limits of GIMPLE functions.
//!
//! `check_limits` looks for what is too large, going through what occurs in a function in the order
//! of its text (`limits`). `seen` has what was gone through.
#![tactic(auto)]

pub mod laws;
mod limits;
mod numbers;
mod seen;

pub use limits::check_limits;
