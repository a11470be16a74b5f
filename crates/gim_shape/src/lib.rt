//! The shape of GIMPLE functions.
//!
//! `check_shape` looks for a block without an end, a jump to no block and a phi that doesn't fit
//! (`shape`, `phis`); `blocks` has the tables of numbers and jumps. It is run by the tests of
//! gim_limits.
#![tactic(auto)]

mod blocks;
pub mod laws;
mod phis;
mod shape;
mod text;

pub use shape::check_shape;
pub use text::named_at;
