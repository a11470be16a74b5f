//! The types of GIMPLE functions.
//!
//! `check_types` looks for what is not well typed (`types`). What a name means is looked up in the
//! declarations of its function (`scope`), and what a number writes in `numbers`.
#![tactic(auto)]

mod numbers;
mod scope;
mod types;

pub use numbers::number;
pub use scope::Scope;
pub use types::check_types;
