//! GIMPLE functions in static single assignment form.
//!
//! The types are here, with equal copies and the test of the rules on them, and the definitions that speak of functions
//! alone: uses, well-formed functions, paths and where names are readable on them, and runs.
#![tactic(auto)]

mod copying;
mod function;
pub mod laws;
mod operands;
mod rules;

pub use function::{Block, Decl, End, Function, NameRow, Phi, Rhs, Stmt};
pub use operands::Operands;
pub use rules::{is_anonymous, is_block_word};
