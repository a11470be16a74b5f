//! What a change of a function is: another operand, right side or condition, removal of what is unused,
//! and the rows of `names` that go with it; and the places where a name is used.
//!
//! The definitions stand in `specs`; what holds of them stands in `laws`.
#![tactic(auto)]

mod insertion;
pub mod laws;
mod removal;
mod substitution;
mod trimming;

pub use insertion::{has_place, insert_stmt};
pub use removal::{prune, remove_name};
pub use substitution::{put_in_all, set_condition, set_rhs};
pub use trimming::{tidy, trim};
