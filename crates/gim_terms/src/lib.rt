//! Statements, conditions and inner operations as subjects of matching, and what it is that a row
//! matches.
//!
//! Matching is defined over a small view of a function (the right side of a name, its uses, its
//! type), never over the function itself. `laws` says that a row matches exactly where its test row
//! holds.
#![tactic(auto)]

pub mod laws;
mod lookup;
mod places;
mod reach;
mod right;
mod sameness;
mod stmt_view;

pub use places::{has_condition, has_operation};
pub use sameness::{both_same, both_same_number};
pub use stmt_view::StmtView;
