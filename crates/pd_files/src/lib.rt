//! Whole pattern files by their syntax: forms, lists, heads of cases, and the first fault of
//! syntax.
//!
//! What stands inside a form, its patterns, results and tails, is read by `pd_forms`.
#![tactic(auto)]

mod file;
mod form;
pub mod laws;
mod list;
mod tree;

pub use file::read_file;
pub use tree::{CaseHeadText, FormText, ListText};
