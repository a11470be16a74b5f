//! What a change of a function means: which changes keep every defined run.
//!
//! The definitions stand in `specs`: where a run comes, which words names may have there, and what
//! it is to keep every defined run. What holds of them stands in `laws`.
#![tactic(auto)]

pub mod laws;
