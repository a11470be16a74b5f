//! The least row of a list that matches a subject.
//!
//! `scan_match` tries the test rows one after another. It takes no memory.
#![tactic(auto)]

pub mod laws;
mod scan;

pub use scan::{rows_fit, scan_match};
