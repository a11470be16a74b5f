//! Whether two sums of bitwise terms agree under all words of their names.
//!
//! A bit of a name moves such a sum by an amount that no other place knows of. So words that have
//! bits at one place at most decide, and no memory is taken.
#![tactic(auto)]

mod class;
pub mod laws;
mod names;
mod table;
mod words;

pub use table::table_equal;
