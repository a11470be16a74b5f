//! The stage of names of a pattern file: the first place, in the order of the file, at which a rule
//! on names is broken.
//!
//! What a form may name is known from the forms above it and the `for`s round it (`Known`), what a
//! part of it may name from its pattern and the blocks round it (`Sight`). The rules on one pattern
//! stand in `pd_pattern_names`.
#![tactic(auto)]

mod blocks;
mod forms;
mod lists;
mod parts;
mod results;
mod sight;
mod tails;

pub use forms::check_names;
pub use sight::Sight;
