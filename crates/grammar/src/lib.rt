//! The theory of exact reading: what a grammar spells, and when a reader of tokens accepts exactly that.
#![tactic(auto)]

pub mod laws;
mod reading;
mod stop;

pub use reading::whole_in_memory;
pub use stop::{Fault, Stop};
