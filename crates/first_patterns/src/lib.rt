//! The first form of pattern files: rows `(simplify (op X Y) Z)` of captures. It goes once whole
//! pattern files are read.
#![tactic(auto)]

mod fault;
mod kind;
pub mod laws;
mod reading;
mod row;
mod tokens;

pub use fault::ReadFault;
pub use reading::read;
pub use row::{Row, Side};
