//! Whether a term may stand for another: whether it has the other's value wherever that has one,
//! and adds no undefined operation.
#![tactic(auto)]

mod defined;
mod enumeration;
mod exact;
pub mod laws;
mod method;
mod names;
mod order;
mod parts;

pub use method::{Instance, Method, justify};
