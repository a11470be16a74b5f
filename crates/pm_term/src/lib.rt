//! Typed terms: operations on operations, names and constants, with their values.
//!
//! A `Term` is plain data. A `Typed` is a well-typed one, which contracts see as a plain tree
//! (`specs/Trees`); its value is `specs/Terms`.
#![tactic(auto)]

mod count;
mod environment;
mod fault;
pub mod laws;
mod term;
mod typed;
mod value;

pub use environment::Env;
pub use fault::BuildFault;
pub use term::Term;
pub use typed::Typed;
