//! Operator and predicate names, texts, and the faults of pattern files: the words that all crates
//! share.
#![tactic(auto)]

mod code;
mod fault;
pub mod laws;
mod memory;
mod predicate;
mod text;

pub use code::Code;
pub use fault::{PatternFault, PatternKind};
pub use memory::OutOfMemory;
pub use predicate::Pred;
pub use text::Text;
