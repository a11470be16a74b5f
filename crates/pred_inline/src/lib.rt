//! The uses of predicates that a pattern file defines, each put in by every case of its predicate.
#![tactic(auto)]

mod arguments;
mod case;
mod choices;
mod faults;
mod filling;
mod finishing;
mod inlining;
mod one_use;
mod opened;
mod uniting;

pub use case::{Case, Pair, Predicate};
pub use choices::cases_named;
pub use inlining::{inline, inline_case};
