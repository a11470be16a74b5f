//! The rules on the names, flags and captures of one pattern.
//!
//! What is known at a place of the file is a value of its own (`Known`): the lists and the cases of
//! predicates above, and the identifiers of the `for`s round the place. Each rule is a test on one
//! name, mark or argument; `check_pattern` asks them in the order of the text.
#![tactic(auto)]

mod captures;
mod faults;
mod flags;
mod heads;
mod known;
mod patterns;
mod uses;

pub use captures::{captures_of, count_names, has_many_nodes, is_bound};
pub use faults::{broken, fault_at};
pub use heads::{Head, Own, differs};
pub use known::{
    Case, Chosen, Known, entry_arity, has_case, is_chosen, is_taken, is_used, operator_arity,
    parameters_of,
};
pub use patterns::{Stand, check_pattern};
pub use uses::{is_free_in, note_uses};
