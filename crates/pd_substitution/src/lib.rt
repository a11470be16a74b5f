//! Patterns, results and C text with other operators and names in them, and the operators that they
//! name.
//!
//! What a substitution doesn't touch is shared.
#![tactic(auto)]

mod c_text;
mod leaves;
mod operators;
mod patterns;
mod results;
mod substitution;

pub use c_text::expr_with;
pub use leaves::{cap_with, name_with};
pub use operators::{
    operators_of_expr, operators_of_pattern, operators_of_result, operators_of_tail,
};
pub use patterns::pattern_with;
pub use results::{result_with, tail_with};
pub use substitution::{Entry, Renamed, Substitution, null_op, place_of};
