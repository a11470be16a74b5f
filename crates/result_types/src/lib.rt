//! The types of the operations of a result, before there is a term: what type each has of its own,
//! and what type it asks of its operands.
//!
//! The rules stand over any kind of types (`specs/TypeRules`), so that they say as well which types
//! are known from the text of a pattern alone.
#![tactic(auto)]

mod draft;
mod own;
mod rules;

pub use draft::{Draft, Head};
pub use own::{own_type, type_where};
pub use rules::{asked_types, own_type_of_code};
