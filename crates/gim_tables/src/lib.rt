//! The names of a function as tables, so that nothing is searched for: their right sides, their
//! types and how often they are used; subjects of matching that look names up there; and the
//! removal of what is unused, by counts.
#![tactic(auto)]

mod counts;
mod places;
mod removal;
mod standing;
mod subject;
mod tables;

pub use removal::tidy;
pub use subject::OperationView;
pub use tables::Tables;
