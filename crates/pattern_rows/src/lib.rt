//! The test rows of patterns, the subjects on which their tests are tried, and the counter of tests.
//!
//! A test row says in preorder what has to hold at which place of a right side, so that a pattern
//! matches there, and where each capture finds its operand.
#![tactic(auto)]

mod caps;
mod expanded;
mod row;
mod spot;
mod steps;
mod subject;
mod tests_of_row;

pub use caps::Caps;
pub use expanded::is_expanded;
pub use row::{Place, Probe, ProbeAt, TestRow};
pub use spot::{Head, Spot};
pub use steps::{Ledger, Steps};
pub use subject::Subject;
pub use tests_of_row::test_row;
