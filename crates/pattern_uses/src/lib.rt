//! The uses of predicates that a pattern file defines: taken out of a pattern and put into it; with
//! the captures, operations and mentions that decide how.
#![tactic(auto)]

mod captures;
mod counts;
mod mention;
mod sharing;
mod taking;
mod use_labels;

pub use captures::{capture_names, capture_of, captured, is_hole};
pub use counts::{capture_count, is_among, operations};
pub use mention::{asks_subject, captures_of_tail};
pub use sharing::{copied_cap, copied_decls, copied_names, shared_patterns};
pub use taking::{Cut, cap_at, put_at, taken, used_predicates};
pub use use_labels::{label, labels};
