//! Pattern files as trees: the stage of depth and the stage of syntax.
//!
//! Both go over the symbols of a whole file. Trees keep the place of each name, flag and capture in
//! the source.
#![tactic(auto)]

mod c_parts;
mod depth;
mod leaf;
mod pattern;
mod result;
mod tail;
mod tokens;
mod tree;

pub use c_parts::read_condition;
pub use depth::check_depth;
pub use leaf::read_leaf;
pub use pattern::read_pattern;
pub use result::read_result;
pub use tail::read_tail;
pub use tokens::{offends, read_identifier, read_mark};
pub use tree::{HeadText, LeafText, PatternText, ResultText, TailText};
