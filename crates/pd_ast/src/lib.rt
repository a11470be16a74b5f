//! Pattern files as trees: patterns, results, forms, rows, and the C text inside them.
//!
//! Contracts see plain data: two trees are `≡` where they are equal field by field. A `copy` of a
//! tree with shared parts shares them.
#![tactic(auto)]

mod c_text;
mod call;
mod form;
pub mod laws;
mod operator;
mod pattern;
mod predicate;
mod result;
mod same_text;

pub use c_text::{CDecl, CExpr, CNode, CType, DeclKind};
pub use call::Call;
pub use form::{ForForm, ForHead, Form, MatchForm, PredRow, Row, Rows, SimplifyForm};
pub use operator::{BinaryOperator, UnaryOperator};
pub use pattern::{Cap, Commute, Flags, OpRef, Pat, PatNode};
pub use predicate::holds;
pub use result::{Out, OutNode, SwitchCase, Tail};
