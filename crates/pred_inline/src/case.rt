//! The cases of predicates.
use pd_ast::PredRow;
use pm_items::{Items, Shared};
use pm_ops::Text;

/// A case of a predicate, in which no use of a predicate is left.
#[derive(Debug, Drop)]
pub struct Case {
    /// The captures that are its parameters.
    pub params: Items<Text>,
    /// Parameters that stand for one and the same operand.
    pub same: Items<Pair>,
    pub row: PredRow,
}

/// Two parameters whose arguments become one: the first is called as the second.
#[derive(Debug, Drop)]
pub struct Pair {
    pub first: Text,
    pub second: Text,
}

/// A predicate of the file, with its cases in order.
#[derive(Debug, Drop)]
pub struct Predicate {
    pub name: Text,
    pub cases: Items<Shared<Case>>,
}
