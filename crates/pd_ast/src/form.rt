//! The forms of a pattern file, and the rows into which they are expanded.
use crate::c_text::CExpr;
use crate::pattern::Pat;
use crate::result::{Out, Tail};
use pm_items::{Items, Shared};
use pm_ops::Text;

/// A form of a pattern file.
#[cycle(form)]
#[derive(Debug, Drop)]
pub enum Form {
    /// `(simplify P R)`.
    Simplify(SimplifyForm),
    /// `(match ..)`: a case of a predicate.
    Match(MatchForm),
    /// `(for ..)`: forms for each choice of operators.
    For(ForForm),
    /// `(if (C) ..)`: forms under a condition.
    If(CExpr, Items<Form>),
    /// `(define_operator_list NAME ..)`, its entries, and where the name stands.
    OpList(Text, Items<Text>, usize),
    /// `(define_predicates ..)`.
    Preds(Items<Text>),
}

/// A pattern with its result.
#[derive(Debug, Drop)]
pub struct SimplifyForm {
    /// Where the form begins.
    pub at: usize,
    pub pattern: Shared<Pat>,
    pub result: Shared<Out>,
}

/// A case of a predicate, which holds of what the pattern matches and the tail admits.
#[derive(Debug, Drop)]
pub struct MatchForm {
    /// Where the form begins.
    pub at: usize,
    pub name: Text,
    /// The captures that are the predicate's parameters.
    pub params: Items<Text>,
    pub pattern: Shared<Pat>,
    pub tail: Shared<Tail>,
}

/// Forms for each choice: the lists of one `for` run in step.
#[cycle(form)]
#[derive(Debug, Drop)]
pub struct ForForm {
    /// Where the form begins.
    pub at: usize,
    pub heads: Items<ForHead>,
    pub body: Items<Form>,
}

/// An identifier of a `for`, with the entries of its list.
#[derive(Debug, Drop)]
pub struct ForHead {
    pub name: Text,
    /// Where the identifier stands.
    pub at: usize,
    pub entries: Items<Text>,
}

/// A pattern with its result, without choices left.
#[derive(Debug, Drop)]
pub struct Row {
    /// Where its form begins.
    pub at: usize,
    pub pattern: Shared<Pat>,
    pub result: Shared<Out>,
}

/// A case of a predicate, without choices left.
#[derive(Debug, Drop)]
pub struct PredRow {
    /// Where its form begins.
    pub at: usize,
    pub pattern: Shared<Pat>,
    pub tail: Shared<Tail>,
}

/// The rows of a pattern file, in order.
#[derive(Debug, Drop)]
pub struct Rows {
    pub list: Items<Row>,
}
