//! Trees of whole files as they are written: each name keeps its place in the source.

use cond_subset::ExprText;
use pd_forms::{PatternText, ResultText, TailText};
use pm_items::Items;
use pm_places::Span;

/// A name, and the entries of its list: `op (plus minus)` after `for`, and what stands after
/// `define_operator_list`.
#[derive(Drop)]
pub struct ListText {
    pub name: Span,
    pub entries: Items<Span>,
}

/// The name of a predicate, and the captures that are its parameters: `(equal_p @0 @1)`.
///
/// Without parameters it is written as the name alone.
#[derive(Drop)]
pub struct CaseHeadText {
    pub name: Span,
    pub parameters: Items<Span>,
}

/// A form of a pattern file.
#[derive(Drop)]
pub enum FormText {
    /// `(simplify pattern result)`, with the place of its `(`. The pattern is an operation.
    Simplify(Span, PatternText, ResultText),
    /// `(match head pattern tail)`, a case of a predicate, with the place of its `(`.
    Match(Span, CaseHeadText, PatternText, TailText),
    /// `(for op (plus minus) code (eq ne) forms)`, with the place of its `(`. At least one list and
    /// one form.
    For(Span, Items<ListText>, Items<FormText>),
    /// `(if (condition) forms)`: at least one form.
    If(ExprText, Items<FormText>),
    /// `(define_operator_list name entries)`, at the top of a file alone.
    OperatorList(ListText),
    /// `(define_predicates names)`, at the top of a file alone.
    Predicates(Items<Span>),
}
