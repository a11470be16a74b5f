//! The operators, and how tight each binds.

ghost use Rattle.std.specs.Prelude.{◌≡◌};
ghost use Rattle.cond_subset.specs.Operators.{binary_mark, unary_mark, rank_of, ranked};

use pd_ast::{BinaryOperator, UnaryOperator};
use pd_text::{Mark, Symbol};
use pm_places::Span;

/// The operator between two operands that a mark is.
fn binary_mark(mark: Mark) -> Option<BinaryOperator>
    ensures { result ≡ binary_mark mark }
{
    match mark {
        Mark::DoubleBar => Some(BinaryOperator::Or),
        Mark::DoubleAmpersand => Some(BinaryOperator::And),
        Mark::Bar => Some(BinaryOperator::BitOr),
        Mark::Caret => Some(BinaryOperator::BitXor),
        Mark::Ampersand => Some(BinaryOperator::BitAnd),
        Mark::Equal => Some(BinaryOperator::Eq),
        Mark::NotEqual => Some(BinaryOperator::Ne),
        Mark::Less => Some(BinaryOperator::Lt),
        Mark::LessEqual => Some(BinaryOperator::Le),
        Mark::Greater => Some(BinaryOperator::Gt),
        Mark::GreaterEqual => Some(BinaryOperator::Ge),
        Mark::Plus => Some(BinaryOperator::Plus),
        Mark::Minus => Some(BinaryOperator::Minus),
        Mark::Star => Some(BinaryOperator::Times),
        _ => None,
    }
}

/// The operator before an operand that a mark is.
pub(crate) fn unary_mark(mark: Mark) -> Option<UnaryOperator>
    ensures { result ≡ unary_mark mark }
{
    match mark {
        Mark::Exclamation => Some(UnaryOperator::Not),
        Mark::Tilde => Some(UnaryOperator::Complement),
        Mark::Minus => Some(UnaryOperator::Negate),
        _ => None,
    }
}

/// How loosely an operator binds: from `*`, which binds tightest, to `||`.
pub fn rank_of(operator: BinaryOperator) -> usize
    ensures { result ≡ rank_of operator }
{
    match operator {
        BinaryOperator::Times => 1,
        BinaryOperator::Plus | BinaryOperator::Minus => 2,
        BinaryOperator::Lt | BinaryOperator::Le | BinaryOperator::Gt | BinaryOperator::Ge => 3,
        BinaryOperator::Eq | BinaryOperator::Ne => 4,
        BinaryOperator::BitAnd => 5,
        BinaryOperator::BitXor => 6,
        BinaryOperator::BitOr => 7,
        BinaryOperator::And => 8,
        BinaryOperator::Or => 9,
    }
}

/// The operator of this rank that a symbol is, with its place.
pub(crate) fn ranked(rank: usize, symbol: Symbol) -> Option<(BinaryOperator, Span)>
    ensures { result ≡ ranked rank symbol }
{
    let Symbol::Mark(mark, at) = symbol else {
        return None;
    };
    match binary_mark(mark) {
        Some(operator) if rank_of(operator) == rank => Some((operator, at)),
        _ => None,
    }
}
