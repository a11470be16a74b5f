//! The type of an outermost operation.
ghost use Rattle.std.specs.Prelude.{◌≡◌};
ghost use Rattle.std.specs.Option.{option_map};
ghost use Rattle.result_types.specs.Drafts.{shape_of};
ghost use Rattle.result_build.specs.TypedResults.{may_be, outermost_of, with_type};

use crate::typed::is_same;
use pm_wide::IntType;
use result_types::{Draft, Head};

/// The draft whose outermost operation has the subject's type, or nothing where another one is
/// written after its `:`.
pub(crate) fn outermost(draft: Draft, ty: IntType) -> Option<Draft>
    ensures { option_map shape_of result ≡ outermost_of ty (shape_of draft) }
{
    match draft {
        Draft::Leaf(operand) => Some(Draft::Leaf(operand)),
        Draft::One(head, a) => match of_type(head, ty) {
            Some(head) => Some(Draft::One(head, a)),
            None => None,
        },
        Draft::Two(head, a, b) => match of_type(head, ty) {
            Some(head) => Some(Draft::Two(head, a, b)),
            None => None,
        },
        Draft::Three(head, a, b, c) => match of_type(head, ty) {
            Some(head) => Some(Draft::Three(head, a, b, c)),
            None => None,
        },
    }
}

/// An operation of a type, or nothing where another one is written after its `:`.
fn of_type(head: Head, ty: IntType) -> Option<Head>
    ensures { result ≡ with_type ty head }
{
    if may_be(ty, head.ty) {
        Some(Head {
            code: head.code,
            must_fold: head.must_fold,
            ty: Some(ty),
        })
    } else {
        None
    }
}

/// Whether a type may be that of an operation, with what is written after its `:`.
fn may_be(ty: IntType, written: Option<IntType>) -> bool
    ensures { result ≡ may_be ty written }
{
    match written {
        Some(written) => is_same(written, ty),
        None => true,
    }
}
