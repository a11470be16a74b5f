//! The types of drafts.
ghost use Rattle.std.specs.Prelude.{◌≡◌};
ghost use Rattle.result_types.specs.Drafts.{shape_of};
ghost use Rattle.result_types.specs.OwnTypes.{own, own_under, type_in};

use crate::draft::{Draft, Head};
use crate::rules::own_type_of_code;
use pm_wide::IntType;

/// The type that a draft has of its own.
pub fn own_type(draft: &Draft) -> Option<IntType>
    ensures { result ≡ own (shape_of draft.now) }
{
    match draft {
        Draft::Leaf(operand) => Some(operand.ty()),
        Draft::One(head, a) => own_type_under(*head, own_type(a.get()), None, None),
        Draft::Two(head, a, b) => {
            let a = own_type(a.get());
            let b = own_type(b.get());
            own_type_under(*head, a, b, None)
        }
        Draft::Three(head, a, b, c) => {
            let a = own_type(a.get());
            let b = own_type(b.get());
            let c = own_type(c.get());
            own_type_under(*head, a, b, c)
        }
    }
}

/// The type of a draft under an operation that may ask for one: its own type, else the one that is
/// asked for.
pub fn type_where(draft: &Draft, asked: Option<IntType>) -> Option<IntType>
    ensures { result ≡ type_in asked (shape_of draft.now) }
{
    match own_type(draft) {
        Some(ty) => Some(ty),
        None => asked,
    }
}

/// The own type of an operation, from those of its operands.
fn own_type_under(
    head: Head,
    a: Option<IntType>,
    b: Option<IntType>,
    c: Option<IntType>,
) -> Option<IntType>
    ensures { result ≡ own_under head a b c }
{
    match head.ty {
        Some(ty) => Some(ty),
        None => own_type_of_code(head.code, a, b, c),
    }
}
