//! Where the marked operations of a draft stand in its term.
ghost use Rattle.std.specs.Prelude.{◌≡◌, ◌++◌, IfOk, OnOk};
ghost use Rattle.result_types.specs.Drafts.{shape_of};
ghost use Rattle.result_build.specs.Marks.{mark, marks as marked_in, operand_place};

use crate::typed::{asked_where, is_dropped};
use pattern_rows::Place;
use pm_items::Items;
use pm_ops::OutOfMemory;
use pm_wide::IntType;
use result_types::{Draft, own_type, type_where};
use std::alloc::Global;

/// Adds, in preorder, the places of the marked operations of a draft whose term stands at a place.
pub(crate) fn list_marks(
    alloc: Global,
    draft: &Draft,
    wanted: Option<IntType>,
    at: &Place,
    marks: &mut Items<Place>,
) -> Result<(), OutOfMemory>
    ensures { OnOk result (marks.new ≡
        marks.old ++ marked_in wanted at.now (shape_of draft.now)) }
{
    let ty = type_where(draft, wanted);
    match draft {
        Draft::Leaf(_) => Ok(()),
        Draft::One(head, a) => {
            let own = own_type(a.get());
            let dropped = is_dropped(head.code, &ty, &own);
            push_mark(alloc, head.must_fold && !dropped, at, marks)?;
            let first = place_of_operand(alloc, dropped, at)?;
            let asked = asked_where(head.code, &ty, &own, &None);
            list_marks(alloc, a.get(), asked.0, &first, marks)
        }
        Draft::Two(head, a, b) => {
            let asked = asked_where(head.code, &ty, &own_type(a.get()), &own_type(b.get()));
            push_mark(alloc, head.must_fold, at, marks)?;
            let first = at.below(alloc, 0)?;
            list_marks(alloc, a.get(), asked.0, &first, marks)?;
            let second = at.below(alloc, 1)?;
            list_marks(alloc, b.get(), asked.1, &second, marks)
        }
        Draft::Three(head, a, b, c) => {
            let asked = asked_where(head.code, &ty, &own_type(a.get()), &own_type(b.get()));
            push_mark(alloc, head.must_fold, at, marks)?;
            let first = at.below(alloc, 0)?;
            list_marks(alloc, a.get(), asked.0, &first, marks)?;
            let second = at.below(alloc, 1)?;
            list_marks(alloc, b.get(), asked.1, &second, marks)?;
            let third = at.below(alloc, 2)?;
            list_marks(alloc, c.get(), asked.2, &third, marks)
        }
    }
}

/// Where the operand of an operation stands: in its place, if it is dropped.
fn place_of_operand(alloc: Global, dropped: bool, at: &Place) -> Result<Place, OutOfMemory>
    ensures { IfOk result (λ place. place ≡ operand_place dropped at.now) }
{
    if dropped {
        at.copy(alloc)
    } else {
        at.below(alloc, 0)
    }
}

/// Adds the place of an operation that is written with `!`.
fn push_mark(
    alloc: Global,
    must_fold: bool,
    at: &Place,
    marks: &mut Items<Place>,
) -> Result<(), OutOfMemory>
    ensures { OnOk result (marks.new ≡ marks.old ++ mark must_fold at.now) }
{
    if must_fold {
        marks.push(at.copy(alloc)?)?;
    }
    Ok(())
}
