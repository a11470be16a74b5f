//! Whether two terms have one ring form.
ghost use Rattle.std.specs.Prelude.{◌≡◌, ◌↔◌, IsTrue, IfOk};
ghost use Rattle.ring_forms.specs.RingForms.{AreRingEqual};
ghost use Rattle.ring_forms.specs.TableForms.{AreEqualOverTable};

use crate::atom::is_same_form;
use crate::ring::form_of;
use crate::table::AtomTable;
use pm_ops::OutOfMemory;
use pm_term::Typed;
use pm_wide::IntType;
use std::alloc::Global;

/// Whether two terms have one type, and ring forms at its width in which each product of atoms has
/// one coefficient. It is false where a term has no form.
#[tactic(auto, using(crate::proofs::SameAtoms::equal_by_forms, crate::proofs::SameAtoms::equal_over_table))]
pub fn ring_equal(alloc: Global, left: &Typed, right: &Typed) -> Result<bool, OutOfMemory>
    ensures { IfOk result (λ b. IsTrue b ↔ AreRingEqual left.now right.now) }
{
    let _left_typed = left.term();
    let _right_typed = right.term();
    are_equal_over_table(alloc, left, right)
}

/// The same, over one table of atoms for both.
fn are_equal_over_table(alloc: Global, left: &Typed, right: &Typed) -> Result<bool, OutOfMemory>
    ensures { IfOk result (λ b. IsTrue b ↔ AreEqualOverTable left.now right.now) }
{
    let ty = left.ty();
    if !is_one_type(ty, right.ty()) {
        return Ok(false);
    }
    let mut table = AtomTable::new(alloc);
    let Some(first) = form_of(alloc, left.term(), ty, &mut table)? else {
        return Ok(false);
    };
    let Some(second) = form_of(alloc, right.term(), ty, &mut table)? else {
        return Ok(false);
    };
    Ok(is_same_form(first.as_slice(), second.as_slice()))
}

/// Whether the two are one type.
fn is_one_type(a: IntType, b: IntType) -> bool
    ensures { IsTrue result ↔ (a ≡ b) }
{
    a == b
}
