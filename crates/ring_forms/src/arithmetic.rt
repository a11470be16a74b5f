//! Sums, negatives and products of forms.
ghost use Rattle.std.specs.Prelude.{◌≡◌, ◌≤◌, OnOk, IfOk, length};
ghost use Rattle.ring_forms.specs.Forms.{sum_form, negated_form, product_form, part_times, joined_atoms};
ghost use Rattle.ring_forms.specs.Places.{atom_place};

use crate::form::{Form, Part, add_part, add_product, copied, copied_part, reduced};
use pm_items::Items;
use pm_ops::OutOfMemory;
use pm_wide::IntType;
use std::alloc::Global;

/// A sum: the parts of the first form are put into the second.
pub(crate) fn sum(
    alloc: Global,
    first: &[Part],
    second: &[Part],
    ty: IntType,
) -> Result<Form, OutOfMemory>
    ensures { IfOk result (λ form. form ≡ sum_form ty.width first.now second.now) }
{
    let mut form = copied(alloc, second)?;
    for part in first {
        add_part(&mut form, copied_part(alloc, part)?, ty)?;
    }
    Ok(form)
}

/// A negative.
#[tactic(auto, using(pm_wide::proofs::Residues::negated))]
pub(crate) fn negated(alloc: Global, form: &[Part], ty: IntType) -> Result<Form, OutOfMemory>
    ensures { IfOk result (λ made. made ≡ negated_form ty.width form.now) }
{
    let mut made = Items::new(alloc);
    for part in form {
        let atoms = Items::from_slice(alloc, part.atoms.as_slice())?;
        let coefficient = reduced(0_u128.wrapping_sub(part.coefficient), ty);
        made.push(Part { atoms, coefficient })?;
    }
    Ok(made)
}

/// A product.
pub(crate) fn product(
    alloc: Global,
    first: &[Part],
    second: &[Part],
    ty: IntType,
) -> Result<Form, OutOfMemory>
    ensures { IfOk result (λ form. form ≡ product_form ty.width first.now second.now) }
{
    let mut form = Items::new(alloc);
    for part in first {
        add_products(alloc, part, second, &mut form, ty)?;
    }
    Ok(form)
}

/// Adds the products of a part with each part of a form.
#[tactic(auto, using(pm_wide::proofs::Residues::multiplied))]
fn add_products(
    alloc: Global,
    part: &Part,
    second: &[Part],
    form: &mut Form,
    ty: IntType,
) -> Result<(), OutOfMemory>
    ensures { OnOk result (form.new ≡ part_times ty.width part.now second.now form.old) }
{
    for other in second {
        let atoms = joined(alloc, part.atoms.as_slice(), other.atoms.as_slice())?;
        let coefficient = reduced(part.coefficient.wrapping_mul(other.coefficient), ty);
        add_product(form, atoms, coefficient, ty)?;
    }
    Ok(())
}

/// A product of products of atoms.
fn joined(alloc: Global, first: &[usize], second: &[usize]) -> Result<Items<usize>, OutOfMemory>
    ensures { IfOk result (λ atoms. atoms ≡ joined_atoms first.now second.now) }
{
    let mut atoms = Items::from_slice(alloc, second)?;
    for atom in first {
        let place = place_of_atom(atoms.as_slice(), *atom);
        atoms.insert(place, *atom)?;
    }
    Ok(atoms)
}

/// How many of the atoms are less, up to the first that isn't.
fn place_of_atom(atoms: &[usize], atom: usize) -> usize
    ensures value { result ≡ atom_place atom atoms.now }
    ensures within { result ≤ length atoms.now }
{
    for (i, other) in atoms.iter().enumerate() {
        if atom <= *other {
            return i;
        }
    }
    atoms.len()
}
