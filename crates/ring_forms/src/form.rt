//! Forms, part by part.
ghost use Rattle.std.specs.Prelude.{◌≡◌, ◌^◌, ◌%◌, ◌<◌, ◌≤◌, [], nat_le, length, IsTrue, OnOk, IfOk};
ghost use Rattle.std.specs.List.{list_all};
ghost use Rattle.ring_forms.specs.Places.{form_place, form_has};
ghost use Rattle.ring_forms.specs.Forms.{with_part, with_product, constant_form, atom_form, within_limits, part_of};

use pm_items::Items;
use pm_ops::OutOfMemory;
use pm_wide::{IntType, Wide};
use std::alloc::Global;
use std::cmp::Ordering;

/// A product of atoms with its coefficient.
#[derive(Debug, PartialEq, Eq, Drop)]
pub(crate) struct Part {
    pub atoms: Items<usize>,
    pub coefficient: u128,
}

/// A sum of parts.
pub(crate) type Form = Items<Part>;

/// Adds a part to a form, modulo 2 to the width of the type.
#[tactic(auto, using(crate::proofs::FormLemmas::new_part))]
pub(crate) fn add_part(form: &mut Form, part: Part, ty: IntType) -> Result<(), OutOfMemory>
    ensures { OnOk result (form.new ≡ with_part ty.width part form.old) }
{
    let place = place_of(form.as_slice(), part.atoms.as_slice());
    if !stands_at(form.as_slice(), place, part.atoms.as_slice()) {
        form.insert(place, part)?;
        return Ok(());
    }
    let sum = form.at(place).coefficient.wrapping_add(part.coefficient);
    let coefficient = reduced(sum, ty);
    if coefficient == 0 {
        let _gone = form.remove(place);
    } else {
        let atoms = part.atoms;
        form.set(place, Part { atoms, coefficient });
    }
    Ok(())
}

/// Where a product of atoms stands in a form, or would stand.
fn place_of(form: &[Part], atoms: &[usize]) -> usize
    ensures value { result ≡ form_place atoms.now form.now }
    ensures within { result ≤ length form.now }
{
    for i in 0..form.len() {
        if atoms.cmp(form[i].atoms.as_slice()) != Ordering::Greater {
            return i;
        }
    }
    form.len()
}

/// Whether a product of atoms stands at a place.
fn stands_at(form: &[Part], place: usize, atoms: &[usize]) -> bool
    ensures value { result ≡ form_has atoms.now form.now place }
    ensures within { IsTrue result → place < length form.now }
{
    place < form.len() && form[place].atoms.as_slice() == atoms
}

/// Adds a product of atoms with a coefficient, unless that is 0.
pub(crate) fn add_product(
    form: &mut Form,
    atoms: Items<usize>,
    coefficient: u128,
    ty: IntType,
) -> Result<(), OutOfMemory>
    ensures { OnOk result (form.new ≡ with_product ty.width atoms coefficient form.old) }
{
    if coefficient == 0 {
        return Ok(());
    }
    add_part(form, Part { atoms, coefficient }, ty)
}

/// The form of a whole number, given by its residue.
pub(crate) fn constant(alloc: Global, coefficient: u128) -> Result<Form, OutOfMemory>
    ensures { IfOk result (λ f. f ≡ part_of [] coefficient []) }
{
    let mut form = Items::new(alloc);
    if coefficient != 0 {
        let atoms = Items::new(alloc);
        form.push(Part { atoms, coefficient })?;
    }
    Ok(form)
}

/// The form of an atom.
pub(crate) fn atom(alloc: Global, number: usize) -> Result<Form, OutOfMemory>
    ensures { IfOk result (λ f. f ≡ atom_form number) }
{
    let mut atoms = Items::new(alloc);
    atoms.push(number)?;
    let mut form = Items::new(alloc);
    form.push(Part {
        atoms,
        coefficient: 1,
    })?;
    Ok(form)
}

/// A form equal to this one.
pub(crate) fn copied(alloc: Global, form: &[Part]) -> Result<Form, OutOfMemory>
    ensures { IfOk result (λ made. made ≡ form.now) }
{
    let mut made = Items::new(alloc);
    for part in form {
        made.push(copied_part(alloc, part)?)?;
    }
    Ok(made)
}

/// A part equal to this one.
pub(crate) fn copied_part(alloc: Global, part: &Part) -> Result<Part, OutOfMemory>
    ensures { IfOk result (λ made. made ≡ part.now) }
{
    Ok(Part {
        atoms: Items::from_slice(alloc, part.atoms.as_slice())?,
        coefficient: part.coefficient,
    })
}

/// Whether a form is within the limits.
pub(crate) fn is_within_limits(form: &Form) -> bool
    ensures { result ≡ within_limits form.now }
{
    form.len() <= 64 && are_small(form.as_slice())
}

/// Whether no part has more than eight atoms.
fn are_small(form: &[Part]) -> bool
    ensures { result ≡ list_all (λ p. nat_le (length p.atoms) 8) form.now }
{
    for part in form {
        if part.atoms.len() > 8 {
            return false;
        }
    }
    true
}

/// The lowest bits of a number, as many as the type has.
pub(crate) fn reduced(bits: u128, ty: IntType) -> u128
    ensures value { result ≡ bits % 2 ^ ty.width }
    ensures width { ty.width < 129 }
{
    let _known = ty.bits();
    Wide::reduce(bits, ty).bits()
}
