//! The form of one term, or the difference of the forms of two, compared with that of others over
//! one table of atoms: over whole numbers, and modulo 2 to the width of a type.
ghost use Rattle.std.specs.Prelude.{◌≡◌, ◌↔◌, IsTrue, IfOk, MatchOption, None, Some};
ghost use Rattle.pm_wide.specs.Types.{value, int128_type};
ghost use Rattle.pm_term.specs.TermTrees.{tree_of, trees_of};
ghost use Rattle.pm_term.specs.Trees.{AreWellTyped, type_of};
ghost use Rattle.ring_forms.specs.Differences.{all_signed, AreOneExactly, exact_number, AreOneModulo, ring_number};
ghost use Rattle.ring_forms.specs.ExactTables.{blank};
ghost use Rattle.ring_forms.specs.DifferenceTables.{exact_difference_read, ring_difference_read, AreOneOverReading, AreOneOverTable, number_of, number_of_part, exact_number_read, ring_number_read};

use crate::atom::is_same_form;
use crate::exact::{Reading, exacts_of};
use crate::form::{Form, Part};
use crate::ring::{combined, forms_of, type_of};
use crate::table::AtomTable;
use pm_items::Items;
use pm_ops::{Code, OutOfMemory};
use pm_term::Term;
use pm_wide::{IntType, Wide};
use std::alloc::Global;

/// Whether the exact form of one term, or the difference of those of two, is that of another one or
/// two. It is false where a term has an unsigned type or no exact form.
#[tactic(auto, using(crate::proofs::ExactDifferences::one_by_definition, crate::proofs::ExactDifferences::one_over_reading))]
pub fn are_one_exactly(alloc: Global, first: &[Term], second: &[Term]) -> Result<bool, OutOfMemory>
    requires first { AreWellTyped (trees_of first.now) }
    requires second { AreWellTyped (trees_of second.now) }
    ensures { IfOk result (λ b. IsTrue b ↔ AreOneExactly (trees_of first.now) (trees_of second.now)) }
{
    are_one_over_reading(alloc, first, second)
}

/// The same, over one table of atoms.
fn are_one_over_reading(alloc: Global, first: &[Term], second: &[Term]) -> Result<bool, OutOfMemory>
    requires first { AreWellTyped (trees_of first.now) }
    requires second { AreWellTyped (trees_of second.now) }
    ensures { IfOk result (λ b. IsTrue b ↔ AreOneOverReading (trees_of first.now) (trees_of second.now)) }
{
    if !are_signed(first) || !are_signed(second) {
        return Ok(false);
    }
    let mut reading = blank(alloc);
    let Some(form) = exact_difference(alloc, first, &mut reading)? else {
        return Ok(false);
    };
    let Some(other) = exact_difference(alloc, second, &mut reading)? else {
        return Ok(false);
    };
    Ok(is_same_form(form.as_slice(), other.as_slice()))
}

/// The whole number that the exact form of one term is, or the difference of those of two. There is
/// none where a product of atoms has a coefficient, or where a term has an unsigned type or no exact
/// form. It is told as a word of the widest type with a sign.
#[tactic(auto, using(crate::proofs::ExactDifferences::no_number, crate::proofs::ExactDifferences::one_number))]
pub fn exact_number(alloc: Global, terms: &[Term]) -> Result<Option<Wide>, OutOfMemory>
    requires { AreWellTyped (trees_of terms.now) }
    ensures { IfOk result (λ n. MatchOption n
        (exact_number (trees_of terms.now) ≡ None)
        (λ w. (exact_number (trees_of terms.now) ≡ Some (value w)) × (w.ty ≡ int128_type))) }
{
    exact_number_read(alloc, terms)
}

/// The same, over one table of atoms.
fn exact_number_read(alloc: Global, terms: &[Term]) -> Result<Option<Wide>, OutOfMemory>
    requires { AreWellTyped (trees_of terms.now) }
    ensures { IfOk result (λ n. n ≡ exact_number_read (trees_of terms.now)) }
{
    if !are_signed(terms) {
        return Ok(None);
    }
    let mut reading = blank(alloc);
    let Some(form) = exact_difference(alloc, terms, &mut reading)? else {
        return Ok(None);
    };
    Ok(match number_of(form.as_slice()) {
        Some(number) => Some(Wide::reduce(number, IntType::int128())),
        None => None,
    })
}

/// Whether the form of one term modulo 2 to the width of the type, or the difference of those of
/// two, is that of another one or two. It is false where a term has no form.
#[tactic(auto, using(crate::proofs::RingDifferences::one_by_definition, crate::proofs::RingDifferences::one_over_table))]
pub fn are_one_modulo(
    alloc: Global,
    ty: IntType,
    first: &[Term],
    second: &[Term],
) -> Result<bool, OutOfMemory>
    requires first { AreWellTyped (trees_of first.now) }
    requires second { AreWellTyped (trees_of second.now) }
    ensures { IfOk result (λ b. IsTrue b ↔ AreOneModulo ty.width (trees_of first.now) (trees_of second.now)) }
{
    let _known = ty.bits();
    are_one_over_table(alloc, ty, first, second)
}

/// The same, over one table of atoms.
fn are_one_over_table(
    alloc: Global,
    ty: IntType,
    first: &[Term],
    second: &[Term],
) -> Result<bool, OutOfMemory>
    ensures { IfOk result (λ b. IsTrue b ↔ AreOneOverTable ty.width (trees_of first.now) (trees_of second.now)) }
{
    let mut table = AtomTable::new(alloc);
    let Some(form) = ring_difference(alloc, ty, first, &mut table)? else {
        return Ok(false);
    };
    let Some(other) = ring_difference(alloc, ty, second, &mut table)? else {
        return Ok(false);
    };
    Ok(is_same_form(form.as_slice(), other.as_slice()))
}

/// The number below 2 to the width of the type that the form of one term is modulo that, or the
/// difference of those of two. There is none where a product of atoms has a coefficient, or where a
/// term has no form.
#[tactic(auto, using(crate::proofs::RingDifferences::number_is))]
pub fn ring_number(alloc: Global, ty: IntType, terms: &[Term]) -> Result<Option<u128>, OutOfMemory>
    requires { AreWellTyped (trees_of terms.now) }
    ensures { IfOk result (λ n. n ≡ ring_number ty.width (trees_of terms.now)) }
{
    let _known = ty.bits();
    ring_number_read(alloc, ty, terms)
}

/// The same, over one table of atoms.
fn ring_number_read(alloc: Global, ty: IntType, terms: &[Term]) -> Result<Option<u128>, OutOfMemory>
    ensures { IfOk result (λ n. n ≡ ring_number_read ty.width (trees_of terms.now)) }
{
    let mut table = AtomTable::new(alloc);
    let Some(form) = ring_difference(alloc, ty, terms, &mut table)? else {
        return Ok(None);
    };
    Ok(number_of(form.as_slice()))
}

/// Whether these terms have types with a sign.
fn are_signed(terms: &[Term]) -> bool
    ensures { result ≡ all_signed (trees_of terms.now) }
{
    for term in terms {
        if type_of(term).unsigned() {
            return false;
        }
    }
    true
}

/// Nothing met.
fn blank(alloc: Global) -> Reading
    ensures { result ≡ blank }
{
    Reading {
        inner: AtomTable::new(alloc),
        atoms: AtomTable::new(alloc),
        nodes: Items::new(alloc),
    }
}

/// The exact form of one term, or the difference of those of two, over the atoms met so far.
fn exact_difference(
    alloc: Global,
    terms: &[Term],
    reading: &mut Reading,
) -> Result<Option<Form>, OutOfMemory>
    requires { AreWellTyped (trees_of terms.now) }
    ensures { IfOk result (λ form. MatchOption form
        (exact_difference_read (trees_of terms.now) reading.old ≡ None)
        (λ f. exact_difference_read (trees_of terms.now) reading.old ≡ Some (f, reading.new))) }
{
    let Some(forms) = exacts_of(alloc, terms, reading)? else {
        return Ok(None);
    };
    let form = combined(alloc, Code::Minus, 0, forms.as_slice(), IntType::int128())?;
    Ok(Some(form))
}

/// The same of ring forms.
fn ring_difference(
    alloc: Global,
    ty: IntType,
    terms: &[Term],
    table: &mut AtomTable,
) -> Result<Option<Form>, OutOfMemory>
    ensures { IfOk result (λ form. MatchOption form
        (ring_difference_read ty.width (trees_of terms.now) table.old ≡ None)
        (λ f. ring_difference_read ty.width (trees_of terms.now) table.old ≡ Some (f, table.new))) }
{
    let Some(forms) = forms_of(alloc, terms, ty, table)? else {
        return Ok(None);
    };
    let form = combined(alloc, Code::Minus, 0, forms.as_slice(), ty)?;
    Ok(Some(form))
}

/// The number that a form is, where it has no product of atoms.
fn number_of(form: &[Part]) -> Option<u128>
    ensures { result ≡ number_of form.now }
{
    match form {
        [] => Some(0),
        [part] => number_of_part(part),
        _ => None,
    }
}

/// The coefficient of a part without atoms.
fn number_of_part(part: &Part) -> Option<u128>
    ensures { result ≡ number_of_part part.now }
{
    if part.atoms.is_empty() {
        Some(part.coefficient)
    } else {
        None
    }
}
