//! The exact form of a term: as its ring form, over whole numbers. Coefficients stand for residues
//! modulo 2 to the 128th, which are far apart within the limits.
ghost use Rattle.std.specs.Prelude.{◌≡◌, IfOk, MatchOption, Some, None, true, false};
ghost use Rattle.std.specs.List.{list_all};
ghost use Rattle.pm_wide.specs.Residues.{residue};
ghost use Rattle.pm_wide.specs.Types.{value};
ghost use Rattle.pm_term.specs.TermTrees.{tree_of, trees_of};
ghost use Rattle.pm_term.specs.Trees.{IsWellTyped, AreWellTyped};
ghost use Rattle.ring_forms.specs.ExactForms.{goes_exactly, has_exact_form, IsExactForm};
ghost use Rattle.ring_forms.specs.ExactTables.{met, exact_read, exact_reads, exact_combined, exact_atom, exact_terms, is_small, is_exact};
ghost use Rattle.ring_forms.specs.TableForms.{operand_forms};

use crate::atom::Atom;
use crate::form::{Form, Part, atom, constant, is_within_limits};
use crate::poly::{Poly, polynomial};
use crate::ring::{combined, operands_of};
use crate::table::AtomTable;
use pm_items::Items;
use pm_ops::{Code, OutOfMemory};
use pm_term::{Term, Typed};
use pm_wide::{IntType, Wide, op_value};
use std::alloc::Global;

/// The atoms met so far, each with its first node, and the table of what stands in them.
#[derive(Drop)]
pub(crate) struct Reading {
    pub inner: AtomTable,
    pub atoms: AtomTable,
    pub nodes: Items<Typed>,
}

/// The exact form of a term of a signed type, as a polynomial over its atoms. There is none for a
/// term of an unsigned type, where a part is past the limits, or where an operand of an atom has no
/// ring form.
#[tactic(auto, using(crate::proofs::ExactPolynomials::no_form, crate::proofs::ExactPolynomials::one_form))]
pub fn exact_form(alloc: Global, term: &Typed) -> Result<Option<Poly>, OutOfMemory>
    ensures { IfOk result (λ poly. MatchOption poly
        (has_exact_form term.now ≡ false)
        (λ p. (has_exact_form term.now ≡ true) × IsExactForm term.now p.terms)) }
{
    let _typed = term.term();
    read_exactly(alloc, term)
}

/// The same, read over tables of the atoms met.
fn read_exactly(alloc: Global, term: &Typed) -> Result<Option<Poly>, OutOfMemory>
    ensures { IfOk result (λ poly. MatchOption poly
        (exact_terms term.now ≡ None)
        (λ p. exact_terms term.now ≡ Some p.terms)) }
{
    if term.ty().unsigned() {
        return Ok(None);
    }
    let mut reading = Reading {
        inner: AtomTable::new(alloc),
        atoms: AtomTable::new(alloc),
        nodes: Items::new(alloc),
    };
    let Some(form) = exact_of(alloc, term.term(), &mut reading)? else {
        return Ok(None);
    };
    Ok(Some(polynomial(alloc, form.as_slice(), reading.nodes.as_slice())?))
}

/// The exact form of a term over the atoms met so far and those that it adds; none where a part is
/// past the limits.
#[cycle(exact)]
pub(crate) fn exact_of(
    alloc: Global,
    term: &Term,
    reading: &mut Reading,
) -> Result<Option<Form>, OutOfMemory>
    requires { IsWellTyped (tree_of term.now) }
    ensures { IfOk result (λ form. MatchOption form
        (exact_read (tree_of term.now) reading.old ≡ None)
        (λ f. exact_read (tree_of term.now) reading.old ≡ Some (f, reading.new))) }
{
    match term {
        Term::Name(version, ty) => {
            let number = meet(alloc, Atom::Name(*version, *ty), term, reading)?;
            Ok(Some(atom(alloc, number)?))
        }
        Term::Const(word) => Ok(limited(constant(alloc, value_bits(*word))?)),
        Term::Node(code, ty, args) => {
            if goes_exactly(*code) {
                by_parts(alloc, *code, args.as_slice(), reading)
            } else {
                as_atom(alloc, *code, *ty, term, args.as_slice(), reading)
            }
        }
    }
}

/// The exact form of an operation, of the forms of its operands.
#[cycle(exact)]
fn by_parts(
    alloc: Global,
    code: Code,
    args: &[Term],
    reading: &mut Reading,
) -> Result<Option<Form>, OutOfMemory>
    requires { AreWellTyped (trees_of args.now) }
    ensures { IfOk result (λ form. MatchOption form
        (exact_combined code (exact_reads (trees_of args.now) reading.old) ≡ None)
        (λ f. exact_combined code (exact_reads (trees_of args.now) reading.old) ≡ Some (f, reading.new))) }
{
    let Some(forms) = exacts_of(alloc, args, reading)? else {
        return Ok(None);
    };
    let form = combined(alloc, code, 0, forms.as_slice(), IntType::int128())?;
    Ok(limited(form))
}

/// The exact form of an operation that is an atom.
fn as_atom(
    alloc: Global,
    code: Code,
    ty: IntType,
    whole: &Term,
    args: &[Term],
    reading: &mut Reading,
) -> Result<Option<Form>, OutOfMemory>
    requires { IsWellTyped (tree_of whole.now) }
    ensures { IfOk result (λ form. MatchOption form
        (exact_atom code ty (tree_of whole.now) reading.old (operand_forms (trees_of args.now) reading.old.inner) ≡ None)
        (λ f. exact_atom code ty (tree_of whole.now) reading.old (operand_forms (trees_of args.now) reading.old.inner) ≡ Some (f, reading.new))) }
{
    let Some(operands) = operands_of(alloc, args, &mut reading.inner)? else {
        return Ok(None);
    };
    let number = meet(alloc, Atom::Operation(code, ty, operands), whole, reading)?;
    Ok(Some(atom(alloc, number)?))
}

/// The exact forms of these terms.
#[cycle(exact)]
pub(crate) fn exacts_of(
    alloc: Global,
    terms: &[Term],
    reading: &mut Reading,
) -> Result<Option<Items<Form>>, OutOfMemory>
    requires { AreWellTyped (trees_of terms.now) }
    ensures { IfOk result (λ forms. MatchOption forms
        (exact_reads (trees_of terms.now) reading.old ≡ None)
        (λ fs. exact_reads (trees_of terms.now) reading.old ≡ Some (fs, reading.new))) }
{
    let mut forms = Items::new(alloc);
    for term in terms {
        let Some(form) = exact_of(alloc, term, reading)? else {
            return Ok(None);
        };
        forms.push(form)?;
    }
    Ok(Some(forms))
}

/// The number of an atom, which is met now where it is new.
fn meet(alloc: Global, atom: Atom, term: &Term, reading: &mut Reading) -> Result<usize, OutOfMemory>
    requires { IsWellTyped (tree_of term.now) }
    ensures { IfOk result (λ number. (number, reading.new) ≡ met atom (tree_of term.now) reading.old) }
{
    let number = reading.atoms.numbered(atom)?;
    if number == reading.nodes.len() {
        reading.nodes.push(Typed::of(alloc, term)?)?;
    }
    Ok(number)
}

/// Whether the exact form of an operation is made of the forms of its operands.
fn goes_exactly(code: Code) -> bool
    ensures { result ≡ goes_exactly code }
{
    match code {
        Code::Plus | Code::Minus | Code::Mult | Code::Negate | Code::BitNot => true,
        _ => false,
    }
}

/// The value of a word modulo 2 to the 128th.
#[tactic(auto, unfolding(pm_wide::specs::Typing::well_typed_operation, pm_wide::specs::Operations::operation_value))]
fn value_bits(word: Wide) -> u128
    ensures { result ≡ residue 128 (value word) }
{
    match op_value(Code::Convert, IntType::int128(), &[word]) {
        Ok(converted) => converted.bits(),
        Err(_) => 0,
    }
}

/// A form, where it is within the limits.
fn limited(form: Form) -> Option<Form>
    ensures { MatchOption result (is_exact form ≡ false) (λ f. (f ≡ form) × (is_exact form ≡ true)) }
{
    if is_within_limits(&form) && are_small_coefficients(form.as_slice()) {
        Some(form)
    } else {
        None
    }
}

/// Whether each coefficient is of a size below 2 to the 56th.
fn are_small_coefficients(form: &[Part]) -> bool
    ensures { result ≡ list_all (λ p. is_small p.coefficient) form.now }
{
    for part in form {
        if !is_small(part.coefficient) {
            return false;
        }
    }
    true
}

/// Whether a residue stands for a number of a size below 2 to the 56th.
fn is_small(coefficient: u128) -> bool
    ensures { result ≡ is_small coefficient }
{
    coefficient < 1 << 56 || u128::MAX - coefficient < (1 << 56) - 1
}
