//! The ring form of a term.
ghost use Rattle.std.specs.Prelude.{◌≡◌, ◌<◌, IfOk, IfSome, MatchOption, Some, None};
ghost use Rattle.pm_term.specs.TermTrees.{tree_of, trees_of};
ghost use Rattle.pm_term.specs.Trees.{type_of};
ghost use Rattle.ring_forms.specs.RingForms.{goes_by_parts, small_constant, constant_places, has_bits};
ghost use Rattle.ring_forms.specs.TableForms.{unary_form, binary_form, combined_form, operation_form, ring_form, ring_forms, operand_forms};

use crate::arithmetic::{negated, product, sum};
use crate::atom::{Atom, AtomOperand};
use crate::form::{Form, Part, atom, constant, copied, is_within_limits, reduced};
use crate::table::AtomTable;
use pm_items::Items;
use pm_ops::{Code, OutOfMemory};
use pm_term::Term;
use pm_wide::IntType;
use std::alloc::Global;

/// The form of a term modulo 2 to the width of the type, over the atoms of the table and those that
/// it adds; none where a part is past the limits.
#[cycle(form)]
pub(crate) fn form_of(
    alloc: Global,
    term: &Term,
    ty: IntType,
    table: &mut AtomTable,
) -> Result<Option<Form>, OutOfMemory>
    ensures { IfOk result (λ form. MatchOption form
        (ring_form ty.width (tree_of term.now) table.old ≡ None)
        (λ f. ring_form ty.width (tree_of term.now) table.old ≡ Some (f, table.new))) }
{
    match term {
        Term::Name(version, name_ty) => {
            let number = table.numbered(Atom::Name(*version, *name_ty))?;
            Ok(Some(atom(alloc, number)?))
        }
        Term::Const(word) => Ok(Some(constant(alloc, reduced(word.bits(), ty))?)),
        Term::Node(code, own, args) => operation_form(
            alloc,
            *code,
            *own,
            args.as_slice(),
            ty,
            table,
        ),
    }
}

/// The form of an operation on these terms.
#[cycle(form)]
fn operation_form(
    alloc: Global,
    code: Code,
    own: IntType,
    args: &[Term],
    ty: IntType,
    table: &mut AtomTable,
) -> Result<Option<Form>, OutOfMemory>
    ensures { IfOk result (λ form. MatchOption form
        (operation_form ty.width code own (trees_of args.now) table.old ≡ None)
        (λ f. operation_form ty.width code own (trees_of args.now) table.old ≡ Some (f, table.new))) }
{
    if goes_by_parts(code, own, args, ty) {
        let Some(forms) = forms_of(alloc, args, ty, table)? else {
            return Ok(None);
        };
        let places = places_of(own, args).unwrap_or(0);
        let form = combined(alloc, code, places, forms.as_slice(), ty)?;
        return Ok(if is_within_limits(&form) {
            Some(form)
        } else {
            None
        });
    }
    let Some(operands) = operands_of(alloc, args, table)? else {
        return Ok(None);
    };
    let number = table.numbered(Atom::Operation(code, own, operands))?;
    Ok(Some(atom(alloc, number)?))
}

/// The forms of these terms.
#[cycle(form)]
pub(crate) fn forms_of(
    alloc: Global,
    terms: &[Term],
    ty: IntType,
    table: &mut AtomTable,
) -> Result<Option<Items<Form>>, OutOfMemory>
    ensures { IfOk result (λ forms. MatchOption forms
        (ring_forms ty.width (trees_of terms.now) table.old ≡ None)
        (λ fs. ring_forms ty.width (trees_of terms.now) table.old ≡ Some (fs, table.new))) }
{
    let mut forms = Items::new(alloc);
    for term in terms {
        let Some(form) = form_of(alloc, term, ty, table)? else {
            return Ok(None);
        };
        forms.push(form)?;
    }
    Ok(Some(forms))
}

/// The types of these terms with their forms at full width.
#[cycle(form)]
pub(crate) fn operands_of(
    alloc: Global,
    terms: &[Term],
    table: &mut AtomTable,
) -> Result<Option<Items<AtomOperand>>, OutOfMemory>
    ensures { IfOk result (λ operands. MatchOption operands
        (operand_forms (trees_of terms.now) table.old ≡ None)
        (λ os. operand_forms (trees_of terms.now) table.old ≡ Some (os, table.new))) }
{
    let mut operands = Items::new(alloc);
    for term in terms {
        let ty = type_of(term);
        let Some(form) = form_of(alloc, term, ty, table)? else {
            return Ok(None);
        };
        operands.push(AtomOperand { ty, form })?;
    }
    Ok(Some(operands))
}

/// The type of a term.
pub(crate) fn type_of(term: &Term) -> IntType
    ensures { result ≡ type_of (tree_of term.now) }
{
    match term {
        Term::Name(_, ty) | Term::Node(_, ty, _) => *ty,
        Term::Const(word) => word.ty(),
    }
}

/// The form of an operation of the forms of its operands.
pub(crate) fn combined(
    alloc: Global,
    code: Code,
    places: u8,
    forms: &[Form],
    ty: IntType,
) -> Result<Form, OutOfMemory>
    requires { places < 128 }
    ensures { IfOk result (λ form. form ≡ combined_form ty.width code places forms.now) }
{
    match forms {
        [f] => unary(alloc, code, f.as_slice(), ty),
        [f, g] => binary(alloc, code, places, f.as_slice(), g.as_slice(), ty),
        _ => Ok(Items::new(alloc)),
    }
}

/// The same of one operand.
#[tactic(auto, using(crate::proofs::FormLemmas::minus_one))]
fn unary(alloc: Global, code: Code, f: &[Part], ty: IntType) -> Result<Form, OutOfMemory>
    ensures { IfOk result (λ form. form ≡ unary_form ty.width code f.now) }
{
    match code {
        Code::Negate => negated(alloc, f, ty),
        Code::BitNot => {
            let minus_one = constant(alloc, reduced(u128::MAX, ty))?;
            let negative = negated(alloc, f, ty)?;
            sum(alloc, minus_one.as_slice(), negative.as_slice(), ty)
        }
        _ => copied(alloc, f),
    }
}

/// The same of two operands.
fn binary(
    alloc: Global,
    code: Code,
    places: u8,
    f: &[Part],
    g: &[Part],
    ty: IntType,
) -> Result<Form, OutOfMemory>
    requires { places < 128 }
    ensures { IfOk result (λ form. form ≡ binary_form ty.width code places f.now g.now) }
{
    match code {
        Code::Minus => {
            let negative = negated(alloc, g, ty)?;
            sum(alloc, f, negative.as_slice(), ty)
        }
        Code::Mult => product(alloc, f, g, ty),
        Code::Lshift => {
            let power = constant(alloc, reduced(1 << places, ty))?;
            product(alloc, f, power.as_slice(), ty)
        }
        _ => sum(alloc, f, g, ty),
    }
}

/// Whether the form of an operation is made of the forms of its operands.
fn goes_by_parts(code: Code, own: IntType, args: &[Term], ty: IntType) -> bool
    ensures { result ≡ goes_by_parts ty.width code own (trees_of args.now) }
{
    match code {
        Code::Plus | Code::Minus | Code::Mult | Code::Negate | Code::BitNot => true,
        Code::Convert => has_bits(args, ty.bits()),
        Code::Lshift => places_of(own, args).is_some(),
        _ => false,
    }
}

/// Whether this is one operand of so many bits at least.
#[tactic(auto, using(crate::proofs::TermLemmas::many_have_no_bits))]
fn has_bits(args: &[Term], bits: u8) -> bool
    ensures { result ≡ has_bits bits (trees_of args.now) }
{
    match args {
        [a] => bits <= type_of(a).bits(),
        _ => false,
    }
}

/// The places of a shift by a constant, where they are below the width.
#[tactic(auto, using(crate::proofs::TermLemmas::many_have_no_places, crate::proofs::TermLemmas::few_have_no_places))]
fn places_of(own: IntType, args: &[Term]) -> Option<u8>
    ensures value { result ≡ constant_places own (trees_of args.now) }
    ensures within { IfSome result (λ places. places < 128) }
{
    match args {
        [_, places] => small_constant(places, own.bits()),
        _ => None,
    }
}

/// A constant below a width.
fn small_constant(term: &Term, width: u8) -> Option<u8>
    requires { width < 129 }
    ensures value { result ≡ small_constant width (tree_of term.now) }
    ensures within { IfSome result (λ places. places < 128) }
{
    match term {
        Term::Const(word) if word.bits() < u128::from(width) => Some(word.bits() as u8),
        _ => None,
    }
}
