//! Operations whose exact form tells that they have a value.
ghost use Rattle.std.specs.Prelude.{◌≡◌, ◌↔◌, IsTrue, IfOk, false};
ghost use Rattle.pm_wide.specs.Types.{value, word, in_range, int128_type};
ghost use Rattle.pm_term.specs.TermTrees.{tree_of, trees_of};
ghost use Rattle.pm_term.specs.Trees.{IsWellTyped, AreWellTyped};
ghost use Rattle.justify.specs.DefinedByRule.{HasNode, HaveNode, HasExactForm, IsNumberInRange, IsKnownExactly};

use crate::parts::{is_one_type, type_of};
use pm_ops::{Code, OutOfMemory};
use pm_term::Term;
use pm_wide::{IntType, Wide, op_value};
use ring_forms::{are_one_exactly, exact_number};
use std::alloc::Global;
use std::slice;

/// Whether the exact form of a term is that of a node of the left side of its type, or a number in
/// its range.
#[tactic(auto, unfolding(crate::specs::DefinedByRule::IsKnownExactly))]
pub(crate) fn is_known_exactly(alloc: Global, term: &Term, left: &Term) -> Result<bool, OutOfMemory>
    requires left { IsWellTyped (tree_of left.now) }
    requires term { IsWellTyped (tree_of term.now) }
    ensures { IfOk result (λ b. IsTrue b ↔ IsKnownExactly (tree_of left.now) (tree_of term.now)) }
{
    Ok(has_exact_form(alloc, left, term)? || is_number_in_range(alloc, term)?)
}

/// Whether a node of this term has the type and the exact form of another term.
#[cycle(exact_form)]
fn has_exact_form(alloc: Global, left: &Term, term: &Term) -> Result<bool, OutOfMemory>
    requires left { IsWellTyped (tree_of left.now) }
    requires term { IsWellTyped (tree_of term.now) }
    ensures { IfOk result (λ b. IsTrue b ↔ HasNode (HasExactForm (tree_of term.now)) (tree_of left.now)) }
{
    match left {
        Term::Name(version, ty) => is_leaf_exactly(alloc, Term::Name(*version, *ty), term),
        Term::Const(word) => is_leaf_exactly(alloc, Term::Const(*word), term),
        Term::Node(_, _, xs) => Ok(
            is_one_exactly(alloc, left, term)? || have_exact_form(alloc, xs.as_slice(), term)?,
        ),
    }
}

/// The same of one of these terms.
#[cycle(exact_form)]
fn have_exact_form(alloc: Global, terms: &[Term], term: &Term) -> Result<bool, OutOfMemory>
    requires terms { AreWellTyped (trees_of terms.now) }
    requires term { IsWellTyped (tree_of term.now) }
    ensures { IfOk result (λ b. IsTrue b ↔ HaveNode (HasExactForm (tree_of term.now)) (trees_of terms.now)) }
{
    for left in terms {
        if has_exact_form(alloc, left, term)? {
            return Ok(true);
        }
    }
    Ok(false)
}

/// Whether a leaf and another term have one type and one exact form.
fn is_leaf_exactly(alloc: Global, leaf: Term, term: &Term) -> Result<bool, OutOfMemory>
    requires leaf { IsWellTyped (tree_of leaf) }
    requires term { IsWellTyped (tree_of term.now) }
    ensures { IfOk result (λ b. IsTrue b ↔ HasExactForm (tree_of term.now) (tree_of leaf)) }
{
    let same = is_one_exactly(alloc, &leaf, term)?;
    Ok(same)
}

/// Whether two terms have one type and one exact form.
fn is_one_exactly(alloc: Global, left: &Term, term: &Term) -> Result<bool, OutOfMemory>
    requires left { IsWellTyped (tree_of left.now) }
    requires term { IsWellTyped (tree_of term.now) }
    ensures { IfOk result (λ b. IsTrue b ↔ HasExactForm (tree_of term.now) (tree_of left.now)) }
{
    Ok(
        is_one_type(type_of(left), type_of(term))
            && are_one_exactly(alloc, slice::from_ref(left), slice::from_ref(term))?,
    )
}

/// Whether the exact form of a term is a number in the range of its type.
#[tactic(auto, using(crate::proofs::KnownExactly::number_signed))]
fn is_number_in_range(alloc: Global, term: &Term) -> Result<bool, OutOfMemory>
    requires { IsWellTyped (tree_of term.now) }
    ensures { IfOk result (λ b. IsTrue b ↔ IsNumberInRange (tree_of term.now)) }
{
    let ty = type_of(term);
    match exact_number(alloc, slice::from_ref(term))? {
        Some(number) => Ok(is_in_range(number, ty)),
        None => Ok(false),
    }
}

/// Whether the value of a word of the widest type with a sign is one of another such type: a value
/// of it, and no other, stays what it is on the way there and back.
#[tactic(auto, unfolding(pm_wide::specs::Typing::well_typed_operation, pm_wide::specs::Operations::operation_value), using(crate::proofs::Ranges::back_is))]
fn is_in_range(number: Wide, ty: IntType) -> bool
    requires widest { number.ty ≡ int128_type }
    requires signed { ty.unsigned ≡ false }
    ensures { result ≡ in_range ty (value number) }
{
    let _known = (ty.bits(), number.bits());
    match op_value(Code::Convert, ty, &[number]) {
        Ok(there) => is_back(there, number),
        Err(_) => false,
    }
}

/// Whether a word converts to another of the widest type with a sign.
#[tactic(auto, unfolding(pm_wide::specs::Typing::well_typed_operation, pm_wide::specs::Operations::operation_value))]
fn is_back(there: Wide, number: Wide) -> bool
    ensures { IsTrue result ↔ (word int128_type (value there) ≡ number) }
{
    match op_value(Code::Convert, IntType::int128(), &[there]) {
        Ok(back) => back == number,
        Err(_) => false,
    }
}
