//! Whether each operation of a right side is known to have a value wherever the left side has one.
ghost use Rattle.std.specs.Prelude.{◌≡◌, ◌↔◌, ◌&&◌, not, pos, negsuc, IsTrue, IfOk};
ghost use Rattle.pm_wide.specs.Operations.{int_same};
ghost use Rattle.pm_wide.specs.Types.{value};
ghost use Rattle.pm_term.specs.TermTrees.{tree_of, trees_of};
ghost use Rattle.pm_term.specs.Trees.{node, types_of, IsWellTyped, AreWellTyped};
ghost use Rattle.ring_forms.specs.RingForms.{AreRingEqual};
ghost use Rattle.justify.specs.DefinedByRule.{always_has_value, has_truth_count, constant_of, second_constant, HasFineConstant, IsFineConstant, IsTwin, HasNode, HaveNode, AreRingEqualInOrder, IsKnownExactly, IsDefinedAlone, IsKnownFrom, IsDefinedByRule, IsDefined, AreDefined};

use crate::exact::is_known_exactly;
use crate::parts::type_of;
use pm_ops::{Code, OutOfMemory};
use pm_term::{Term, Typed};
use pm_wide::{IntType, Wide};
use ring_forms::ring_equal;
use std::alloc::Global;

/// Whether each operation of a term is defined by rule, for this left side.
#[cycle(defined)]
pub(crate) fn is_defined(alloc: Global, term: &Term, left: &Term) -> Result<bool, OutOfMemory>
    requires left { IsWellTyped (tree_of left.now) }
    requires term { IsWellTyped (tree_of term.now) }
    ensures { IfOk result (λ b. IsTrue b ↔ IsDefined (tree_of left.now) (tree_of term.now)) }
{
    match term {
        Term::Name(..) | Term::Const(_) => Ok(true),
        Term::Node(code, ty, args) => {
            let args = args.as_slice();
            Ok(
                is_defined_by_rule(alloc, left, term, *code, *ty, args)?
                    && are_defined(alloc, args, left)?,
            )
        }
    }
}

/// The same of all of these terms.
#[cycle(defined)]
fn are_defined(alloc: Global, terms: &[Term], left: &Term) -> Result<bool, OutOfMemory>
    requires left { IsWellTyped (tree_of left.now) }
    requires terms { AreWellTyped (trees_of terms.now) }
    ensures { IfOk result (λ b. IsTrue b ↔ AreDefined (tree_of left.now) (trees_of terms.now)) }
{
    for term in terms {
        if !is_defined(alloc, term, left)? {
            return Ok(false);
        }
    }
    Ok(true)
}

/// Whether an operation on these terms is defined by rule, for this left side.
fn is_defined_by_rule(
    alloc: Global,
    left: &Term,
    whole: &Term,
    code: Code,
    ty: IntType,
    args: &[Term],
) -> Result<bool, OutOfMemory>
    requires left { IsWellTyped (tree_of left.now) }
    requires whole { IsWellTyped (tree_of whole.now) }
    requires args { AreWellTyped (trees_of args.now) }
    requires parts { tree_of whole.now ≡ node code ty (trees_of args.now) }
    ensures { IfOk result (λ b. IsTrue b ↔ IsDefinedByRule (tree_of left.now) code ty (trees_of args.now)) }
{
    Ok(is_defined_alone(code, ty, args) || is_known_from(alloc, left, whole, code, ty, args)?)
}

/// Whether an operation on these terms is defined by rule whatever the left side is.
#[tactic(auto, unfolding(crate::specs::DefinedByRule::IsDefinedAlone))]
fn is_defined_alone(code: Code, ty: IntType, args: &[Term]) -> bool
    ensures { IsTrue result ↔ IsDefinedAlone code ty (trees_of args.now) }
{
    always_has_value(code, ty, args) || has_fine_constant(code, ty, args)
}

/// Whether an operation on these terms, which is that whole term, is known to have a value from this
/// left side, or from its exact form.
#[tactic(auto, unfolding(crate::specs::DefinedByRule::IsKnownFrom))]
fn is_known_from(
    alloc: Global,
    left: &Term,
    whole: &Term,
    code: Code,
    ty: IntType,
    args: &[Term],
) -> Result<bool, OutOfMemory>
    requires left { IsWellTyped (tree_of left.now) }
    requires whole { IsWellTyped (tree_of whole.now) }
    requires args { AreWellTyped (trees_of args.now) }
    requires parts { tree_of whole.now ≡ node code ty (trees_of args.now) }
    ensures { IfOk result (λ b. IsTrue b ↔ IsKnownFrom (tree_of left.now) code ty (trees_of args.now)) }
{
    Ok(has_twin(alloc, left, code, ty, args)? || is_known_as(alloc, whole, left, code, ty, args)?)
}

/// Whether the exact form of an operation on these terms tells that it has a value.
fn is_known_as(
    alloc: Global,
    whole: &Term,
    left: &Term,
    code: Code,
    ty: IntType,
    args: &[Term],
) -> Result<bool, OutOfMemory>
    requires left { IsWellTyped (tree_of left.now) }
    requires whole { IsWellTyped (tree_of whole.now) }
    requires parts { tree_of whole.now ≡ node code ty (trees_of args.now) }
    ensures { IfOk result (λ b. IsTrue b ↔ IsKnownExactly (tree_of left.now) (node code ty (trees_of args.now))) }
{
    is_known_exactly(alloc, whole, left)
}

/// Whether an operation on these terms has a value on all words of their types.
fn always_has_value(code: Code, ty: IntType, args: &[Term]) -> bool
    ensures { result ≡ always_has_value code ty (types_of (trees_of args.now)) }
{
    match code {
        Code::Plus | Code::Minus | Code::Mult | Code::Negate => ty.unsigned(),
        Code::Lshift | Code::Rshift => has_truth_count(ty, args),
        Code::TruncDiv | Code::TruncMod | Code::Abs => false,
        _ => true,
    }
}

/// Whether a type of more bits than one is shifted by a `_Bool`.
#[tactic(auto, using(crate::proofs::OperandLists::many_have_no_count, crate::proofs::OperandLists::few_have_no_count))]
fn has_truth_count(ty: IntType, args: &[Term]) -> bool
    ensures { result ≡ has_truth_count ty (types_of (trees_of args.now)) }
{
    match args {
        [_, count] => type_of(count) == IntType::boolean() && ty.bits() != 1,
        _ => false,
    }
}

/// Whether the second operand is a constant by which one may shift or divide.
fn has_fine_constant(code: Code, ty: IntType, args: &[Term]) -> bool
    ensures { IsTrue result ↔ HasFineConstant code ty (trees_of args.now) }
{
    match second_constant(args) {
        Some(word) => is_fine_constant(code, ty, word),
        None => false,
    }
}

/// The second of two operands, where it is a constant.
#[tactic(auto, using(crate::proofs::OperandLists::many_have_no_constant, crate::proofs::OperandLists::few_have_no_constant))]
fn second_constant(args: &[Term]) -> Option<Wide>
    ensures { result ≡ second_constant (trees_of args.now) }
{
    match args {
        [_, second] => constant_of(second),
        _ => None,
    }
}

/// The word of a constant.
fn constant_of(term: &Term) -> Option<Wide>
    ensures { result ≡ constant_of (tree_of term.now) }
{
    match term {
        Term::Const(word) => Some(*word),
        Term::Name(..) | Term::Node(..) => None,
    }
}

/// Whether one may shift or divide by this constant.
#[tactic(auto, using(crate::proofs::FineConstants::place_is))]
fn is_fine_constant(code: Code, ty: IntType, word: Wide) -> bool
    ensures { IsTrue result ↔ IsFineConstant code ty word }
{
    match code {
        Code::Lshift | Code::Rshift => word.bits() < u128::from(ty.bits()),
        Code::TruncDiv | Code::TruncMod => is_fine_divisor(word),
        _ => false,
    }
}

/// Whether one may divide by this constant.
#[tactic(auto, using(crate::proofs::FineConstants::divisor_is))]
fn is_fine_divisor(word: Wide) -> bool
    ensures { result ≡ (not (int_same (value word) (pos 0)) && not (int_same (value word) (negsuc 0))) }
{
    let ty = word.ty();
    let minus_one = Wide::reduce(u128::MAX, ty).bits();
    word.bits() != 0 && (ty.unsigned() || word.bits() != minus_one)
}

/// Whether a node of this term has that code and type, and operands that are ring equal to these.
#[cycle(twin)]
fn has_twin(
    alloc: Global,
    left: &Term,
    code: Code,
    ty: IntType,
    args: &[Term],
) -> Result<bool, OutOfMemory>
    requires left { IsWellTyped (tree_of left.now) }
    requires args { AreWellTyped (trees_of args.now) }
    ensures { IfOk result (λ b. IsTrue b ↔ HasNode (IsTwin code ty (trees_of args.now)) (tree_of left.now)) }
{
    match left {
        Term::Name(..) | Term::Const(_) => Ok(false),
        Term::Node(c, t, xs) => {
            let xs = xs.as_slice();
            Ok(is_twin(alloc, *c, *t, xs, code, ty, args)? || have_twin(alloc, xs, code, ty, args)?)
        }
    }
}

/// The same of one of these terms.
#[cycle(twin)]
fn have_twin(
    alloc: Global,
    terms: &[Term],
    code: Code,
    ty: IntType,
    args: &[Term],
) -> Result<bool, OutOfMemory>
    requires terms { AreWellTyped (trees_of terms.now) }
    requires args { AreWellTyped (trees_of args.now) }
    ensures { IfOk result (λ b. IsTrue b ↔ HaveNode (IsTwin code ty (trees_of args.now)) (trees_of terms.now)) }
{
    for term in terms {
        if has_twin(alloc, term, code, ty, args)? {
            return Ok(true);
        }
    }
    Ok(false)
}

/// Whether two operations have one code, one type, and operands that are ring equal in order.
fn is_twin(
    alloc: Global,
    c: Code,
    t: IntType,
    xs: &[Term],
    code: Code,
    ty: IntType,
    args: &[Term],
) -> Result<bool, OutOfMemory>
    requires first { AreWellTyped (trees_of xs.now) }
    requires second { AreWellTyped (trees_of args.now) }
    ensures { IfOk result (λ b. IsTrue b ↔ IsTwin code ty (trees_of args.now) (node c t (trees_of xs.now))) }
{
    Ok(is_one_operation(c, t, code, ty) && are_ring_equal(alloc, xs, args)?)
}

/// Whether two operations have one code and one type.
fn is_one_operation(c: Code, s: IntType, d: Code, t: IntType) -> bool
    ensures { IsTrue result ↔ ((c ≡ d) × (s ≡ t)) }
{
    c == d && s == t
}

/// Whether terms are as many and ring equal in order.
#[tactic(auto, using(crate::proofs::OperandLists::as_many))]
fn are_ring_equal(alloc: Global, a: &[Term], b: &[Term]) -> Result<bool, OutOfMemory>
    requires first { AreWellTyped (trees_of a.now) }
    requires second { AreWellTyped (trees_of b.now) }
    ensures { IfOk result (λ r. IsTrue r ↔ AreRingEqualInOrder (trees_of a.now) (trees_of b.now)) }
{
    if a.len() != b.len() {
        return Ok(false);
    }
    for i in 0..a.len() {
        if !are_one_form(alloc, &a[i], &b[i])? {
            return Ok(false);
        }
    }
    Ok(true)
}

/// Whether two terms are ring equal.
fn are_one_form(alloc: Global, a: &Term, b: &Term) -> Result<bool, OutOfMemory>
    requires first { IsWellTyped (tree_of a.now) }
    requires second { IsWellTyped (tree_of b.now) }
    ensures { IfOk result (λ r. IsTrue r ↔ AreRingEqual (tree_of a.now) (tree_of b.now)) }
{
    ring_equal(alloc, &Typed::of(alloc, a)?, &Typed::of(alloc, b)?)
}
