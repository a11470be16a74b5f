//! Comparisons that are related by the differences of their operands.
ghost use Rattle.std.specs.Prelude.{◌≡◌, ◌↔◌, ◌⊎◌, IsTrue, IfOk, Ok, Some, pos};
ghost use Rattle.pm_ops.specs.Codes.{is_comparison_code};
ghost use Rattle.pm_wide.specs.Operations.{truth};
ghost use Rattle.pm_wide.specs.Types.{value};
ghost use Rattle.pm_term.specs.TermTrees.{tree_of, trees_of};
ghost use Rattle.pm_term.specs.Trees.{types_of, IsWellTyped, AreWellTyped};
ghost use Rattle.justify.specs.Order.{type_of_two, IsRelatedAt, turned, is_equality, told, HasExactDifference, HasRingDifference, IsLikeComparison, IsToldExactly, IsToldModulo, IsToldConstant, HasRelatedOperands, AreRelatedByOrder};

use crate::parts::{is_one_type, type_of};
use pm_items::Items;
use pm_ops::{Code, OutOfMemory};
use pm_term::Term;
use pm_wide::{IntType, Undefined, Wide, op_value};
use ring_forms::{are_one_exactly, are_one_modulo, exact_number, ring_number};
use std::alloc::Global;

/// Whether two terms are related by order.
pub(crate) fn are_related_by_order(
    alloc: Global,
    left: &Term,
    right: &Term,
) -> Result<bool, OutOfMemory>
    requires left { IsWellTyped (tree_of left.now) }
    requires right { IsWellTyped (tree_of right.now) }
    ensures { IfOk result (λ b. IsTrue b ↔ AreRelatedByOrder (tree_of left.now) (tree_of right.now)) }
{
    match left {
        Term::Node(code, _, xs) => is_told_by_operands(alloc, *code, xs.as_slice(), right),
        Term::Name(..) | Term::Const(_) => Ok(false),
    }
}

/// Whether a right side is related by order to an operation on these terms.
#[tactic(auto, unfolding(crate::specs::Order::HasRelatedOperands))]
fn is_told_by_operands(
    alloc: Global,
    code: Code,
    xs: &[Term],
    right: &Term,
) -> Result<bool, OutOfMemory>
    requires operands { AreWellTyped (trees_of xs.now) }
    requires right { IsWellTyped (tree_of right.now) }
    ensures { IfOk result (λ b. IsTrue b ↔ HasRelatedOperands code (trees_of xs.now) (tree_of right.now)) }
{
    match type_of_two(xs) {
        Some(ty) => is_told_by_difference(alloc, code, ty, xs, right),
        None => Ok(false),
    }
}

/// The type of the first of two terms.
#[tactic(auto, using(crate::proofs::OperandLists::pair_has_type, crate::proofs::OperandLists::many_have_no_type, crate::proofs::OperandLists::few_have_no_type))]
fn type_of_two(xs: &[Term]) -> Option<IntType>
    ensures { result ≡ type_of_two (trees_of xs.now) }
{
    match xs {
        [a, _] => Some(type_of(a)),
        _ => None,
    }
}

/// Whether a right side is told by the difference of two operands of that type, or has it.
fn is_told_by_difference(
    alloc: Global,
    code: Code,
    ty: IntType,
    xs: &[Term],
    right: &Term,
) -> Result<bool, OutOfMemory>
    requires operands { AreWellTyped (trees_of xs.now) }
    requires right { IsWellTyped (tree_of right.now) }
    ensures { IfOk result (λ b. IsTrue b ↔ IsRelatedAt code ty (trees_of xs.now) (tree_of right.now)) }
{
    if !code.is_comparison() || !is_one_type(type_of(right), IntType::boolean()) {
        return Ok(false);
    }
    Ok(
        is_like_comparison(alloc, code, ty, xs, right)?
            || is_told_constant(alloc, code, ty, xs, right)?,
    )
}

/// Whether a right side is a comparison of operands with the same difference, or with the opposite
/// one as far as the code allows.
fn is_like_comparison(
    alloc: Global,
    code: Code,
    ty: IntType,
    xs: &[Term],
    right: &Term,
) -> Result<bool, OutOfMemory>
    requires operands { AreWellTyped (trees_of xs.now) }
    requires right { IsWellTyped (tree_of right.now) }
    ensures { IfOk result (λ b. IsTrue b ↔ IsLikeComparison code ty (trees_of xs.now) (tree_of right.now)) }
{
    match right {
        Term::Node(d, _, ys) => has_difference(alloc, code, ty, xs, *d, ys.as_slice()),
        Term::Name(..) | Term::Const(_) => Ok(false),
    }
}

/// The same of an operation on these terms.
fn has_difference(
    alloc: Global,
    code: Code,
    ty: IntType,
    xs: &[Term],
    d: Code,
    ys: &[Term],
) -> Result<bool, OutOfMemory>
    requires first { AreWellTyped (trees_of xs.now) }
    requires second { AreWellTyped (trees_of ys.now) }
    ensures { IfOk result (λ b. IsTrue b ↔ ((types_of (trees_of ys.now) ≡ types_of (trees_of xs.now))
        × (HasExactDifference code (trees_of xs.now) d (trees_of ys.now)
        ⊎ HasRingDifference code ty (trees_of xs.now) d (trees_of ys.now)))) }
{
    Ok(have_same_types(xs, ys) && has_one_difference(alloc, code, ty, xs, d, ys)?)
}

/// Whether an operation on these terms has the same difference, or the opposite one as far as the
/// code allows.
fn has_one_difference(
    alloc: Global,
    code: Code,
    ty: IntType,
    xs: &[Term],
    d: Code,
    ys: &[Term],
) -> Result<bool, OutOfMemory>
    requires first { AreWellTyped (trees_of xs.now) }
    requires second { AreWellTyped (trees_of ys.now) }
    ensures { IfOk result (λ b. IsTrue b ↔
        (HasExactDifference code (trees_of xs.now) d (trees_of ys.now)
        ⊎ HasRingDifference code ty (trees_of xs.now) d (trees_of ys.now))) }
{
    let exchanged = turned(alloc, xs)?;
    let exchanged = exchanged.as_slice();
    Ok(
        has_exact_difference(alloc, code, xs, exchanged, d, ys)?
            || has_ring_difference(alloc, code, ty, xs, exchanged, d, ys)?,
    )
}

/// Whether terms are as many, and have the same types in order.
#[tactic(auto, using(crate::proofs::OperandLists::as_many_types))]
fn have_same_types(xs: &[Term], ys: &[Term]) -> bool
    ensures { IsTrue result ↔ (types_of (trees_of ys.now) ≡ types_of (trees_of xs.now)) }
{
    if xs.len() != ys.len() {
        return false;
    }
    for i in 0..xs.len() {
        if !is_one_type(type_of(&ys[i]), type_of(&xs[i])) {
            return false;
        }
    }
    true
}

/// Two terms in the other order.
#[tactic(auto, using(crate::proofs::OperandLists::many_turned, crate::proofs::OperandLists::few_turned))]
fn turned(alloc: Global, terms: &[Term]) -> Result<Items<Term>, OutOfMemory>
    ensures { IfOk result (λ made. trees_of made ≡ turned (trees_of terms.now)) }
{
    let mut made = Items::new(alloc);
    match terms {
        [a, b] => {
            made.push(b.copy(alloc)?)?;
            made.push(a.copy(alloc)?)?;
            Ok(made)
        }
        _ => Ok(made),
    }
}

/// Whether the code is the same and the exact difference too, or the code is the swapped one and the
/// exact difference the opposite.
#[tactic(auto, unfolding(crate::specs::Order::HasExactDifference))]
fn has_exact_difference(
    alloc: Global,
    code: Code,
    xs: &[Term],
    exchanged: &[Term],
    d: Code,
    ys: &[Term],
) -> Result<bool, OutOfMemory>
    requires first { AreWellTyped (trees_of xs.now) }
    requires second { AreWellTyped (trees_of ys.now) }
    requires exchanged { trees_of exchanged.now ≡ turned (trees_of xs.now) }
    ensures { IfOk result (λ b. IsTrue b ↔ HasExactDifference code (trees_of xs.now) d (trees_of ys.now)) }
{
    if is_one_code(d, code) && are_one_exactly(alloc, xs, ys)? {
        return Ok(true);
    }
    Ok(is_one_code(d, code.swapped()) && are_one_exactly(alloc, exchanged, ys)?)
}

/// Whether the code is the same equality, and the ring difference the same or the opposite.
#[tactic(auto, unfolding(crate::specs::Order::HasRingDifference))]
fn has_ring_difference(
    alloc: Global,
    code: Code,
    ty: IntType,
    xs: &[Term],
    exchanged: &[Term],
    d: Code,
    ys: &[Term],
) -> Result<bool, OutOfMemory>
    requires first { AreWellTyped (trees_of xs.now) }
    requires second { AreWellTyped (trees_of ys.now) }
    requires exchanged { trees_of exchanged.now ≡ turned (trees_of xs.now) }
    ensures { IfOk result (λ b. IsTrue b ↔ HasRingDifference code ty (trees_of xs.now) d (trees_of ys.now)) }
{
    if !is_one_code(d, code) || !is_equality(code) {
        return Ok(false);
    }
    Ok(are_one_modulo(alloc, ty, xs, ys)? || are_one_modulo(alloc, ty, exchanged, ys)?)
}

/// Whether the two are one code.
fn is_one_code(c: Code, d: Code) -> bool
    ensures { IsTrue result ↔ (c ≡ d) }
{
    c == d
}

/// Whether a code is `==` or `!=`.
fn is_equality(code: Code) -> bool
    ensures { result ≡ is_equality code }
{
    match code {
        Code::Eq | Code::Ne => true,
        _ => false,
    }
}

/// Whether a right side is the constant that a comparison of these operands always has as its value.
fn is_told_constant(
    alloc: Global,
    code: Code,
    ty: IntType,
    xs: &[Term],
    right: &Term,
) -> Result<bool, OutOfMemory>
    requires comparison { IsTrue (is_comparison_code code) }
    requires operands { AreWellTyped (trees_of xs.now) }
    ensures { IfOk result (λ b. IsTrue b ↔ IsToldConstant code ty (trees_of xs.now) (tree_of right.now)) }
{
    match right {
        Term::Const(word) => Ok(
            is_told_exactly(alloc, code, xs, *word)? || is_told_modulo(alloc, code, ty, xs, *word)?,
        ),
        Term::Name(..) | Term::Node(..) => Ok(false),
    }
}

/// Whether the exact difference of these operands is a number, and tells that word.
fn is_told_exactly(alloc: Global, code: Code, xs: &[Term], word: Wide) -> Result<bool, OutOfMemory>
    requires comparison { IsTrue (is_comparison_code code) }
    requires operands { AreWellTyped (trees_of xs.now) }
    ensures { IfOk result (λ b. IsTrue b ↔ IsToldExactly code (trees_of xs.now) word) }
{
    match exact_number(alloc, xs)? {
        Some(number) => Ok(tells(code, number, word)),
        None => Ok(false),
    }
}

/// Whether the code is an equality, and the ring difference of these operands a number that tells
/// that word.
fn is_told_modulo(
    alloc: Global,
    code: Code,
    ty: IntType,
    xs: &[Term],
    word: Wide,
) -> Result<bool, OutOfMemory>
    requires comparison { IsTrue (is_comparison_code code) }
    requires operands { AreWellTyped (trees_of xs.now) }
    ensures { IfOk result (λ b. IsTrue b ↔ IsToldModulo code ty (trees_of xs.now) word) }
{
    if !is_equality(code) {
        return Ok(false);
    }
    match ring_number(alloc, ty, xs)? {
        Some(number) => Ok(tells_of(code, number, word)),
        None => Ok(false),
    }
}

/// Whether a difference that is that number tells that word.
#[tactic(auto, using(crate::proofs::Comparisons::plain_value))]
fn tells_of(code: Code, number: u128, word: Wide) -> bool
    requires { IsTrue (is_comparison_code code) }
    ensures { IsTrue result ↔ (truth (told code (pos number)) ≡ Some word) }
{
    tells(code, Wide::reduce(number, IntType::unsigned_int128()), word)
}

/// The same, where the number is the value of a word.
#[tactic(auto, using(crate::proofs::Comparisons::comparison_typed, crate::proofs::Comparisons::tells_is))]
fn tells(code: Code, number: Wide, word: Wide) -> bool
    requires { IsTrue (is_comparison_code code) }
    ensures { IsTrue result ↔ (truth (told code (value number)) ≡ Some word) }
{
    let zero = Wide::reduce(0, number.ty());
    gives(op_value(code, IntType::boolean(), &[number, zero]), word)
}

/// Whether an operation gave that word.
fn gives(outcome: Result<Wide, Undefined>, word: Wide) -> bool
    ensures { IsTrue result ↔ (outcome ≡ Ok word) }
{
    match outcome {
        Ok(value) => value == word,
        Err(_) => false,
    }
}
