//! The methods in their order.
ghost use Rattle.std.specs.Prelude.{◌≡◌, ◌↔◌, IsTrue, IfOk, IfSome};
ghost use Rattle.pm_term.specs.Refines.{Refines};
ghost use Rattle.bit_tables.specs.TableEqual.{AreTableEqual};
ghost use Rattle.justify.specs.DefinedByRule.{IsDefined};
ghost use Rattle.justify.specs.Order.{AreRelatedByOrder};
ghost use Rattle.justify.specs.Methods.{AreWithinLimits, AreEqualAsSums, AreEqualAsBits, AreEqualByOrder, IsMethod};

use crate::defined::is_defined;
use crate::enumeration::are_enumerated;
use crate::order::are_related_by_order;
use crate::parts::is_one_type;
use bit_tables::table_equal;
use pm_ops::OutOfMemory;
use pm_term::Typed;
use ring_forms::ring_equal;
use std::alloc::Global;

/// A term, and one that is to stand for it.
#[derive(Debug, Drop)]
pub struct Instance {
    pub left: Typed,
    pub right: Typed,
}

/// Why a term may stand for another.
#[derive(Clone, Copy, Debug, PartialEq, Eq)]
pub enum Method {
    /// They are one sum of products, modulo 2 to their width.
    Ring,
    /// They are sums of bitwise terms that agree under all words.
    Table,
    /// They are comparisons whose operands have one difference, or a comparison and what it tells.
    Order,
    /// Their names have few bits, and all words of them were tried.
    Enumerate,
}

/// The first method that holds of the two terms, or none. Terms of two types, or of more than 4,096
/// operations, have none.
pub fn justify(alloc: Global, instance: &Instance) -> Result<Option<Method>, OutOfMemory>
    ensures method { IfOk result (λ m. IsMethod instance.now.left instance.now.right m) }
    ensures refines { IfOk result (λ m. IfSome m (λ _. Refines instance.now.left instance.now.right)) }
{
    let _left_typed = instance.left.term();
    let _right_typed = instance.right.term();
    first_method(alloc, &instance.left, &instance.right)
}

/// The first method that holds.
fn first_method(alloc: Global, left: &Typed, right: &Typed) -> Result<Option<Method>, OutOfMemory>
    ensures { IfOk result (λ m. IsMethod left.now right.now m) }
{
    if !are_within_limits(left, right) {
        return Ok(None);
    }
    if are_equal_as_sums(alloc, left, right)? {
        return Ok(Some(Method::Ring));
    }
    if are_equal_as_bits(alloc, left, right)? {
        return Ok(Some(Method::Table));
    }
    if are_equal_by_order(alloc, left, right)? {
        return Ok(Some(Method::Order));
    }
    if are_enumerated(alloc, left, right)? {
        return Ok(Some(Method::Enumerate));
    }
    Ok(None)
}

/// Whether two terms have one type and few enough operations.
fn are_within_limits(left: &Typed, right: &Typed) -> bool
    ensures { IsTrue result ↔ AreWithinLimits left.now right.now }
{
    is_one_type(left.ty(), right.ty()) && left.operators() <= 4096 && right.operators() <= 4096
}

/// Whether the ring method holds.
fn are_equal_as_sums(alloc: Global, left: &Typed, right: &Typed) -> Result<bool, OutOfMemory>
    ensures { IfOk result (λ b. IsTrue b ↔ AreEqualAsSums left.now right.now) }
{
    Ok(ring_equal(alloc, left, right)? && is_known(alloc, left, right)?)
}

/// Whether the table method holds.
fn are_equal_as_bits(alloc: Global, left: &Typed, right: &Typed) -> Result<bool, OutOfMemory>
    ensures { IfOk result (λ b. IsTrue b ↔ AreEqualAsBits left.now right.now) }
{
    Ok(is_table_equal(left, right) && is_known(alloc, left, right)?)
}

/// Whether the order method holds.
fn are_equal_by_order(alloc: Global, left: &Typed, right: &Typed) -> Result<bool, OutOfMemory>
    ensures { IfOk result (λ b. IsTrue b ↔ AreEqualByOrder left.now right.now) }
{
    Ok(is_related(alloc, left, right)? && is_known(alloc, left, right)?)
}

/// Whether two terms are related by order.
fn is_related(alloc: Global, left: &Typed, right: &Typed) -> Result<bool, OutOfMemory>
    ensures { IfOk result (λ b. IsTrue b ↔ AreRelatedByOrder left.now right.now) }
{
    let left = left.term();
    let right = right.term();
    let related = are_related_by_order(alloc, left, right)?;
    Ok(related)
}

/// Whether two terms are table equal.
fn is_table_equal(left: &Typed, right: &Typed) -> bool
    ensures { IsTrue result ↔ AreTableEqual left.now right.now }
{
    matches!(table_equal(left, right), Some(true))
}

/// Whether each operation of the right side is defined by rule.
fn is_known(alloc: Global, left: &Typed, right: &Typed) -> Result<bool, OutOfMemory>
    ensures { IfOk result (λ b. IsTrue b ↔ IsDefined left.now right.now) }
{
    let left = left.term();
    let right = right.term();
    let known = is_defined(alloc, right, left)?;
    Ok(known)
}
