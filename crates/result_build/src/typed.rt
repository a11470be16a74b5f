//! The term of a draft.
ghost use Rattle.std.specs.Prelude.{◌≡◌, IfOk};
ghost use Rattle.pm_wide.specs.Types.{same_type};
ghost use Rattle.result_types.specs.Drafts.{shape_of};
ghost use Rattle.result_build.specs.TypedResults.{asked, converted, is_dropped as is_dropped_one};
ghost use Rattle.result_build.specs.TypedResults.{on_one, on_three, on_two, operation};
ghost use Rattle.result_build.specs.TypedResults.{typed as typed_in};

use pm_items::Items;
use pm_ops::{Code, OutOfMemory};
use pm_term::{BuildFault, Typed};
use pm_wide::IntType;
use result_types::{Draft, asked_types, own_type, type_where};
use std::alloc::Global;

/// The term of a draft for which a type may be asked, or nothing.
pub(crate) fn term_of(
    alloc: Global,
    draft: &Draft,
    wanted: Option<IntType>,
) -> Result<Option<Typed>, OutOfMemory>
    ensures { IfOk result (λ made. made ≡ typed_in wanted (shape_of draft.now)) }
{
    let ty = type_where(draft, wanted);
    match draft {
        Draft::Leaf(operand) => Ok(Some(Typed::leaf(*operand))),
        Draft::One(head, a) => {
            let own = own_type(a.get());
            let asked = asked_where(head.code, &ty, &own, &None);
            let a = term_of(alloc, a.get(), asked.0)?;
            conversion_or(alloc, head.code, &ty, &own, a)
        }
        Draft::Two(head, a, b) => {
            let asked = asked_where(head.code, &ty, &own_type(a.get()), &own_type(b.get()));
            let a = term_of(alloc, a.get(), asked.0)?;
            let b = term_of(alloc, b.get(), asked.1)?;
            with_two(alloc, head.code, &ty, a, b)
        }
        Draft::Three(head, a, b, c) => {
            let asked = asked_where(head.code, &ty, &own_type(a.get()), &own_type(b.get()));
            let a = term_of(alloc, a.get(), asked.0)?;
            let b = term_of(alloc, b.get(), asked.1)?;
            let c = term_of(alloc, c.get(), asked.2)?;
            with_three(alloc, head.code, &ty, a, b, c)
        }
    }
}

/// What an operation of a type that may be absent asks of its operands.
pub(crate) fn asked_where(
    code: Code,
    ty: &Option<IntType>,
    a: &Option<IntType>,
    b: &Option<IntType>,
) -> (Option<IntType>, Option<IntType>, Option<IntType>)
    ensures { result ≡ asked code ty.now a.now b.now }
{
    match ty {
        Some(ty) => asked_types(code, *ty, *a, *b),
        None => (None, None, None),
    }
}

/// Whether a conversion is one to the type that its operand has of its own.
pub(crate) fn is_dropped(code: Code, ty: &Option<IntType>, own: &Option<IntType>) -> bool
    ensures { result ≡ is_dropped_one code ty.now own.now }
{
    match (ty, own) {
        (Some(ty), Some(own)) => code.same(Code::Convert) && is_same(*own, *ty),
        (Some(_), None) => false,
        (None, _) => false,
    }
}

/// Whether two types are one.
pub(crate) fn is_same(a: IntType, b: IntType) -> bool
    ensures { result ≡ same_type a b }
{
    a.bits() == b.bits() && a.unsigned() == b.unsigned()
}

/// An operation on one term, or that term where the conversion is dropped.
fn conversion_or(
    alloc: Global,
    code: Code,
    ty: &Option<IntType>,
    own: &Option<IntType>,
    a: Option<Typed>,
) -> Result<Option<Typed>, OutOfMemory>
    ensures { IfOk result (λ made. made ≡ converted code ty.now own.now a) }
{
    if is_dropped(code, ty, own) {
        return Ok(a);
    }
    with_one(alloc, code, ty, a)
}

/// An operation on one term, where it has a type and the term is there.
fn with_one(
    alloc: Global,
    code: Code,
    ty: &Option<IntType>,
    a: Option<Typed>,
) -> Result<Option<Typed>, OutOfMemory>
    ensures { IfOk result (λ made. made ≡ on_one code ty.now a) }
{
    let Some(ty) = ty else { return Ok(None) };
    let Some(a) = a else { return Ok(None) };
    let args = Items::from_vec(vec![in alloc; a]?);
    operation_on(alloc, code, *ty, args)
}

/// On two terms.
fn with_two(
    alloc: Global,
    code: Code,
    ty: &Option<IntType>,
    a: Option<Typed>,
    b: Option<Typed>,
) -> Result<Option<Typed>, OutOfMemory>
    ensures { IfOk result (λ made. made ≡ on_two code ty.now a b) }
{
    let Some(ty) = ty else { return Ok(None) };
    let Some(a) = a else { return Ok(None) };
    let Some(b) = b else { return Ok(None) };
    let args = Items::from_vec(vec![in alloc; a, b]?);
    operation_on(alloc, code, *ty, args)
}

/// On three terms.
fn with_three(
    alloc: Global,
    code: Code,
    ty: &Option<IntType>,
    a: Option<Typed>,
    b: Option<Typed>,
    c: Option<Typed>,
) -> Result<Option<Typed>, OutOfMemory>
    ensures { IfOk result (λ made. made ≡ on_three code ty.now a b c) }
{
    let Some(ty) = ty else { return Ok(None) };
    let Some(a) = a else { return Ok(None) };
    let Some(b) = b else { return Ok(None) };
    let Some(c) = c else { return Ok(None) };
    let args = Items::from_vec(vec![in alloc; a, b, c]?);
    operation_on(alloc, code, *ty, args)
}

/// An operation on these terms, where it is well typed.
fn operation_on(
    alloc: Global,
    code: Code,
    ty: IntType,
    args: Items<Typed>,
) -> Result<Option<Typed>, OutOfMemory>
    ensures { IfOk result (λ made. made ≡ operation code ty args) }
{
    match Typed::build(alloc, code, ty, args) {
        Ok(term) => Ok(Some(term)),
        Err(BuildFault::IllTyped) => Ok(None),
        Err(BuildFault::Memory) => Err(OutOfMemory),
    }
}
