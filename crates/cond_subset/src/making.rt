//! Expressions as typed trees: each with the static type that its parts give it, or the first
//! place where they don't fit.

ghost use Rattle.std.specs.Prelude.{◌≡◌, [], map, IfOk};
ghost use Rattle.pm_places.specs.Spans.{text_of};
ghost use Rattle.pd_ast.specs.declared.c_text.CType.TheVariants.{Truth, Oper};
ghost use Rattle.cond_subset.specs.Trees.{expr_of, exprs};
ghost use Rattle.cond_subset.specs.Leaves.{type_of};
ghost use Rattle.cond_subset.specs.Making as making;
ghost use Rattle.cond_subset.specs.Names as names;
ghost use Rattle.cond_subset.specs.Types.{Finds};

use crate::leaves::{capture_name, name_meaning, number_of};
use crate::names::{callee_name, is_code_test};
use crate::part::fault_at;
use crate::scope::{Scope, Typed};
use crate::signatures::{binary_type, unary_type};
use crate::tree::{Callee, ExprText};
use crate::types::{called_type, choice_type, code_type, or_fault_at, start_of};
use pd_ast::{BinaryOperator, CExpr, CNode, CType, UnaryOperator};
use pm_items::{Boxed, Items};
use pm_ops::{OutOfMemory, PatternFault, PatternKind, Text};
use pm_places::{Span, text};
use std::alloc::Global;

/// A number, a capture or a name that is known.
fn make_number(text: &[u8]) -> CExpr
    ensures { result ≡ making.number_made text.now }
{
    CExpr {
        node: CNode::Number(number_of(text)),
        ty: CType::Int,
    }
}

/// A capture.
fn make_capture(alloc: Global, text: &[u8]) -> Result<CExpr, OutOfMemory>
    ensures { IfOk result (λ e. e ≡ making.capture_made text.now) }
{
    Ok(CExpr {
        node: CNode::Capture(Text::new(alloc, capture_name(text))?),
        ty: CType::Oper,
    })
}

/// The node of an operator before its operand.
fn unary_node(alloc: Global, operator: UnaryOperator, a: CExpr) -> Result<CNode, OutOfMemory>
    ensures { IfOk result (λ node. node ≡ making.unary_node operator a) }
{
    let a = Boxed::new(alloc, a)?;
    let name = Text::new(alloc, operator.name().as_bytes())?;
    Ok(CNode::Unary(name, a))
}

/// An operator before its operand.
fn make_unary(
    alloc: Global,
    operator: UnaryOperator,
    at: Span,
    a: CExpr,
) -> Result<CExpr, PatternFault>
    ensures { Finds (making.unary_made operator at a) result }
{
    let ty = or_fault_at(at, unary_type(operator, a.ty))?;
    let node = unary_node(alloc, operator, a)?;
    Ok(CExpr { node, ty })
}

/// The node of an operator between its operands.
fn binary_node(
    alloc: Global,
    operator: BinaryOperator,
    a: CExpr,
    b: CExpr,
) -> Result<CNode, OutOfMemory>
    ensures { IfOk result (λ node. node ≡ making.binary_node operator a b) }
{
    let a = Boxed::new(alloc, a)?;
    let b = Boxed::new(alloc, b)?;
    let name = Text::new(alloc, operator.name().as_bytes())?;
    Ok(CNode::Binary(name, a, b))
}

/// An operator between its operands.
fn make_binary(
    alloc: Global,
    operator: BinaryOperator,
    at: Span,
    a: CExpr,
    b: CExpr,
) -> Result<CExpr, PatternFault>
    ensures { Finds (making.binary_made operator at a b) result }
{
    let ty = or_fault_at(at, binary_type(operator, a.ty, b.ty))?;
    let node = binary_node(alloc, operator, a, b)?;
    Ok(CExpr { node, ty })
}

/// The node of a choice.
fn choice_node(alloc: Global, c: CExpr, a: CExpr, b: CExpr) -> Result<CNode, OutOfMemory>
    ensures { IfOk result (λ node. node ≡ making.choice_node c a b) }
{
    let c = Boxed::new(alloc, c)?;
    let a = Boxed::new(alloc, a)?;
    let b = Boxed::new(alloc, b)?;
    Ok(CNode::Choose(c, a, b))
}

/// A choice.
fn make_choice(alloc: Global, at: Span, c: CExpr, a: CExpr, b: CExpr) -> Result<CExpr, PatternFault>
    ensures { Finds (making.choice_made at c a b) result }
{
    let ty = or_fault_at(at, choice_type(c.ty, a.ty, b.ty))?;
    let node = choice_node(alloc, c, a, b)?;
    Ok(CExpr { node, ty })
}

/// The types of these expressions.
pub(crate) fn types_of(alloc: Global, args: &[CExpr]) -> Result<Vec<CType>, OutOfMemory>
    ensures { IfOk result (λ types. types.items ≡ map type_of args.now) }
{
    let mut types = Vec::new(alloc);
    for arg in args {
        types.push(arg.ty)?;
    }
    Ok(types)
}

/// The type of a call of these arguments.
fn type_of_call(
    alloc: Global,
    source: &[u8],
    callee: &Callee,
    args: &[CExpr],
) -> Result<CType, PatternFault>
    ensures { Finds (making.type_of_call source.now callee.now args.now) result }
{
    let types = types_of(alloc, args)?;
    called_type(alloc, source, callee, &types)
}

/// The name of a call.
pub(crate) fn call_name(alloc: Global, source: &[u8], callee: &Callee) -> Result<Text, OutOfMemory>
    ensures { IfOk result (λ name. name ≡ names.callee_name source.now callee.now) }
{
    let name = callee_name(alloc, source, callee)?;
    Text::new(alloc, &name)
}

/// A call.
fn make_call(
    alloc: Global,
    source: &[u8],
    callee: &Callee,
    args: Items<CExpr>,
) -> Result<CExpr, PatternFault>
    ensures { Finds (making.call_made source.now callee.now args) result }
{
    let ty = type_of_call(alloc, source, callee, args.as_slice())?;
    let name = call_name(alloc, source, callee)?;
    Ok(CExpr {
        node: CNode::Call(name, args),
        ty,
    })
}

/// Whether an operator is `==`.
fn is_equal(operator: BinaryOperator) -> bool
    ensures { result ≡ making.is_equal operator }
{
    match operator {
        BinaryOperator::Eq => true,
        _ => false,
    }
}

/// Whether an expression is `INTEGER_CST`.
fn is_constant(source: &[u8], expr: &ExprText) -> bool
    ensures { result ≡ making.is_constant source.now (expr_of expr.now) }
{
    match expr {
        ExprText::Name(at) => text(source, *at) == b"INTEGER_CST".as_slice(),
        _ => false,
    }
}

/// The only one of these arguments, where there is one and no more.
#[tactic(auto, using(crate::proofs::OneArgument::none_of_more))]
fn only_one(args: Items<CExpr>) -> Option<CExpr>
    ensures { result ≡ making.only_one args }
{
    let mut args = args;
    let last = args.pop()?;
    if args.is_empty() { Some(last) } else { None }
}

/// The comparison of the `TREE_CODE` of the only argument, which stands at a place.
fn make_test(
    alloc: Global,
    at: Span,
    equal: bool,
    constant: bool,
    only: Option<CExpr>,
) -> Result<CExpr, PatternFault>
    ensures { Finds (making.test_made at equal constant only) result }
{
    match only {
        Some(a) => {
            let ty = or_fault_at(at, code_type(a.ty))?;
            let node = CNode::CodeTest(Boxed::new(alloc, a)?, equal, constant);
            Ok(CExpr { node, ty })
        }
        None => Err(fault_at(PatternKind::CType, at)),
    }
}

/// The typed tree of an expression whose names are known, or its first fault.
#[cycle(making)]
pub(crate) fn make(
    alloc: Global,
    source: &[u8],
    scope: &Scope,
    block: &[Typed],
    expr: &ExprText,
) -> Result<CExpr, PatternFault>
    ensures { Finds (making.made source.now scope.now block.now (expr_of expr.now)) result }
{
    match expr {
        ExprText::Number(at) => Ok(make_number(text(source, *at))),
        ExprText::Capture(at) => Ok(make_capture(alloc, text(source, *at))?),
        ExprText::Name(at) => Ok(name_meaning(alloc, source, scope, block, text(source, *at))?),
        ExprText::Parens(_, a) => make(alloc, source, scope, block, a.get()),
        ExprText::Unary(operator, at, a) => {
            let a = make(alloc, source, scope, block, a.get())?;
            make_unary(alloc, *operator, *at, a)
        }
        ExprText::Binary(operator, at, a, b) => {
            if is_code_test(source, *operator, a.get(), b.get()) {
                let equal = is_equal(*operator);
                let constant = is_constant(source, b.get());
                return make_test_in(alloc, source, scope, block, equal, constant, a.get());
            }
            let a = make(alloc, source, scope, block, a.get())?;
            let b = make(alloc, source, scope, block, b.get())?;
            make_binary(alloc, *operator, *at, a, b)
        }
        ExprText::Choose(at, c, a, b) => {
            let c = make(alloc, source, scope, block, c.get())?;
            let a = make(alloc, source, scope, block, a.get())?;
            let b = make(alloc, source, scope, block, b.get())?;
            make_choice(alloc, *at, c, a, b)
        }
        ExprText::Call(callee, args) => {
            let args = make_all(alloc, source, scope, block, args.as_slice())?;
            make_call(alloc, source, callee, args)
        }
    }
}

/// The comparison of this `TREE_CODE (..)`.
#[cycle(making)]
fn make_test_in(
    alloc: Global,
    source: &[u8],
    scope: &Scope,
    block: &[Typed],
    equal: bool,
    constant: bool,
    expr: &ExprText,
) -> Result<CExpr, PatternFault>
    ensures { Finds (making.test_in source.now scope.now block.now equal constant (expr_of expr.now)) result }
{
    match expr {
        ExprText::Call(callee, args) => {
            let args = make_all(alloc, source, scope, block, args.as_slice())?;
            make_test(alloc, callee.name, equal, constant, only_one(args))
        }
        _ => Err(fault_at(PatternKind::CType, start_of(expr))),
    }
}

/// Arguments, or the first fault of one.
#[cycle(making)]
pub(crate) fn make_all(
    alloc: Global,
    source: &[u8],
    scope: &Scope,
    block: &[Typed],
    args: &[ExprText],
) -> Result<Items<CExpr>, PatternFault>
    ensures { Finds (making.made_after source.now scope.now block.now [] (exprs (map expr_of args.now))) result }
{
    let mut made = Items::new(alloc);
    for arg in args {
        let one = make(alloc, source, scope, block, arg)?;
        made.push(one)?;
    }
    Ok(made)
}

/// A whole part that is to have this type.
fn make_part(
    alloc: Global,
    wanted: CType,
    source: &[u8],
    scope: &Scope,
    expr: &ExprText,
) -> Result<CExpr, PatternFault>
    ensures { Finds (making.part_made wanted source.now scope.now (expr_of expr.now)) result }
{
    let made = make(alloc, source, scope, &[], expr)?;
    if made.ty == wanted {
        Ok(made)
    } else {
        Err(fault_at(PatternKind::CType, start_of(expr)))
    }
}

/// The typed tree of a condition whose names are known, or its first fault of types: a condition
/// is a truth.
pub fn make_cond(
    alloc: Global,
    source: &[u8],
    scope: &Scope,
    expr: &ExprText,
) -> Result<CExpr, PatternFault>
    ensures { Finds (making.part_made Truth source.now scope.now (expr_of expr.now)) result }
{
    make_part(alloc, CType::Truth, source, scope, expr)
}

/// The typed tree of an operand in braces whose names are known, or its first fault of types: a
/// brace is an operand.
pub fn make_brace(
    alloc: Global,
    source: &[u8],
    scope: &Scope,
    expr: &ExprText,
) -> Result<CExpr, PatternFault>
    ensures { Finds (making.part_made Oper source.now scope.now (expr_of expr.now)) result }
{
    make_part(alloc, CType::Oper, source, scope, expr)
}
