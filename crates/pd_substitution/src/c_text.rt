//! C text with a substitution made. A call `.._anew` gives none where what it is asked about stays
//! as it is.
ghost use Rattle.std.specs.Prelude.{◌≡◌, map, option_map, unwrap_or, IfOk};
ghost use Rattle.pd_ast.specs.declared.c_text.CNode.TheVariants as nodes;
ghost use Rattle.pd_substitution.specs.Substituted.{decl_with, expr_with, node_with};

use crate::leaves::{capture_anew, choice_anew, subject_anew, subject_type_anew};
use crate::substitution::Substitution;
use pd_ast::{CDecl, CExpr, CNode};
use pm_items::{Boxed, Items};
use pm_ops::{OutOfMemory, Text};
use std::alloc::Global;

/// An expression with the substitution made.
pub fn expr_with(alloc: Global, by: &Substitution, expr: &CExpr) -> Result<CExpr, OutOfMemory>
    ensures { IfOk result (λ made. made ≡ expr_with by.now expr.now) }
{
    let anew = expr_anew(alloc, by, expr)?;
    or_copied(alloc, anew, expr)
}

/// The expression made anew, or else a copy of this one.
pub fn or_copied(alloc: Global, anew: Option<CExpr>, expr: &CExpr) -> Result<CExpr, OutOfMemory>
    ensures { IfOk result (λ made. made ≡ unwrap_or anew expr.now) }
{
    match anew {
        Some(anew) => Ok(anew),
        None => expr.copy(alloc),
    }
}

#[cycle(c_with)]
pub fn expr_anew(
    alloc: Global,
    by: &Substitution,
    expr: &CExpr,
) -> Result<Option<CExpr>, OutOfMemory>
    ensures { IfOk result (λ made. unwrap_or made expr.now ≡ expr_with by.now expr.now) }
{
    match node_anew(alloc, by, &expr.node)? {
        Some(node) => Ok(Some(CExpr { node, ty: expr.ty })),
        None => Ok(None),
    }
}

#[cycle(c_with)]
fn node_anew(alloc: Global, by: &Substitution, node: &CNode) -> Result<Option<CNode>, OutOfMemory>
    ensures { IfOk result (λ made. unwrap_or made node.now ≡ node_with by.now node.now) }
{
    match node {
        CNode::Number(_) | CNode::Truth(_) | CNode::Sign(_) | CNode::OfCode(_) => Ok(None),
        CNode::Local(_) => Ok(None),
        CNode::Choice(name) => Ok(choice_anew(by, name)),
        CNode::Capture(name) => capture_anew(alloc, by, name),
        CNode::Subject => subject_anew(alloc, by),
        CNode::SubjectType => subject_type_anew(alloc, by),
        CNode::Unary(name, a) => {
            let a = expr_anew(alloc, by, a.get())?;
            unary(alloc, name, a)
        }
        CNode::Binary(name, a, b) => {
            let left = expr_anew(alloc, by, a.get())?;
            let right = expr_anew(alloc, by, b.get())?;
            binary(alloc, name, left, a.get(), right, b.get())
        }
        CNode::Choose(a, b, c) => {
            let when = expr_anew(alloc, by, a.get())?;
            let first = expr_anew(alloc, by, b.get())?;
            let second = expr_anew(alloc, by, c.get())?;
            choose(alloc, when, a.get(), first, b.get(), second, c.get())
        }
        CNode::CodeTest(a, equal, constant) => {
            let a = expr_anew(alloc, by, a.get())?;
            code_test(alloc, a, *equal, *constant)
        }
        CNode::Call(name, args) => {
            let args = all_anew(alloc, by, args.as_slice())?;
            call(alloc, name, args)
        }
    }
}

#[cycle(c_with)]
fn all_anew(
    alloc: Global,
    by: &Substitution,
    exprs: &[CExpr],
) -> Result<Option<Items<CExpr>>, OutOfMemory>
    ensures { IfOk result (λ made. unwrap_or made exprs.now ≡ map (expr_with by.now) exprs.now) }
{
    let mut made = Items::new(alloc);
    let mut changed = false;
    for expr in exprs {
        let anew = expr_anew(alloc, by, expr)?;
        changed = changed || anew.is_some();
        made.push(or_copied(alloc, anew, expr)?)?;
    }
    Ok(if changed { Some(made) } else { None })
}

fn boxed(alloc: Global, anew: Option<CExpr>, expr: &CExpr) -> Result<Boxed<CExpr>, OutOfMemory>
    ensures { IfOk result (λ made. made ≡ unwrap_or anew expr.now) }
{
    let expr = or_copied(alloc, anew, expr)?;
    Ok(Boxed::new(alloc, expr)?)
}

fn unary(alloc: Global, name: &Text, a: Option<CExpr>) -> Result<Option<CNode>, OutOfMemory>
    ensures { IfOk result (λ made. made ≡ option_map (λ x. nodes.Unary name.now x) a) }
{
    match a {
        Some(a) => Ok(Some(CNode::Unary(name.copy(alloc)?, Boxed::new(alloc, a)?))),
        None => Ok(None),
    }
}

fn binary(
    alloc: Global,
    name: &Text,
    left: Option<CExpr>,
    a: &CExpr,
    right: Option<CExpr>,
    b: &CExpr,
) -> Result<Option<CNode>, OutOfMemory>
    ensures { IfOk result (λ made. unwrap_or made (nodes.Binary name.now a.now b.now) ≡
        nodes.Binary name.now (unwrap_or left a.now) (unwrap_or right b.now)) }
{
    if left.is_none() && right.is_none() {
        return Ok(None);
    }
    let left = boxed(alloc, left, a)?;
    let right = boxed(alloc, right, b)?;
    Ok(Some(CNode::Binary(name.copy(alloc)?, left, right)))
}

fn choose(
    alloc: Global,
    when: Option<CExpr>,
    a: &CExpr,
    first: Option<CExpr>,
    b: &CExpr,
    second: Option<CExpr>,
    c: &CExpr,
) -> Result<Option<CNode>, OutOfMemory>
    ensures { IfOk result (λ made. unwrap_or made (nodes.Choose a.now b.now c.now) ≡
        nodes.Choose (unwrap_or when a.now) (unwrap_or first b.now) (unwrap_or second c.now)) }
{
    if when.is_none() && first.is_none() && second.is_none() {
        return Ok(None);
    }
    let when = boxed(alloc, when, a)?;
    let first = boxed(alloc, first, b)?;
    Ok(Some(CNode::Choose(when, first, boxed(alloc, second, c)?)))
}

fn code_test(
    alloc: Global,
    a: Option<CExpr>,
    equal: bool,
    constant: bool,
) -> Result<Option<CNode>, OutOfMemory>
    ensures { IfOk result (λ made. made ≡ option_map (λ x. nodes.CodeTest x equal constant) a) }
{
    match a {
        Some(a) => Ok(Some(CNode::CodeTest(Boxed::new(alloc, a)?, equal, constant))),
        None => Ok(None),
    }
}

fn call(
    alloc: Global,
    name: &Text,
    args: Option<Items<CExpr>>,
) -> Result<Option<CNode>, OutOfMemory>
    ensures { IfOk result (λ made. made ≡ option_map (λ xs. nodes.Call name.now xs) args) }
{
    match args {
        Some(args) => Ok(Some(CNode::Call(name.copy(alloc)?, args))),
        None => Ok(None),
    }
}

/// Declarations with the substitution made; none where they stay as they are.
pub fn decls_anew(
    alloc: Global,
    by: &Substitution,
    decls: &[CDecl],
) -> Result<Option<Items<CDecl>>, OutOfMemory>
    ensures { IfOk result (λ made. unwrap_or made decls.now ≡ map (decl_with by.now) decls.now) }
{
    let mut made = Items::new(alloc);
    let mut changed = false;
    for decl in decls {
        let anew = decl_anew(alloc, by, decl)?;
        changed = changed || anew.is_some();
        made.push(or_same_decl(alloc, anew, decl)?)?;
    }
    Ok(if changed { Some(made) } else { None })
}

fn decl_anew(alloc: Global, by: &Substitution, decl: &CDecl) -> Result<Option<CDecl>, OutOfMemory>
    ensures { IfOk result (λ made. unwrap_or made decl.now ≡ decl_with by.now decl.now) }
{
    match value_anew(alloc, by, &decl.value)? {
        Some(value) => {
            let own = decl.copy(alloc)?;
            Ok(Some(CDecl {
                kind: own.kind,
                name: own.name,
                value,
                overflow: own.overflow,
            }))
        }
        None => Ok(None),
    }
}

fn value_anew(
    alloc: Global,
    by: &Substitution,
    value: &Option<CExpr>,
) -> Result<Option<Option<CExpr>>, OutOfMemory>
    ensures { IfOk result (λ made.
        unwrap_or made value.now ≡ option_map (expr_with by.now) value.now) }
{
    match value {
        Some(expr) => match expr_anew(alloc, by, expr)? {
            Some(expr) => Ok(Some(Some(expr))),
            None => Ok(None),
        },
        None => Ok(None),
    }
}

fn or_same_decl(alloc: Global, anew: Option<CDecl>, decl: &CDecl) -> Result<CDecl, OutOfMemory>
    ensures { IfOk result (λ made. made ≡ unwrap_or anew decl.now) }
{
    match anew {
        Some(anew) => Ok(anew),
        None => decl.copy(alloc),
    }
}

/// These declarations made anew, or else copies of those.
pub fn or_same_decls(
    alloc: Global,
    anew: Option<Items<CDecl>>,
    decls: &[CDecl],
) -> Result<Items<CDecl>, OutOfMemory>
    ensures { IfOk result (λ made. made ≡ unwrap_or anew decls.now) }
{
    match anew {
        Some(anew) => Ok(anew),
        None => copied_decls(alloc, decls),
    }
}

fn copied_decls(alloc: Global, decls: &[CDecl]) -> Result<Items<CDecl>, OutOfMemory>
    ensures { IfOk result (λ made. made ≡ decls.now) }
{
    let mut made = Items::new(alloc);
    for decl in decls {
        made.push(decl.copy(alloc)?)?;
    }
    Ok(made)
}
