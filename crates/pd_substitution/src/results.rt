//! Results and ends of cases with a substitution made. A call `.._anew` gives none where what it is
//! asked about stays as it is, and is shared.
ghost use Rattle.std.specs.Prelude.{◌≡◌, map, option_map, unwrap_or, IfOk};
ghost use Rattle.pd_ast.specs.declared.result.Out.TheVariants as outs;
ghost use Rattle.pd_ast.specs.declared.result.Tail.TheVariants as tails;
ghost use Rattle.pd_substitution.specs.Substituted.{case_with};
ghost use Rattle.pd_substitution.specs.Substituted.{out_node_with, result_with, tail_with};

use crate::c_text::{decls_anew, expr_anew, or_copied, or_same_decls};
use crate::leaves::{name_anew, or_same_op};
use crate::substitution::{Substitution, new_op};
use pd_ast::{CDecl, CExpr, Out, OutNode, SwitchCase, Tail};
use pm_items::{Items, Shared};
use pm_ops::{OutOfMemory, Text};
use std::alloc::Global;

/// A result with the substitution made, which shares what stays as it is.
pub fn result_with(
    alloc: Global,
    by: &Substitution,
    gives: &Shared<Out>,
) -> Result<Shared<Out>, OutOfMemory>
    ensures { IfOk result (λ made. made ≡ result_with by.now gives.now) }
{
    let anew = result_anew(alloc, by, gives.get())?;
    or_shared(alloc, anew, gives)
}

/// The result made anew, or else this one, shared.
fn or_shared(
    alloc: Global,
    anew: Option<Out>,
    gives: &Shared<Out>,
) -> Result<Shared<Out>, OutOfMemory>
    ensures { IfOk result (λ made. made ≡ unwrap_or anew gives.now) }
{
    match anew {
        Some(anew) => Ok(Shared::new(alloc, anew)?),
        None => Ok(gives.share()?),
    }
}

#[cycle(result_with)]
fn result_anew(alloc: Global, by: &Substitution, gives: &Out) -> Result<Option<Out>, OutOfMemory>
    ensures { IfOk result (λ made. unwrap_or made gives.now ≡ result_with by.now gives.now) }
{
    match gives {
        Out::Hole(name) => match name_anew(alloc, by, name)? {
            Some(name) => Ok(Some(Out::Hole(name))),
            None => Ok(None),
        },
        Out::Brace(expr) => match expr_anew(alloc, by, expr)? {
            Some(expr) => Ok(Some(Out::Brace(expr))),
            None => Ok(None),
        },
        Out::Node(node) => match node_anew(alloc, by, node)? {
            Some(node) => Ok(Some(Out::Node(node))),
            None => Ok(None),
        },
        Out::If(when, inner, otherwise) => {
            let condition = expr_anew(alloc, by, when)?;
            let first = result_anew(alloc, by, inner.get())?;
            let second = maybe_anew(alloc, by, otherwise)?;
            conditional(alloc, condition, when, first, inner, second, otherwise)
        }
        Out::Switch(cases, otherwise) => {
            let new_cases = cases_anew(alloc, by, cases.as_slice())?;
            let anew = maybe_anew(alloc, by, otherwise)?;
            switch(alloc, new_cases, cases.as_slice(), anew, otherwise)
        }
        Out::With(decls, inner) => {
            let new_decls = decls_anew(alloc, by, decls.as_slice())?;
            let anew = result_anew(alloc, by, inner.get())?;
            with_block(alloc, new_decls, decls.as_slice(), anew, inner)
        }
    }
}

#[cycle(result_with)]
fn maybe_anew(
    alloc: Global,
    by: &Substitution,
    gives: &Option<Shared<Out>>,
) -> Result<Option<Option<Shared<Out>>>, OutOfMemory>
    ensures { IfOk result (λ made.
        unwrap_or made gives.now ≡ option_map (result_with by.now) gives.now) }
{
    match gives {
        Some(gives) => match result_anew(alloc, by, gives.get())? {
            Some(anew) => Ok(Some(Some(Shared::new(alloc, anew)?))),
            None => Ok(None),
        },
        None => Ok(None),
    }
}

#[cycle(result_with)]
fn node_anew(
    alloc: Global,
    by: &Substitution,
    node: &OutNode,
) -> Result<Option<OutNode>, OutOfMemory>
    ensures { IfOk result (λ made. unwrap_or made node.now ≡ out_node_with by.now node.now) }
{
    let op = new_op(by, &node.op);
    let args = all_anew(alloc, by, node.args.as_slice())?;
    if op.is_none() && args.is_none() {
        return Ok(None);
    }
    Ok(Some(OutNode {
        op: or_same_op(alloc, op, &node.op)?,
        must_fold: node.must_fold,
        ty: copied_name(alloc, &node.ty)?,
        args: or_all_shared(alloc, args, node.args.as_slice())?,
    }))
}

#[cycle(result_with)]
fn all_anew(
    alloc: Global,
    by: &Substitution,
    results: &[Shared<Out>],
) -> Result<Option<Items<Shared<Out>>>, OutOfMemory>
    ensures { IfOk result (λ made.
        unwrap_or made results.now ≡ map (result_with by.now) results.now) }
{
    let mut made = Items::new(alloc);
    let mut changed = false;
    for gives in results {
        let anew = result_anew(alloc, by, gives.get())?;
        changed = changed || anew.is_some();
        made.push(or_shared(alloc, anew, gives)?)?;
    }
    Ok(if changed { Some(made) } else { None })
}

#[cycle(result_with)]
fn cases_anew(
    alloc: Global,
    by: &Substitution,
    cases: &[SwitchCase],
) -> Result<Option<Items<SwitchCase>>, OutOfMemory>
    ensures { IfOk result (λ made. unwrap_or made cases.now ≡ map (case_with by.now) cases.now) }
{
    let mut made = Items::new(alloc);
    let mut changed = false;
    for case in cases {
        let anew = case_anew(alloc, by, case)?;
        changed = changed || anew.is_some();
        made.push(or_same_case(alloc, anew, case)?)?;
    }
    Ok(if changed { Some(made) } else { None })
}

#[cycle(result_with)]
fn case_anew(
    alloc: Global,
    by: &Substitution,
    case: &SwitchCase,
) -> Result<Option<SwitchCase>, OutOfMemory>
    ensures { IfOk result (λ made. unwrap_or made case.now ≡ case_with by.now case.now) }
{
    let when = expr_anew(alloc, by, &case.when)?;
    let gives = result_anew(alloc, by, case.gives.get())?;
    if when.is_none() && gives.is_none() {
        return Ok(None);
    }
    Ok(Some(SwitchCase {
        when: or_copied(alloc, when, &case.when)?,
        gives: or_shared(alloc, gives, &case.gives)?,
    }))
}

fn conditional(
    alloc: Global,
    condition: Option<CExpr>,
    when: &CExpr,
    first: Option<Out>,
    inner: &Shared<Out>,
    second: Option<Option<Shared<Out>>>,
    otherwise: &Option<Shared<Out>>,
) -> Result<Option<Out>, OutOfMemory>
    ensures { IfOk result (λ made. unwrap_or made (outs.If when.now inner.now otherwise.now) ≡
        outs.If (unwrap_or condition when.now) (unwrap_or first inner.now)
        (unwrap_or second otherwise.now)) }
{
    if condition.is_none() && first.is_none() && second.is_none() {
        return Ok(None);
    }
    let condition = or_copied(alloc, condition, when)?;
    let first = or_shared(alloc, first, inner)?;
    let second = or_maybe_shared(second, otherwise)?;
    Ok(Some(Out::If(condition, first, second)))
}

fn switch(
    alloc: Global,
    new_cases: Option<Items<SwitchCase>>,
    cases: &[SwitchCase],
    anew: Option<Option<Shared<Out>>>,
    otherwise: &Option<Shared<Out>>,
) -> Result<Option<Out>, OutOfMemory>
    ensures { IfOk result (λ made. unwrap_or made (outs.Switch cases.now otherwise.now) ≡
        outs.Switch (unwrap_or new_cases cases.now) (unwrap_or anew otherwise.now)) }
{
    if new_cases.is_none() && anew.is_none() {
        return Ok(None);
    }
    let cases = or_same_cases(alloc, new_cases, cases)?;
    Ok(Some(Out::Switch(cases, or_maybe_shared(anew, otherwise)?)))
}

fn with_block(
    alloc: Global,
    new_decls: Option<Items<CDecl>>,
    decls: &[CDecl],
    anew: Option<Out>,
    inner: &Shared<Out>,
) -> Result<Option<Out>, OutOfMemory>
    ensures { IfOk result (λ made. unwrap_or made (outs.With decls.now inner.now) ≡
        outs.With (unwrap_or new_decls decls.now) (unwrap_or anew inner.now)) }
{
    if new_decls.is_none() && anew.is_none() {
        return Ok(None);
    }
    let decls = or_same_decls(alloc, new_decls, decls)?;
    Ok(Some(Out::With(decls, or_shared(alloc, anew, inner)?)))
}

/// A result made anew, or else this one, shared, if there is one.
fn or_maybe_shared(
    anew: Option<Option<Shared<Out>>>,
    gives: &Option<Shared<Out>>,
) -> Result<Option<Shared<Out>>, OutOfMemory>
    ensures { IfOk result (λ made. made ≡ unwrap_or anew gives.now) }
{
    match anew {
        Some(anew) => Ok(anew),
        None => match gives {
            Some(gives) => Ok(Some(gives.share()?)),
            None => Ok(None),
        },
    }
}

/// These results made anew, or else those, shared.
fn or_all_shared(
    alloc: Global,
    anew: Option<Items<Shared<Out>>>,
    results: &[Shared<Out>],
) -> Result<Items<Shared<Out>>, OutOfMemory>
    ensures { IfOk result (λ made. made ≡ unwrap_or anew results.now) }
{
    match anew {
        Some(anew) => Ok(anew),
        None => shared_results(alloc, results),
    }
}

fn shared_results(alloc: Global, results: &[Shared<Out>]) -> Result<Items<Shared<Out>>, OutOfMemory>
    ensures { IfOk result (λ made. made ≡ results.now) }
{
    let mut made = Items::new(alloc);
    for gives in results {
        made.push(gives.share()?)?;
    }
    Ok(made)
}

/// A case of a `switch` made anew, or else a copy of this one.
fn or_same_case(
    alloc: Global,
    anew: Option<SwitchCase>,
    case: &SwitchCase,
) -> Result<SwitchCase, OutOfMemory>
    ensures { IfOk result (λ made. made ≡ unwrap_or anew case.now) }
{
    match anew {
        Some(anew) => Ok(anew),
        None => Ok(SwitchCase {
            when: case.when.copy(alloc)?,
            gives: case.gives.share()?,
        }),
    }
}

fn or_same_cases(
    alloc: Global,
    anew: Option<Items<SwitchCase>>,
    cases: &[SwitchCase],
) -> Result<Items<SwitchCase>, OutOfMemory>
    ensures { IfOk result (λ made. made ≡ unwrap_or anew cases.now) }
{
    match anew {
        Some(anew) => Ok(anew),
        None => copied_cases(alloc, cases),
    }
}

fn copied_cases(alloc: Global, cases: &[SwitchCase]) -> Result<Items<SwitchCase>, OutOfMemory>
    ensures { IfOk result (λ made. made ≡ cases.now) }
{
    let mut made = Items::new(alloc);
    for case in cases {
        made.push(or_same_case(alloc, None, case)?)?;
    }
    Ok(made)
}

/// A copy of a name that may be absent.
fn copied_name(alloc: Global, name: &Option<Text>) -> Result<Option<Text>, OutOfMemory>
    ensures { IfOk result (λ made. made ≡ name.now) }
{
    match name {
        Some(name) => Ok(Some(name.copy(alloc)?)),
        None => Ok(None),
    }
}

/// The end of a case of a predicate with the substitution made, which shares what stays as it is.
pub fn tail_with(
    alloc: Global,
    by: &Substitution,
    tail: &Shared<Tail>,
) -> Result<Shared<Tail>, OutOfMemory>
    ensures { IfOk result (λ made. made ≡ tail_with by.now tail.now) }
{
    let anew = tail_anew(alloc, by, tail.get())?;
    or_shared_tail(alloc, anew, tail)
}

fn or_shared_tail(
    alloc: Global,
    anew: Option<Tail>,
    tail: &Shared<Tail>,
) -> Result<Shared<Tail>, OutOfMemory>
    ensures { IfOk result (λ made. made ≡ unwrap_or anew tail.now) }
{
    match anew {
        Some(anew) => Ok(Shared::new(alloc, anew)?),
        None => Ok(tail.share()?),
    }
}

fn tail_anew(alloc: Global, by: &Substitution, tail: &Tail) -> Result<Option<Tail>, OutOfMemory>
    ensures { IfOk result (λ made. unwrap_or made tail.now ≡ tail_with by.now tail.now) }
{
    match tail {
        Tail::Done => Ok(None),
        Tail::If(when, rest) => {
            let condition = expr_anew(alloc, by, when)?;
            let anew = tail_anew(alloc, by, rest.get())?;
            tail_if(alloc, condition, when, anew, rest)
        }
        Tail::With(decls, rest) => {
            let new_decls = decls_anew(alloc, by, decls.as_slice())?;
            let anew = tail_anew(alloc, by, rest.get())?;
            tail_within(alloc, new_decls, decls.as_slice(), anew, rest)
        }
    }
}

fn tail_if(
    alloc: Global,
    condition: Option<CExpr>,
    when: &CExpr,
    anew: Option<Tail>,
    rest: &Shared<Tail>,
) -> Result<Option<Tail>, OutOfMemory>
    ensures { IfOk result (λ made. unwrap_or made (tails.If when.now rest.now) ≡
        tails.If (unwrap_or condition when.now) (unwrap_or anew rest.now)) }
{
    if condition.is_none() && anew.is_none() {
        return Ok(None);
    }
    let when = or_copied(alloc, condition, when)?;
    Ok(Some(Tail::If(when, or_shared_tail(alloc, anew, rest)?)))
}

fn tail_within(
    alloc: Global,
    new_decls: Option<Items<CDecl>>,
    decls: &[CDecl],
    anew: Option<Tail>,
    rest: &Shared<Tail>,
) -> Result<Option<Tail>, OutOfMemory>
    ensures { IfOk result (λ made. unwrap_or made (tails.With decls.now rest.now) ≡
        tails.With (unwrap_or new_decls decls.now) (unwrap_or anew rest.now)) }
{
    if new_decls.is_none() && anew.is_none() {
        return Ok(None);
    }
    let decls = or_same_decls(alloc, new_decls, decls)?;
    Ok(Some(Tail::With(decls, or_shared_tail(alloc, anew, rest)?)))
}
