//! The operators of a tree, in the order of the text.
ghost use Rattle.std.specs.Prelude.{◌≡◌, [], ◌∷◌, map, option_map, IfOk};
ghost use Rattle.pd_ast.specs.declared.pattern.OpRef.TheVariants as ops;
ghost use Rattle.pd_substitution.specs.Operators.{joined, operators_of_c_node, operators_of_case};
ghost use Rattle.pd_substitution.specs.Operators.{operators_of_decls, operators_of_expr};
ghost use Rattle.pd_substitution.specs.Operators.{operators_of_out_node, operators_of_pat_node};
ghost use Rattle.pd_substitution.specs.Operators.{operators_of_pattern, operators_of_result};
ghost use Rattle.pd_substitution.specs.Operators.{operators_of_tail, operators_of_value, or_none};

use pd_ast::{CDecl, CExpr, CNode, OpRef, Out, OutNode, Pat, PatNode, SwitchCase, Tail};
use pm_items::{Items, Shared};
use pm_ops::{OutOfMemory, Text};
use std::alloc::Global;

/// The identifiers of `for` in C text.
#[cycle(operators_of_expr)]
pub fn operators_of_expr(alloc: Global, expr: &CExpr) -> Result<Items<OpRef>, OutOfMemory>
    ensures { IfOk result (λ made. made ≡ operators_of_expr expr.now) }
{
    operators_of_c_node(alloc, &expr.node)
}

#[cycle(operators_of_expr)]
fn operators_of_c_node(alloc: Global, node: &CNode) -> Result<Items<OpRef>, OutOfMemory>
    ensures { IfOk result (λ made. made ≡ operators_of_c_node node.now) }
{
    match node {
        CNode::Number(_) | CNode::Truth(_) | CNode::Sign(_) | CNode::OfCode(_) => {
            Ok(Items::new(alloc))
        }
        CNode::Local(_) | CNode::Capture(_) | CNode::Subject | CNode::SubjectType => {
            Ok(Items::new(alloc))
        }
        CNode::Choice(name) => chosen(alloc, name),
        CNode::Unary(_, a) => operators_of_expr(alloc, a.get()),
        CNode::Binary(_, a, b) => {
            let mut made = operators_of_expr(alloc, a.get())?;
            made.append(operators_of_expr(alloc, b.get())?)?;
            Ok(made)
        }
        CNode::Choose(a, b, c) => {
            let mut last = operators_of_expr(alloc, b.get())?;
            last.append(operators_of_expr(alloc, c.get())?)?;
            let mut made = operators_of_expr(alloc, a.get())?;
            made.append(last)?;
            Ok(made)
        }
        CNode::CodeTest(a, _, _) => operators_of_expr(alloc, a.get()),
        CNode::Call(_, args) => among_exprs(alloc, args.as_slice()),
    }
}

#[cycle(operators_of_expr)]
fn among_exprs(alloc: Global, exprs: &[CExpr]) -> Result<Items<OpRef>, OutOfMemory>
    ensures { IfOk result (λ made. made ≡ joined (map operators_of_expr exprs.now)) }
{
    let mut made = Items::new(alloc);
    for expr in exprs {
        made.append(operators_of_expr(alloc, expr)?)?;
    }
    Ok(made)
}

fn chosen(alloc: Global, name: &Text) -> Result<Items<OpRef>, OutOfMemory>
    ensures { IfOk result (λ made. made ≡ ops.Chosen name.now ∷ []) }
{
    let mut made = Items::new(alloc);
    made.push(OpRef::Chosen(name.copy(alloc)?))?;
    Ok(made)
}

/// The identifiers of `for` in declarations.
fn operators_of_decls(alloc: Global, decls: &[CDecl]) -> Result<Items<OpRef>, OutOfMemory>
    ensures { IfOk result (λ made. made ≡ operators_of_decls decls.now) }
{
    let mut made = Items::new(alloc);
    for decl in decls {
        made.append(operators_of_value(alloc, &decl.value)?)?;
    }
    Ok(made)
}

fn operators_of_value(alloc: Global, value: &Option<CExpr>) -> Result<Items<OpRef>, OutOfMemory>
    ensures { IfOk result (λ made. made ≡ operators_of_value value.now) }
{
    match value {
        Some(expr) => operators_of_expr(alloc, expr),
        None => Ok(Items::new(alloc)),
    }
}

/// The operators of a pattern.
#[cycle(operators_of_pattern)]
pub fn operators_of_pattern(alloc: Global, pattern: &Pat) -> Result<Items<OpRef>, OutOfMemory>
    ensures { IfOk result (λ made. made ≡ operators_of_pattern pattern.now) }
{
    match pattern {
        Pat::Hole(_) | Pat::Test(_, _) => Ok(Items::new(alloc)),
        Pat::Call(_, args, _) => among_patterns(alloc, args.as_slice()),
        Pat::Node(node) => operators_of_pat_node(alloc, node),
    }
}

#[cycle(operators_of_pattern)]
fn operators_of_pat_node(alloc: Global, node: &PatNode) -> Result<Items<OpRef>, OutOfMemory>
    ensures { IfOk result (λ made. made ≡ operators_of_pat_node node.now) }
{
    let mut made = Items::new(alloc);
    made.push(node.op.copy(alloc)?)?;
    made.append(among_patterns(alloc, node.args.as_slice())?)?;
    Ok(made)
}

#[cycle(operators_of_pattern)]
fn among_patterns(alloc: Global, patterns: &[Shared<Pat>]) -> Result<Items<OpRef>, OutOfMemory>
    ensures { IfOk result (λ made. made ≡ joined (map operators_of_pattern patterns.now)) }
{
    let mut made = Items::new(alloc);
    for pattern in patterns {
        made.append(operators_of_pattern(alloc, pattern.get())?)?;
    }
    Ok(made)
}

/// The operators of a result, and the identifiers of `for` in its C text.
#[cycle(operators_of_result)]
pub fn operators_of_result(alloc: Global, gives: &Out) -> Result<Items<OpRef>, OutOfMemory>
    ensures { IfOk result (λ made. made ≡ operators_of_result gives.now) }
{
    match gives {
        Out::Hole(_) => Ok(Items::new(alloc)),
        Out::Brace(expr) => operators_of_expr(alloc, expr),
        Out::Node(node) => operators_of_out_node(alloc, node),
        Out::If(when, inner, otherwise) => {
            let mut last = operators_of_result(alloc, inner.get())?;
            last.append(operators_of_maybe(alloc, otherwise)?)?;
            let mut made = operators_of_expr(alloc, when)?;
            made.append(last)?;
            Ok(made)
        }
        Out::Switch(cases, otherwise) => {
            let mut made = among_cases(alloc, cases.as_slice())?;
            made.append(operators_of_maybe(alloc, otherwise)?)?;
            Ok(made)
        }
        Out::With(decls, inner) => {
            let mut made = operators_of_decls(alloc, decls.as_slice())?;
            made.append(operators_of_result(alloc, inner.get())?)?;
            Ok(made)
        }
    }
}

#[cycle(operators_of_result)]
fn operators_of_out_node(alloc: Global, node: &OutNode) -> Result<Items<OpRef>, OutOfMemory>
    ensures { IfOk result (λ made. made ≡ operators_of_out_node node.now) }
{
    let mut made = Items::new(alloc);
    made.push(node.op.copy(alloc)?)?;
    made.append(among_results(alloc, node.args.as_slice())?)?;
    Ok(made)
}

#[cycle(operators_of_result)]
fn operators_of_case(alloc: Global, case: &SwitchCase) -> Result<Items<OpRef>, OutOfMemory>
    ensures { IfOk result (λ made. made ≡ operators_of_case case.now) }
{
    let mut made = operators_of_expr(alloc, &case.when)?;
    made.append(operators_of_result(alloc, case.gives.get())?)?;
    Ok(made)
}

#[cycle(operators_of_result)]
fn operators_of_maybe(
    alloc: Global,
    gives: &Option<Shared<Out>>,
) -> Result<Items<OpRef>, OutOfMemory>
    ensures { IfOk result (λ made. made ≡ or_none (option_map operators_of_result gives.now)) }
{
    match gives {
        Some(gives) => operators_of_result(alloc, gives.get()),
        None => Ok(Items::new(alloc)),
    }
}

#[cycle(operators_of_result)]
fn among_results(alloc: Global, results: &[Shared<Out>]) -> Result<Items<OpRef>, OutOfMemory>
    ensures { IfOk result (λ made. made ≡ joined (map operators_of_result results.now)) }
{
    let mut made = Items::new(alloc);
    for gives in results {
        made.append(operators_of_result(alloc, gives.get())?)?;
    }
    Ok(made)
}

#[cycle(operators_of_result)]
fn among_cases(alloc: Global, cases: &[SwitchCase]) -> Result<Items<OpRef>, OutOfMemory>
    ensures { IfOk result (λ made. made ≡ joined (map operators_of_case cases.now)) }
{
    let mut made = Items::new(alloc);
    for case in cases {
        made.append(operators_of_case(alloc, case)?)?;
    }
    Ok(made)
}

/// The identifiers of `for` in the end of a case of a predicate.
pub fn operators_of_tail(alloc: Global, tail: &Tail) -> Result<Items<OpRef>, OutOfMemory>
    ensures { IfOk result (λ made. made ≡ operators_of_tail tail.now) }
{
    match tail {
        Tail::Done => Ok(Items::new(alloc)),
        Tail::If(when, rest) => {
            let mut made = operators_of_expr(alloc, when)?;
            made.append(operators_of_tail(alloc, rest.get())?)?;
            Ok(made)
        }
        Tail::With(decls, rest) => {
            let mut made = operators_of_decls(alloc, decls.as_slice())?;
            made.append(operators_of_tail(alloc, rest.get())?)?;
            Ok(made)
        }
    }
}
