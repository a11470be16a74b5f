//! What a result gives in an environment: the leaf that its conditions choose, with operands in place
//! of captures and braces.
ghost use Rattle.std.specs.Prelude.{◌≡◌, IfOk, IfSome, map};
ghost use Rattle.std.specs.Option.{option_map};
ghost use Rattle.cond_eval.specs.CValues.{c_value, truth_in};
ghost use Rattle.cond_eval.specs.Environments.{AreValues};
ghost use Rattle.result_types.specs.Drafts.{leaf, shape_of};
ghost use Rattle.result_build.specs.Given.{all_in, first_case, given, given_by_case};
ghost use Rattle.result_build.specs.Given.{given_by_node, head_of, on_one, on_operands};
ghost use Rattle.result_build.specs.Given.{on_three, on_two, optional_in, where_there};

use crate::names::{operand_in, operand_of, type_written};
use cond_eval::{CEnv, CValue, declare, eval};
use pattern_rows::Caps;
use pd_ast::{CExpr, OpRef, Out, OutNode, SwitchCase};
use pm_items::{Boxed, Shared};
use pm_ops::OutOfMemory;
use pm_wide::{IntType, Operand};
use result_types::{Draft, Head};
use std::alloc::Global;

/// What a result gives in an environment, or nothing.
#[cycle(given)]
pub(crate) fn draft_of_result(
    alloc: Global,
    out: &Out,
    caps: &Caps,
    env: &CEnv,
) -> Result<Option<Draft>, OutOfMemory>
    requires { AreValues env.now.locals }
    ensures { IfOk result (λ made. option_map shape_of made ≡ given caps.now out.now env.now) }
{
    match out {
        Out::Hole(name) => Ok(as_leaf(operand_of(name, caps, env.captures.as_slice()))),
        Out::Brace(expr) => Ok(as_leaf(operand_in(&eval(expr, env)))),
        Out::Node(node) => draft_of_node(alloc, node, caps, env),
        Out::If(when, gives, otherwise) => match truth_of(when, env) {
            Some(true) => draft_of_result(alloc, gives.get(), caps, env),
            Some(false) => draft_if_there(alloc, otherwise, caps, env),
            None => Ok(None),
        },
        Out::Switch(cases, otherwise) => match draft_of_cases(alloc, cases.as_slice(), caps, env)? {
            Some(made) => Ok(made),
            None => draft_if_there(alloc, otherwise, caps, env),
        },
        Out::With(decls, gives) => {
            let after = declare(alloc, decls.as_slice(), env.copy(alloc)?)?;
            draft_where_there(alloc, gives.get(), caps, &after)
        }
    }
}

/// What a result gives in an environment that may be absent.
#[cycle(given)]
fn draft_where_there(
    alloc: Global,
    out: &Out,
    caps: &Caps,
    env: &Option<CEnv>,
) -> Result<Option<Draft>, OutOfMemory>
    requires { IfSome env.now (λ there. AreValues there.locals) }
    ensures { IfOk result (λ made.
        option_map shape_of made ≡ where_there env.now (given caps.now out.now)) }
{
    match env {
        Some(env) => draft_of_result(alloc, out, caps, env),
        None => Ok(None),
    }
}

/// What an operation gives.
#[cycle(given)]
fn draft_of_node(
    alloc: Global,
    node: &OutNode,
    caps: &Caps,
    env: &CEnv,
) -> Result<Option<Draft>, OutOfMemory>
    requires { AreValues env.now.locals }
    ensures { IfOk result (λ made.
        option_map shape_of made ≡ given_by_node caps.now node.now env.now) }
{
    match head_written(&node.op, node.must_fold, type_written(&node.ty, env)) {
        Some(head) => draft_of_operands(alloc, head, node.args.as_slice(), caps, env),
        None => Ok(None),
    }
}

/// An operation on what its operands give, if it has one, two or three.
#[cycle(given)]
fn draft_of_operands(
    alloc: Global,
    head: Head,
    operands: &[Shared<Out>],
    caps: &Caps,
    env: &CEnv,
) -> Result<Option<Draft>, OutOfMemory>
    requires { AreValues env.now.locals }
    ensures { IfOk result (λ made. option_map shape_of made ≡
        on_operands (all_in env.now (map (given caps.now) operands.now)) head) }
{
    match operands {
        [] => Ok(None),
        [a] => {
            let a = draft_of_result(alloc, a.get(), caps, env)?;
            with_one(alloc, head, a)
        }
        [a, b] => {
            let a = draft_of_result(alloc, a.get(), caps, env)?;
            let b = draft_of_result(alloc, b.get(), caps, env)?;
            with_two(alloc, head, a, b)
        }
        [a, b, c] => {
            let a = draft_of_result(alloc, a.get(), caps, env)?;
            let b = draft_of_result(alloc, b.get(), caps, env)?;
            let c = draft_of_result(alloc, c.get(), caps, env)?;
            with_three(alloc, head, a, b, c)
        }
        [_, _, _, _, ..] => Ok(None),
    }
}

/// What the first case gives whose condition isn't false; `None` where all are false.
#[cycle(given)]
fn draft_of_cases(
    alloc: Global,
    cases: &[SwitchCase],
    caps: &Caps,
    env: &CEnv,
) -> Result<Option<Option<Draft>>, OutOfMemory>
    requires { AreValues env.now.locals }
    ensures { IfOk result (λ made. option_map (option_map shape_of) made ≡
        first_case env.now (map (given_by_case caps.now) cases.now)) }
{
    for case in cases {
        match truth_of(&case.when, env) {
            Some(true) => return Ok(Some(draft_of_result(alloc, case.gives.get(), caps, env)?)),
            Some(false) => {}
            None => return Ok(Some(None)),
        }
    }
    Ok(None)
}

/// What a result gives that may be absent.
#[cycle(given)]
fn draft_if_there(
    alloc: Global,
    out: &Option<Shared<Out>>,
    caps: &Caps,
    env: &CEnv,
) -> Result<Option<Draft>, OutOfMemory>
    requires { AreValues env.now.locals }
    ensures { IfOk result (λ made. option_map shape_of made ≡
        optional_in env.now (option_map (given caps.now) out.now)) }
{
    match out {
        Some(out) => draft_of_result(alloc, out.get(), caps, env),
        None => Ok(None),
    }
}

/// The truth that a condition has.
fn truth_of(when: &CExpr, env: &CEnv) -> Option<bool>
    requires { AreValues env.now.locals }
    ensures { result ≡ truth_in (c_value env.now when.now) }
{
    as_truth(&eval(when, env))
}

/// The truth that a value is.
fn as_truth(value: &Option<CValue>) -> Option<bool>
    ensures { result ≡ truth_in value.now }
{
    match value {
        Some(CValue::Truth(truth)) => Some(*truth),
        _ => None,
    }
}

/// The draft of an operand that may be absent.
fn as_leaf(operand: Option<Operand>) -> Option<Draft>
    ensures { option_map shape_of result ≡ option_map leaf operand }
{
    match operand {
        Some(operand) => Some(Draft::Leaf(operand)),
        None => None,
    }
}

/// An operation with a code of its own and its type.
fn head_written(op: &OpRef, must_fold: bool, ty: Option<Option<IntType>>) -> Option<Head>
    ensures { result ≡ head_of op.now must_fold ty }
{
    match op {
        OpRef::Fixed(code) => Some(Head {
            code: *code,
            must_fold,
            ty: ty?,
        }),
        OpRef::Chosen(_) | OpRef::Listed(_) | OpRef::Null => None,
    }
}

/// An operation on one operand that is there.
fn with_one(alloc: Global, head: Head, a: Option<Draft>) -> Result<Option<Draft>, OutOfMemory>
    ensures { IfOk result (λ made. option_map shape_of made ≡ on_one head (option_map shape_of a)) }
{
    let Some(a) = a else { return Ok(None) };
    let a = Boxed::new(alloc, a)?;
    Ok(Some(Draft::One(head, a)))
}

/// An operation on two operands that are there.
fn with_two(
    alloc: Global,
    head: Head,
    a: Option<Draft>,
    b: Option<Draft>,
) -> Result<Option<Draft>, OutOfMemory>
    ensures { IfOk result (λ made. option_map shape_of made ≡
        on_two head (option_map shape_of a) (option_map shape_of b)) }
{
    let Some(a) = a else { return Ok(None) };
    let Some(b) = b else { return Ok(None) };
    let a = Boxed::new(alloc, a)?;
    let b = Boxed::new(alloc, b)?;
    Ok(Some(Draft::Two(head, a, b)))
}

/// An operation on three operands that are there.
fn with_three(
    alloc: Global,
    head: Head,
    a: Option<Draft>,
    b: Option<Draft>,
    c: Option<Draft>,
) -> Result<Option<Draft>, OutOfMemory>
    ensures { IfOk result (λ made. option_map shape_of made ≡
        on_three head (option_map shape_of a) (option_map shape_of b) (option_map shape_of c)) }
{
    let Some(a) = a else { return Ok(None) };
    let Some(b) = b else { return Ok(None) };
    let Some(c) = c else { return Ok(None) };
    let a = Boxed::new(alloc, a)?;
    let b = Boxed::new(alloc, b)?;
    let c = Boxed::new(alloc, c)?;
    Ok(Some(Draft::Three(head, a, b, c)))
}
