//! C parts: each capture, name and call of an expression is known.

ghost use Rattle.std.specs.Prelude.{◌≡◌, map, IfOk};
ghost use Rattle.pm_places.specs.Spans.{text_of};
ghost use Rattle.cond_subset.specs.Trees.{expr_of, exprs};
ghost use Rattle.cond_subset.specs.Names.{Judges};
ghost use Rattle.cond_subset.specs.Names as c_names;
ghost use Rattle.pd_names.specs.Parts as part_rules;

use crate::sight::Sight;
use cond_subset::{Callee, Declared, ExprText};
use pd_ast::{BinaryOperator, Call};
use pd_pattern_names::{Known, broken, is_bound, is_chosen};
use pm_ops::{Code, OutOfMemory, PatternFault, PatternKind};
use pm_places::{Span, text};
use std::alloc::Global;

/// Whether this comes before all locals: `type`, and `t` in a tail.
fn is_first(in_match: bool, name: &[u8]) -> bool
    ensures { result ≡ c_names.is_first in_match name.now }
{
    name == b"type".as_slice() || (in_match && name == b"t".as_slice())
}

/// Whether this is a truth value.
fn is_truth(name: &[u8]) -> bool
    ensures { result ≡ c_names.is_truth name.now }
{
    name == b"true".as_slice()
        || name == b"false".as_slice()
        || name == b"GIMPLE".as_slice()
        || name == b"GENERIC".as_slice()
}

/// Whether this is a sign.
fn is_sign(name: &[u8]) -> bool
    ensures { result ≡ c_names.is_sign name.now }
{
    name == b"SIGNED".as_slice() || name == b"UNSIGNED".as_slice()
}

/// What was declared last by this name.
fn last_named(source: &[u8], block: &[Declared], name: &[u8]) -> Option<Declared>
    ensures { result ≡ c_names.last_named source.now block.now name.now }
{
    block
        .iter()
        .rev()
        .copied()
        .find(|one| text(source, one.name) == name)
}

/// Whether a name is an identifier of a `for` or a word of the language.
fn knows_word(source: &[u8], known: &Known, name: &[u8]) -> bool
    ensures { result ≡ part_rules.knows_word source.now known.now name.now }
{
    is_chosen(source, known.choices.as_slice(), name)
        || Code::from_c_name(name).is_some()
        || is_truth(name)
        || is_sign(name)
}

/// Whether a name that is no name of its block stands for something.
fn knows_outside(source: &[u8], known: &Known, sight: &Sight, name: &[u8]) -> bool
    ensures { result ≡ part_rules.knows_outside source.now known.now sight.now name.now }
{
    match last_named(source, sight.locals.as_slice(), name) {
        Some(one) => one.ready,
        None => knows_word(source, known, name),
    }
}

/// Whether a name stands for something.
fn knows(source: &[u8], known: &Known, sight: &Sight, block: &[Declared], name: &[u8]) -> bool
    ensures { result ≡ part_rules.knows source.now known.now sight.now block.now name.now }
{
    if is_first(sight.in_match, name) {
        return true;
    }
    match last_named(source, block, name) {
        Some(one) => one.ready,
        None => knows_outside(source, known, sight, name),
    }
}

/// Whether a name may stand after `&`.
fn knows_flag(source: &[u8], known: &Known, sight: &Sight, block: &[Declared], name: &[u8]) -> bool
    ensures { result ≡ part_rules.knows_flag source.now known.now sight.now block.now name.now }
{
    last_named(source, block, name).is_some() || knows(source, known, sight, block, name)
}

/// The name of a call, with `wi::` where it is written.
fn callee_name(alloc: Global, source: &[u8], callee: &Callee) -> Result<Vec<u8>, OutOfMemory>
    ensures { IfOk result (λ name. name.items ≡ c_names.callee_name source.now callee.now) }
{
    let prefix = if callee.wide.is_some() { "wi::" } else { "" };
    let mut name = Vec::from_slice(alloc, prefix.as_bytes())?;
    name.extend_from_slice(text(source, callee.name))?;
    Ok(name)
}

/// Whether this is `TREE_CODE`.
fn is_code(source: &[u8], callee: &Callee) -> bool
    ensures { result ≡ c_names.is_code callee.now.wide (text_of source.now callee.now.name) }
{
    match callee.wide {
        None => text(source, callee.name) == b"TREE_CODE".as_slice(),
        Some(_) => false,
    }
}

/// Whether an expression is a call of `TREE_CODE`, without parentheses around it.
fn is_code_call(source: &[u8], expr: &ExprText) -> bool
    ensures { result ≡ c_names.is_code_call source.now (expr_of expr.now) }
{
    match expr {
        ExprText::Call(callee, _) => is_code(source, callee),
        _ => false,
    }
}

/// Whether an expression is `INTEGER_CST` or `SSA_NAME`.
fn is_code_word(source: &[u8], expr: &ExprText) -> bool
    ensures { result ≡ c_names.is_code_word source.now (expr_of expr.now) }
{
    match expr {
        ExprText::Name(at) => {
            let name = text(source, *at);
            name == b"INTEGER_CST".as_slice() || name == b"SSA_NAME".as_slice()
        }
        _ => false,
    }
}

/// Whether an operator is `==` or `!=`.
fn compares(operator: BinaryOperator) -> bool
    ensures { result ≡ c_names.compares operator }
{
    match operator {
        BinaryOperator::Eq | BinaryOperator::Ne => true,
        _ => false,
    }
}

/// Whether `TREE_CODE (..)` is compared with one of its two words.
fn is_code_test(source: &[u8], operator: BinaryOperator, a: &ExprText, b: &ExprText) -> bool
    ensures { result ≡ c_names.is_code_test source.now operator (expr_of a.now) (expr_of b.now) }
{
    compares(operator) && is_code_call(source, a) && is_code_word(source, b)
}

/// Whether a call is one of the language.
fn knows_call(alloc: Global, source: &[u8], callee: &Callee) -> Result<bool, OutOfMemory>
    ensures { IfOk result (λ is. is ≡ c_names.knows_call source.now callee.now) }
{
    if is_code(source, callee) {
        return Ok(true);
    }
    let name = callee_name(alloc, source, callee)?;
    Ok(Call::from_name(&name).is_some())
}

/// A call is one of the language.
fn check_callee(alloc: Global, source: &[u8], callee: &Callee) -> Result<(), PatternFault>
    ensures { Judges (part_rules.callee_fault source.now callee.now) result }
{
    let is_known = knows_call(alloc, source, callee)?;
    broken(!is_known, PatternKind::CName, callee.name)
}

/// A capture is one of the pattern.
pub(crate) fn check_capture(source: &[u8], sight: &Sight, at: Span) -> Result<(), PatternFault>
    ensures { Judges (part_rules.unbound source.now sight.now at) result }
{
    let is = is_bound(source, sight.captures.as_slice(), at);
    broken(!is, PatternKind::UnboundCapture, at)
}

/// A name stands for something.
fn check_name(
    source: &[u8],
    known: &Known,
    sight: &Sight,
    block: &[Declared],
    at: Span,
) -> Result<(), PatternFault>
    ensures { Judges (part_rules.name_fault source.now known.now sight.now block.now at) result }
{
    let is = knows(source, known, sight, block, text(source, at));
    broken(!is, PatternKind::CName, at)
}

/// A name may stand after `&`.
pub(crate) fn check_flag(
    source: &[u8],
    known: &Known,
    sight: &Sight,
    block: &[Declared],
    at: Span,
) -> Result<(), PatternFault>
    ensures { Judges (part_rules.flag_fault source.now known.now sight.now block.now at) result }
{
    let is = knows_flag(source, known, sight, block, text(source, at));
    broken(!is, PatternKind::CName, at)
}

/// Each capture, name and call of an expression is known, after what its block has declared.
#[cycle(parts)]
pub(crate) fn check_part(
    alloc: Global,
    source: &[u8],
    known: &Known,
    sight: &Sight,
    block: &[Declared],
    expr: &ExprText,
) -> Result<(), PatternFault>
    ensures { Judges (part_rules.part_fault source.now known.now sight.now block.now (expr_of expr.now)) result }
{
    match expr {
        ExprText::Number(_) => Ok(()),
        ExprText::Capture(at) => check_capture(source, sight, *at),
        ExprText::Name(at) => check_name(source, known, sight, block, *at),
        ExprText::Parens(_, a) => check_part(alloc, source, known, sight, block, a.get()),
        ExprText::Unary(_, _, a) => check_part(alloc, source, known, sight, block, a.get()),
        ExprText::Binary(operator, _, a, b) => {
            check_part(alloc, source, known, sight, block, a.get())?;
            if is_code_test(source, *operator, a.get(), b.get()) {
                Ok(())
            } else {
                check_part(alloc, source, known, sight, block, b.get())
            }
        }
        ExprText::Choose(_, c, a, b) => {
            check_part(alloc, source, known, sight, block, c.get())?;
            check_part(alloc, source, known, sight, block, a.get())?;
            check_part(alloc, source, known, sight, block, b.get())
        }
        ExprText::Call(callee, args) => {
            check_callee(alloc, source, callee)?;
            check_parts(alloc, source, known, sight, block, args.as_slice())
        }
    }
}

/// Each capture, name and call of these expressions is known.
#[cycle(parts)]
pub(crate) fn check_parts(
    alloc: Global,
    source: &[u8],
    known: &Known,
    sight: &Sight,
    block: &[Declared],
    args: &[ExprText],
) -> Result<(), PatternFault>
    ensures { Judges (part_rules.parts_fault source.now known.now sight.now block.now (exprs (map expr_of args.now))) result }
{
    for arg in args {
        check_part(alloc, source, known, sight, block, arg)?;
    }
    Ok(())
}
