//! The stage of names: each name and call of an expression is known.

ghost use Rattle.std.specs.Prelude.{◌≡◌, ◌++◌, [], map, IfOk};
ghost use Rattle.cond_subset.specs.Trees.{expr_of, exprs};
ghost use Rattle.cond_subset.specs.Declarations.{value_of, decl_of};
ghost use Rattle.cond_subset.specs.Names.{is_first, is_truth, is_sign, is_local, is_choice, knows_outside, last_named, knows, knows_flag, callee_name, is_code, knows_call, compares, is_code_call, is_code_word, is_code_test, unknown, unknown_among, unknown_value, unknown_decl, unknown_in, set_flag, flags_of, declared_by, unless, Judges};
ghost use Rattle.cond_subset.specs.Syntax.{fault_at};
ghost use Rattle.pm_ops.specs.declared.fault.PatternKind.TheVariants.{CName};
ghost use Rattle.pm_places.specs.Spans.{text_of};

use crate::part::fault_at;
use crate::scope::{Declared, Local, Scope};
use crate::tree::{Callee, DeclText, ExprText, ValueText};
use pd_ast::{BinaryOperator, Call};
use pm_ops::{Code, OutOfMemory, PatternFault, PatternKind, Text};
use pm_places::{Span, text};
use std::alloc::Global;

/// Whether this comes before all locals: `type`, and `t` in a tail.
fn is_first(in_match: bool, name: &[u8]) -> bool
    ensures { result ≡ is_first in_match name.now }
{
    name == b"type".as_slice() || (in_match && name == b"t".as_slice())
}

/// Whether this is a truth value.
pub(crate) fn is_truth(name: &[u8]) -> bool
    ensures { result ≡ is_truth name.now }
{
    name == b"true".as_slice()
        || name == b"false".as_slice()
        || name == b"GIMPLE".as_slice()
        || name == b"GENERIC".as_slice()
}

/// Whether this is a sign.
pub(crate) fn is_sign(name: &[u8]) -> bool
    ensures { result ≡ is_sign name.now }
{
    name == b"SIGNED".as_slice() || name == b"UNSIGNED".as_slice()
}

/// Whether one of these locals has the name.
fn is_local(locals: &[Local], name: &[u8]) -> bool
    ensures { result ≡ is_local locals.now name.now }
{
    locals.iter().any(|local| local.name.bytes() == name)
}

/// Whether one of these identifiers is the name.
pub(crate) fn is_choice(choices: &[Text], name: &[u8]) -> bool
    ensures { result ≡ is_choice choices.now name.now }
{
    choices.iter().any(|one| one.bytes() == name)
}

/// Whether a name stands for something outside the block.
fn knows_outside(scope: &Scope, name: &[u8]) -> bool
    ensures { result ≡ knows_outside scope.now name.now }
{
    is_local(scope.locals.as_slice(), name)
        || is_choice(scope.choices.as_slice(), name)
        || Code::from_c_name(name).is_some()
        || is_truth(name)
        || is_sign(name)
}

/// What the block declared last by this name.
fn last_named(source: &[u8], block: &[Declared], name: &[u8]) -> Option<Declared>
    ensures { result ≡ last_named source.now block.now name.now }
{
    block
        .iter()
        .rev()
        .copied()
        .find(|one| text(source, one.name) == name)
}

/// Whether a name stands for something.
fn knows(source: &[u8], scope: &Scope, block: &[Declared], name: &[u8]) -> bool
    ensures { result ≡ knows source.now scope.now block.now name.now }
{
    if is_first(scope.in_match, name) {
        return true;
    }
    match last_named(source, block, name) {
        Some(one) => one.ready,
        None => knows_outside(scope, name),
    }
}

/// The name of a call, with `wi::` where it is written.
pub(crate) fn callee_name(
    alloc: Global,
    source: &[u8],
    callee: &Callee,
) -> Result<Vec<u8>, OutOfMemory>
    ensures { IfOk result (λ name. name.items ≡ callee_name source.now callee.now) }
{
    let prefix = if callee.wide.is_some() { "wi::" } else { "" };
    let mut name = Vec::from_slice(alloc, prefix.as_bytes())?;
    name.extend_from_slice(text(source, callee.name))?;
    Ok(name)
}

/// Whether this is `TREE_CODE`.
pub(crate) fn is_code(source: &[u8], callee: &Callee) -> bool
    ensures { result ≡ is_code callee.now.wide (text_of source.now callee.now.name) }
{
    match callee.wide {
        None => text(source, callee.name) == b"TREE_CODE".as_slice(),
        Some(_) => false,
    }
}

/// Whether the call of an expression is `TREE_CODE`, without parentheses around it.
fn is_code_call(source: &[u8], expr: &ExprText) -> bool
    ensures { result ≡ is_code_call source.now (expr_of expr.now) }
{
    match expr {
        ExprText::Call(callee, _) => is_code(source, callee),
        _ => false,
    }
}

/// Whether an expression is `INTEGER_CST` or `SSA_NAME`.
fn is_code_word(source: &[u8], expr: &ExprText) -> bool
    ensures { result ≡ is_code_word source.now (expr_of expr.now) }
{
    match expr {
        ExprText::Name(at) => {
            let name = text(source, *at);
            name == b"INTEGER_CST".as_slice() || name == b"SSA_NAME".as_slice()
        }
        _ => false,
    }
}

/// Whether an operator is `==` or `!=`.
fn compares(operator: BinaryOperator) -> bool
    ensures { result ≡ compares operator }
{
    match operator {
        BinaryOperator::Eq | BinaryOperator::Ne => true,
        _ => false,
    }
}

/// Whether `TREE_CODE (..)` is compared with one of its two words.
pub(crate) fn is_code_test(
    source: &[u8],
    operator: BinaryOperator,
    a: &ExprText,
    b: &ExprText,
) -> bool
    ensures { result ≡ is_code_test source.now operator (expr_of a.now) (expr_of b.now) }
{
    compares(operator) && is_code_call(source, a) && is_code_word(source, b)
}

/// A name stands for something.
fn check_name(
    source: &[u8],
    scope: &Scope,
    block: &[Declared],
    at: Span,
) -> Result<(), PatternFault>
    ensures { Judges (unless (knows source.now scope.now block.now (text_of source.now at)) (fault_at CName at)) result }
{
    if knows(source, scope, block, text(source, at)) {
        Ok(())
    } else {
        Err(fault_at(PatternKind::CName, at))
    }
}

/// A name may stand after `&`.
fn check_flag(
    source: &[u8],
    scope: &Scope,
    block: &[Declared],
    at: Span,
) -> Result<(), PatternFault>
    ensures { Judges (unless (knows_flag source.now scope.now block.now (text_of source.now at)) (fault_at CName at)) result }
{
    let name = text(source, at);
    if last_named(source, block, name).is_some() || knows(source, scope, block, name) {
        Ok(())
    } else {
        Err(fault_at(PatternKind::CName, at))
    }
}

/// A call is one of the language.
fn check_callee(alloc: Global, source: &[u8], callee: &Callee) -> Result<(), PatternFault>
    ensures { Judges (unless (knows_call source.now callee.now) (fault_at CName callee.now.name)) result }
{
    if is_code(source, callee) {
        return Ok(());
    }
    let name = callee_name(alloc, source, callee)?;
    if Call::from_name(&name).is_some() {
        Ok(())
    } else {
        Err(fault_at(PatternKind::CName, callee.name))
    }
}

/// Each name and call of an expression is known, after what its block has declared.
#[cycle(names)]
fn check_expr(
    alloc: Global,
    source: &[u8],
    scope: &Scope,
    block: &[Declared],
    expr: &ExprText,
) -> Result<(), PatternFault>
    ensures { Judges (unknown source.now scope.now block.now (expr_of expr.now)) result }
{
    match expr {
        ExprText::Number(_) | ExprText::Capture(_) => Ok(()),
        ExprText::Name(at) => check_name(source, scope, block, *at),
        ExprText::Parens(_, a) => check_expr(alloc, source, scope, block, a.get()),
        ExprText::Unary(_, _, a) => check_expr(alloc, source, scope, block, a.get()),
        ExprText::Binary(operator, _, a, b) => {
            check_expr(alloc, source, scope, block, a.get())?;
            if is_code_test(source, *operator, a.get(), b.get()) {
                Ok(())
            } else {
                check_expr(alloc, source, scope, block, b.get())
            }
        }
        ExprText::Choose(_, c, a, b) => {
            check_expr(alloc, source, scope, block, c.get())?;
            check_expr(alloc, source, scope, block, a.get())?;
            check_expr(alloc, source, scope, block, b.get())
        }
        ExprText::Call(callee, args) => {
            check_callee(alloc, source, callee)?;
            check_all(alloc, source, scope, block, args.as_slice())
        }
    }
}

/// Each name and call of these expressions is known.
#[cycle(names)]
fn check_all(
    alloc: Global,
    source: &[u8],
    scope: &Scope,
    block: &[Declared],
    args: &[ExprText],
) -> Result<(), PatternFault>
    ensures { Judges (unknown_among source.now scope.now block.now (exprs (map expr_of args.now))) result }
{
    for arg in args {
        check_expr(alloc, source, scope, block, arg)?;
    }
    Ok(())
}

/// Each name and call of a value is known.
fn check_value(
    alloc: Global,
    source: &[u8],
    scope: &Scope,
    block: &[Declared],
    value: &ValueText,
) -> Result<(), PatternFault>
    ensures { Judges (unknown_value source.now scope.now block.now (value_of value.now)) result }
{
    match value {
        ValueText::Plain(expr) => check_expr(alloc, source, scope, block, expr),
        ValueText::Flagged(_, args, flag) => {
            check_all(alloc, source, scope, block, args.as_slice())?;
            check_flag(source, scope, block, *flag)
        }
    }
}

/// Each name and call of a declaration is known.
fn check_decl(
    alloc: Global,
    source: &[u8],
    scope: &Scope,
    block: &[Declared],
    decl: &DeclText,
) -> Result<(), PatternFault>
    ensures { Judges (unknown_decl source.now scope.now block.now (decl_of decl.now)) result }
{
    match decl {
        DeclText::Valued(_, _, value) => check_value(alloc, source, scope, block, value),
        DeclText::Overflow(_) => Ok(()),
    }
}

/// The flag that a value sets.
fn flag_of(value: &ValueText) -> Option<Span>
    ensures { flags_of result ≡ set_flag (value_of value.now) }
{
    match value {
        ValueText::Plain(_) => None,
        ValueText::Flagged(_, _, flag) => Some(*flag),
    }
}

/// The block with what a declaration declares.
fn declare(block: &mut Vec<Declared>, decl: &DeclText) -> Result<(), OutOfMemory>
    ensures { IfOk result (λ _. block.new.items ≡ block.old.items ++ declared_by (decl_of decl.now)) }
{
    match decl {
        DeclText::Valued(_, name, value) => {
            if let Some(flag) = flag_of(value) {
                block.push(Declared {
                    name: flag,
                    ready: true,
                })?;
            }
            block.push(Declared {
                name: *name,
                ready: true,
            })?;
        }
        DeclText::Overflow(name) => block.push(Declared {
            name: *name,
            ready: false,
        })?,
    }
    Ok(())
}

/// Each name and call of an expression is known.
pub fn check_names(
    alloc: Global,
    source: &[u8],
    scope: &Scope,
    expr: &ExprText,
) -> Result<(), PatternFault>
    // The fault is that of the first unknown name or call.
    ensures { Judges (unknown source.now scope.now [] (expr_of expr.now)) result }
{
    check_expr(alloc, source, scope, &[], expr)
}

/// Each name and call of the declarations of a block is known.
pub fn check_block_names(
    alloc: Global,
    source: &[u8],
    scope: &Scope,
    decls: &[DeclText],
) -> Result<(), PatternFault>
    // The fault is that of the first unknown name or call.
    ensures { Judges (unknown_in source.now scope.now [] (map decl_of decls.now)) result }
{
    let mut block = Vec::new(alloc);
    for decl in decls {
        check_decl(alloc, source, scope, &block, decl)?;
        declare(&mut block, decl)?;
    }
    Ok(())
}
