//! What C parts come to. A row is a part, its text, and `ok` or the fault, its place and its length.
//!
//! A part is the condition of an `if`, the inside of a `{` or that of a `with` block.

use cond_subset::{Local, Scope, parse_block, parse_brace, parse_cond};
use pd_ast::CType;
use pd_lexer::lex;
use pm_items::Items;
use pm_ops::{OutOfMemory, PatternFault, Text};
use std::alloc::Global;
use std::process::Abort;
use std::test::Fail;

/// The first offending token, or just behind the last one.
const SYNTAX_OF_CONDITIONS: &str = "\
if  => CSyntax 0 0
if 1 + => CSyntax 3 0
if 1 +  => CSyntax 3 0
if a b => CSyntax 2 1
if a ? b => CSyntax 5 0
if a ? b ; c => CSyntax 6 1
if (a, b) => CSyntax 2 1
if f (a,) => CSyntax 5 1
if f (a b) => CSyntax 5 1
if x::f (a) => CSyntax 1 2
if wi::f => CSyntax 5 0
if wi::(a) => CSyntax 4 1
if a / b => CSyntax 2 1
if a << b => CSyntax 2 2
if @@x + 1 => CSyntax 0 3
if \"a\" => CSyntax 0 3
if f (a, b, c, &n) => CSyntax 12 1
if a) => CSyntax 1 1
if true; => CSyntax 4 1
{  => CSyntax 0 0
{ @0;; => CSyntax 3 1
{ ; => CSyntax 0 1
{ @0 } => CSyntax 3 1
{ x + => CSyntax 3 0";

/// The same of blocks: where a flag may not stand, among them.
const SYNTAX_OF_BLOCKS: &str = "\
with int i = 1 => CSyntax 9 0
with int = 1; => CSyntax 4 1
with int i 1; => CSyntax 6 1
with x y = 1; => CSyntax 0 1
with wi::foo o; => CSyntax 4 3
with wi::overflow_type o = 1; => CSyntax 20 1
with wide_int w = wi::add (a, b, &o); => CSyntax 28 1
with wide_int w = wi::add (a, b, s, t, &o); => CSyntax 34 1
with wide_int w = wi::neg (a, b, &o); => CSyntax 28 1
with wide_int w = wi::add (a, b, s, &o) + c; => CSyntax 35 1
with wide_int w = (wi::add (a, b, s, &o)); => CSyntax 32 1
with wide_int w = wi::bit_and (a, b, c, &o); => CSyntax 35 1
with int w = wi::add (a, b, s, &o); => CSyntax 26 1
with int i = 1; } => CSyntax 11 1";

/// The first unknown name or call of a condition.
const NAMES_OF_CONDITIONS: &str = "\
if single_use (x) => CName 12 1
if x == 1 || y => CName 0 1
if 1 == true || x => CName 13 1
if w == 1 => ok
if op == PLUS_EXPR => ok
if INTEGER_CST == 1 => CName 0 11
if (TREE_CODE (@0)) == INTEGER_CST => CName 20 11
if INTEGER_CST == TREE_CODE (@0) => CName 0 11
if TREE_CODE == 1 => CName 0 9
if wi::foo (w) => CName 4 3
if foo (w) => CName 0 3
if foo (x) => CName 0 3
if true ? x : y => CName 7 1
if wi::TREE_CODE (@0) == SSA_NAME => CName 4 9
if type == type && single_use (t) => ok
if TREE_CODE (@0) == INTEGER_CST => ok
if TREE_CODE (@0) != SSA_NAME => ok
if types_match (@0, type) => ok
if wi::eq_p (w, wi::to_wide (@0)) => ok";

/// The first place of a condition that does not fit.
const TYPES_OF_CONDITIONS: &str = "\
if 1 == true => CType 2 2
if w < 1 => CType 2 1
if 1 + 2 => CType 0 1
if @0 => CType 0 2
if (1) => CType 0 1
if -w => CType 0 1
if !1 => CType 0 1
if ~1 == 1 => CType 0 1
if op ? true : false => CType 3 1
if true ? type : w == w => CType 5 1
if true ? 1 : w => CType 5 1
if 1 + true == 2 && !1 => CType 2 1
if w & 1 => CType 2 1
if true && 1 => CType 5 2
if @0 == @0 => CType 3 2
if 1 ? 2 : 3 * type => CType 10 1
if TREE_CODE (w) != SSA_NAME => CType 0 9
if TREE_CODE (@0, @1) == SSA_NAME => CType 0 9
if TREE_CODE (1 + true) == SSA_NAME => CType 13 1
if TREE_CODE (@0) => CType 0 9
if TREE_CODE (@0) == PLUS_EXPR => CType 0 9
if wi::eq_p (1, 2) => CType 4 4
if single_use () => CType 0 10
if single_use (1 + true) => CType 14 1
if wi::to_wide (@0) => CType 0 2";

/// Names and types of operands in braces and of blocks.
const OTHER_PARTS: &str = "\
{ @0 => ok
{ @0; => ok
{ t; => ok
{ build_zero_cst (type) => ok
{ x => CName 0 1
{ type + x; => CName 7 1
{ wi::foo (@0) => CName 4 3
{ true => CType 0 4
{ w + 1; => CType 0 1
{ build_zero_cst (@0) => CType 0 14
{ @0 + @0 => CType 3 1
{ true ? @0 : @1 => ok
with  => ok
with wi::overflow_type o; wide_int w = wi::add (w, 1, SIGNED, &o); bool b = o; => ok
with wi::overflow_type o; bool b = o; => CName 30 1
with wi::overflow_type o; wide_int v = o ? w : wi::add (w, 1, SIGNED); => CName 34 1
with wide_int v = wi::neg (w, &o); => CName 26 1
with int i = i; => CName 8 1
with wi::overflow_type w; wide_int v = w; => CName 34 1
with wi::overflow_type op; tree_code c = op; => CName 36 2
with bool b = 1; bool c = x; => CName 21 1
with wide_int v = wi::neg (w, &w); => CType 17 3
with wide_int v = wi::neg (1, &w); => CType 17 3
with bool w = true; wide_int v = w; => CType 24 1
with tree x = 1; => CType 5 1
with int t = 1; tree u = t; tree type = 1; => CType 28 4
with bool b = true + 1; int c = true; => CType 14 1
with wi::overflow_type o; wide_int o = wi::neg (w, &o); wide_int v = wi::neg (o, &o); => CType 68 3
with wi::overflow_type o; int o = 1; wide_int v = wi::neg (w, &o); => CType 49 3";

/// A scope in the tail of a `match`, where `op` is an identifier of a `for` and `w` a word.
fn scope_of(alloc: Global) -> Result<Scope, OutOfMemory> {
    let mut choices = Items::new(alloc);
    choices.push(Text::new(alloc, b"op")?)?;
    let mut locals = Items::new(alloc);
    locals.push(Local {
        name: Text::new(alloc, b"w")?,
        ty: CType::WideRef,
    })?;
    Ok(Scope {
        captures: Items::new(alloc),
        choices,
        locals,
        in_match: true,
    })
}

/// The fault of a part.
fn fault_of(
    alloc: Global,
    part: &str,
    text: &str,
    scope: &Scope,
) -> Result<Option<PatternFault>, PatternFault> {
    let source = text.as_bytes();
    let tokens = lex(alloc, source)?;
    match part {
        "if" => Ok(parse_cond(alloc, &tokens, source, scope).err()),
        "{" => Ok(parse_brace(alloc, &tokens, source, scope).err()),
        _ => Ok(parse_block(alloc, &tokens, source, scope).err()),
    }
}

/// A fault in words, and else `ok`.
fn told(alloc: Global, fault: Option<PatternFault>) -> Result<String, OutOfMemory> {
    match fault {
        Some(fault) => {
            Ok(format!(in alloc; "{} {} {}", fault.kind.name(), fault.at, fault.len)?)
        }
        None => Ok(String::from_str(alloc, "ok")?),
    }
}

/// A row comes to what it says.
fn judge_row(rt: &impl Abort, alloc: Global, scope: &Scope, row: &str) -> Result<(), PatternFault> {
    let (written, answer) = row.split_once(" => ").unwrap_or((row, ""));
    let (part, text) = written.split_once(' ').unwrap_or((written, ""));
    let fault = fault_of(alloc, part, text, scope)?;
    assert_eq!(rt; told(alloc, fault)?.as_str(), answer, "{row}");
    Ok(())
}

/// Each row comes to what it says.
fn judge(rt: &impl Abort, alloc: Global, rows: &str) -> Result<(), PatternFault> {
    let scope = scope_of(alloc)?;
    for row in rows.split('\n') {
        judge_row(rt, alloc, &scope, row)?;
    }
    Ok(())
}

#[test]
fn syntax_of_conditions(rt: HostRuntime) -> Result<(), Fail> {
    Ok(judge(&rt, rt.alloc(), SYNTAX_OF_CONDITIONS)?)
}

#[test]
fn syntax_of_blocks(rt: HostRuntime) -> Result<(), Fail> {
    Ok(judge(&rt, rt.alloc(), SYNTAX_OF_BLOCKS)?)
}

#[test]
fn names_of_conditions(rt: HostRuntime) -> Result<(), Fail> {
    Ok(judge(&rt, rt.alloc(), NAMES_OF_CONDITIONS)?)
}

#[test]
fn types_of_conditions(rt: HostRuntime) -> Result<(), Fail> {
    Ok(judge(&rt, rt.alloc(), TYPES_OF_CONDITIONS)?)
}

#[test]
fn other_parts(rt: HostRuntime) -> Result<(), Fail> {
    Ok(judge(&rt, rt.alloc(), OTHER_PARTS)?)
}
