//! Values worked by hand after GCC's manual, of C text that is read, typed, copied and evaluated.
//!
//! A row is a part, its text, and its value or its fault. A part is the condition of an `if`, an
//! operand in `{`, a `with` block, whose value is that of its last local, or the value of a local
//! that is declared with the part's word.
ghost use Rattle.cond_eval.specs.Environments.{AreValues};

use crate::environments::{environment, known_names, shown, told};
use cond_eval::{CEnv, CValue, declare, eval};
use cond_subset::{Scope, parse_block, parse_brace, parse_cond};
use pd_ast::{CDecl, CExpr};
use pd_lexer::lex;
use pm_items::Items;
use pm_ops::{OutOfMemory, PatternFault};
use pm_wide::IntType;
use std::alloc::Global;
use std::process::Abort;
use std::test::Fail;

/// Operators, choices and names.
const OPERATORS: &str = "\
if 1 + 2 * 3 == 7 => true
if 9223372036854775807 + 1 == 0 => none
int 9223372036854775807 + 1 => none
int -9223372036854775807 - 1 => -9223372036854775808
int -9223372036854775807 - 2 => none
int -(-9223372036854775807 - 1) => none
int 4611686018427387904 * 2 => none
int 3 - 5 => -2
if 2 < 3 => true
if 3 < 3 => false
if 3 <= 3 => true
if 4 > 3 => true
if 3 >= 4 => false
if 2 != 3 => true
if !true => false
if true == false => false
if SIGNED != UNSIGNED => true
if PLUS_EXPR == MINUS_EXPR => false
tree_code LT_EXPR => LT_EXPR
if type == type => true
if @5 == @5 => CType 3 2
if 1 == true => CType 2 2
if TYPE_PRECISION (type) == 32 || 9223372036854775807 + 1 == 0 => true
if 9223372036854775807 + 1 == 0 || true => none
if false || true => true
if false && 9223372036854775807 + 1 == 0 => false
if true && false => false
int true ? 5 : 9223372036854775807 + 1 => 5
int false ? 5 : 9223372036854775807 + 1 => none
wide_int w7 + w7 => 72/7
wide_int w7 - 1 => 99/7
wide_int 1 - w7 => 29/7
wide_int w7 * 3 => 44/7
wide_int -w7 => 28/7
wide_int ~w7 => 27/7
wide_int w7 & v7 => 4/7
wide_int w7 | v7 => 103/7
wide_int w7 ^ v7 => 99/7
wide_int w7 & 4 => CType 3 1
if w7 == 100 => true
if w7 == 228 => true
if w7 == w8 => none
wide_int w7 + w8 => none
int absent => CName 0 6
{ t => none
tree_code op => none
if GIMPLE => true
if GENERIC || false => false
int 0x1fUL + 1u => 32
{ @wide; => 340282366920938463463374607431768211455:i128";

/// How tight operators bind: each level beside the next.
const LEVELS: &str = "\
int true ? 1 : true ? 2 : 3 => 1
int false ? 1 : false ? 2 : 3 => 3
int true ? false ? 1 : 2 : 3 => 2
int true || true ? 1 : 2 => 1
if true || true && false => true
if false && false || true => true
if w7 == w7 && v7 == w7 || true => true
wide_int w7 | w7 ^ w7 => 100/7
wide_int w7 ^ w7 & v7 => 96/7
if 1 < 2 == true => true
if 2 + 1 < 3 => false
int 10 - 2 - 3 => 5
int 10 - 2 * 3 => 4
int 2 * 3 * 4 => 24
int -2 * 3 => -6
int -(2 + 3) * 4 => -20
if !true == false => true
wide_int ~-w7 => 99/7";

/// Calls on types and operands.
const CALLS: &str = "\
tree TREE_TYPE (@5) => i32
int TYPE_PRECISION (TREE_TYPE (@x)) => 32
int element_precision (@byte) => 8
int element_precision (type) => 32
signop TYPE_SIGN (type) => SIGNED
signop TYPE_SIGN (TREE_TYPE (@byte)) => UNSIGNED
if TYPE_UNSIGNED (TREE_TYPE (@byte)) => true
if INTEGRAL_TYPE_P (type) => true
if ANY_INTEGRAL_TYPE_P (type) => true
if FLOAT_TYPE_P (type) => false
if VECTOR_TYPE_P (type) => false
if POINTER_TYPE_P (type) => false
if TYPE_OVERFLOW_SANITIZED (type) => false
if TYPE_OVERFLOW_TRAPS (type) => false
if TYPE_OVERFLOW_UNDEFINED (type) => true
if TYPE_OVERFLOW_WRAPS (type) => false
if TYPE_OVERFLOW_WRAPS (TREE_TYPE (@one)) => true
if type_has_mode_precision_p (type) => true
if type_has_mode_precision_p (TREE_TYPE (@one)) => false
if types_match (@x, type) => true
if types_match (@x, @byte) => false
if tree_nop_conversion_p (type, TREE_TYPE (@byte)) => false
if tree_nop_conversion_p (type, unsigned_type_for (type)) => true
tree unsigned_type_for (type) => u32
tree signed_type_for (TREE_TYPE (@high)) => i128
tree unsigned_type_for (TREE_TYPE (@one)) => u1
tree signed_type_for (TREE_TYPE (@one)) => none
if single_use (@x) => true
if single_use (@y) => false
if single_use (@z) => none
if single_use (@5) => true
if TREE_CODE (@5) == INTEGER_CST => true
if TREE_CODE (@5) != INTEGER_CST => false
if TREE_CODE (@x) == SSA_NAME => true
if TREE_CODE (@x) != SSA_NAME => false
if integer_zerop (@0) => true
if integer_zerop (@x) => false
if integer_onep (@one) => true
if integer_onep (@5) => false
if integer_truep (@one) => true
if integer_all_onesp (@one) => true
if integer_all_onesp (@ones) => true
if integer_all_onesp (@wide) => true
if integer_all_onesp (@5) => false
if integer_minus_onep (@ones) => true
if integer_pow2p (@least) => true
if integer_pow2p (@one) => true
if integer_pow2p (@none) => false
if integer_pow2p (@5) => false
if INTEGER_CST (@5) => true
if SSA_NAME (@5) => false
int tree_int_cst_sgn (@ones) => -1
int tree_int_cst_sgn (@none) => 0
int tree_int_cst_sgn (@byte) => 1
int tree_int_cst_sgn (@x) => none
wide_int wi::to_wide (@x) => none
{ build_zero_cst (type) => 0:i32
{ build_one_cst (type) => 1:i32
{ build_minus_one_cst (type) => 4294967295:i32
{ build_all_ones_cst (TREE_TYPE (@one)) => 1:u1
{ build_int_cst (TREE_TYPE (@byte), -1) => 255:u8
{ build_int_cst (TREE_TYPE (@one), 6) => 0:u1
{ wide_int_to_tree (type, wi::to_wide (@small)); => 4294967240:i32
{ wide_int_to_tree (TREE_TYPE (@high), wi::to_wide (@small)) => 200:u128
{ wide_int_to_tree (TREE_TYPE (@one), wi::to_wide (@5)) => 1:u1
tree type (type) => CName 0 4";

/// Calls on words.
const WORDS: &str = "\
wide_int wi::to_wide (@byte) => 200/8
wide_int wi::add (w7, v7) => 107/7
wide_int wi::add (w7, 60) => 32/7
wide_int wi::sub (v7, w7) => 35/7
wide_int wi::sub (0, w7) => 28/7
wide_int wi::mul (w7, v7) => 60/7
wide_int wi::add (w7, w8) => none
wide_int wi::add (1, 2) => CType 4 3
wide_int wi::mul (wi::to_wide (@wide), wi::to_wide (@wide)) => 1/128
wide_int wi::neg (wi::to_wide (@none)) => 0/1
wide_int wi::neg (wi::to_wide (@one)) => 1/1
wide_int wi::neg (wi::to_wide (@least)) => 2147483648/32
wide_int wi::bit_and (w7, v7) => 4/7
wide_int wi::bit_or (w7, v7) => 103/7
wide_int wi::bit_xor (w7, v7) => 99/7
wide_int wi::bit_and (w7, -1) => 100/7
wide_int wi::bit_not (w7) => 27/7
wide_int wi::lshift (w7, 1) => 72/7
wide_int wi::lshift (w7, 6) => 0/7
wide_int wi::lshift (w7, 7) => none
wide_int wi::lshift (w7, -1) => none
wide_int wi::lshift (w7, v7) => CType 4 6
wide_int wi::lshift (wi::to_wide (@one), 0) => 1/1
wide_int wi::lrshift (w7, 2) => 25/7
wide_int wi::lrshift (w7, 7) => none
wide_int wi::arshift (w7, 2) => 121/7
wide_int wi::arshift (v7, 1) => 3/7
wide_int wi::arshift (wi::to_wide (@one), 0) => 1/1
wide_int wi::lrshift (wi::to_wide (@high), 127) => 1/128
wide_int wi::arshift (wi::to_wide (@wide), 100) => 340282366920938463463374607431768211455/128
wide_int wi::min_value (type) => 2147483648/32
wide_int wi::max_value (type) => 2147483647/32
wide_int wi::min_value (TREE_TYPE (@one)) => 0/1
wide_int wi::max_value (TREE_TYPE (@one)) => 1/1
wide_int wi::max_value (TREE_TYPE (@high)) => 340282366920938463463374607431768211455/128
int wi::popcount (w7) => 3
int wi::popcount (wi::to_wide (@wide)) => 128
int wi::clz (w7) => 0
int wi::clz (v7) => 4
int wi::clz (wi::to_wide (@0)) => 32
if wi::clz (wi::to_wide (@0)) == 32 => true
if wi::clz (wi::to_wide (@x)) == 32 => none
int wi::clz (wi::to_wide (@none)) => 1
int wi::clz (wi::to_wide (@high)) => 0
int wi::ctz (w7) => 2
int wi::ctz (wi::to_wide (@0)) => 32
int wi::ctz (wi::to_wide (@high)) => 127
int wi::exact_log2 (wi::to_wide (@high)) => 127
int wi::exact_log2 (wi::to_wide (@0)) => -1
int wi::exact_log2 (w7) => -1
int wi::exact_log2 (wi::to_wide (@one)) => 0
if wi::eq_p (w7, 100) => true
if wi::ne_p (w7, v7) => true
if wi::eq_p (w7, w8) => none
if wi::lt_p (w7, v7, SIGNED) => true
if wi::lt_p (w7, v7, UNSIGNED) => false
if wi::le_p (v7, v7, SIGNED) => true
if wi::gt_p (v7, w7, SIGNED) => true
if wi::ge_p (v7, 0, SIGNED) => true
if wi::lts_p (w7, v7) => true
if wi::ltu_p (w7, v7) => false
if wi::les_p (w7, v7) => true
if wi::leu_p (w7, v7) => false
if wi::gts_p (w7, v7) => false
if wi::gtu_p (w7, v7) => true
if wi::ges_p (w7, v7) => false
if wi::geu_p (w7, v7) => true
if wi::ltu_p (wi::to_wide (@high), wi::to_wide (@none)) => none
if wi::lts_p (wi::to_wide (@high), 0) => true
if wi::ltu_p (wi::to_wide (@high), 0) => false
if wi::lts_p (wi::to_wide (@one), 0) => true
if wi::gtu_p (wi::to_wide (@one), 0) => true
wide_int wi::add (w7) => CType 4 3
wide_int wi::add (w7, v7, SIGNED) => CType 4 3";

/// Blocks: a later local of a name hides an earlier one, and each sees those before it.
const BLOCKS: &str = "\
with int n = 5; bool b = n == 5; int n = n + 1; => 6
with int n = 5; bool b = n == 5; int n = n + 1; bool r = b; => true
with bool w7 = true; bool r = w7; => true
with int n = 1; int m = 9223372036854775807 + n; int r = 1; => none
with wi::overflow_type w7; wide_int v = wi::add (v7, v7, SIGNED, &w7); bool r = w7; => false";

/// Where `type` is `_Bool`, to which no signed type belongs.
const OF_TRUTHS: &str = "\
if signed_type_for (type) == type => none
if unsigned_type_for (type) == type => true
if TYPE_PRECISION (type) == 1 => true
{ build_all_ones_cst (type) => 1:u1";

/// Calls with an overflow flag: the word, and the flag from there on.
const FLAGGED: &str = "\
wi::add (wi::to_wide (@two), wi::to_wide (@three), TYPE_SIGN (type), &o) => 5/32 false
wi::add (wi::to_wide (@most), wi::to_wide (@unit), TYPE_SIGN (type), &o) => 2147483648/32 true
wi::add (wi::to_wide (@5), 3, SIGNED, &o) => 8/32 false
wi::add (wi::max_value (type), 1, SIGNED, &o) => 2147483648/32 true
wi::add (wi::max_value (type), 1, UNSIGNED, &o) => 2147483648/32 false
wi::add (wi::max_value (type), -1, UNSIGNED, &o) => 2147483646/32 true
wi::sub (wi::min_value (type), 1, SIGNED, &o) => 2147483647/32 true
wi::sub (0, wi::to_wide (@5), UNSIGNED, &o) => 4294967291/32 true
wi::add (w7, w7, SIGNED, &o) => 72/7 false
wi::mul (w7, v7, SIGNED, &o) => 60/7 true
wi::add (wi::to_wide (@one), 1, UNSIGNED, &o) => 0/1 true
wi::mul (wi::to_wide (@high), 2, UNSIGNED, &o) => 0/128 true
wi::mul (wi::to_wide (@wide), -1, SIGNED, &o) => 1/128 false
wi::mul (wi::to_wide (@high), -1, SIGNED, &o) => 170141183460469231731687303715884105728/128 true
wi::neg (wi::min_value (type), &o) => 2147483648/32 true
wi::neg (w7, &o) => 28/7 false
wi::add (w7, w8, SIGNED, &o) => none none
wi::add (wi::to_wide (@5), 3, &o) => CSyntax 64 1 CSyntax 64 1";

/// The value of a copy of an expression.
fn value_of(alloc: Global, env: &CEnv, expr: &CExpr) -> Result<String, OutOfMemory>
    requires { AreValues env.now.locals }
{
    let copy = expr.copy(alloc)?;
    if !copy.same(expr) {
        return Ok(String::from_str(alloc, "no copy")?);
    }
    shown(alloc, eval(&copy, env))
}

/// The value of a condition, or its fault.
fn cond_value(alloc: Global, env: &CEnv, scope: &Scope, text: &str) -> Result<String, PatternFault>
    requires { AreValues env.now.locals }
{
    let source = text.as_bytes();
    let tokens = lex(alloc, source)?;
    match parse_cond(alloc, &tokens, source, scope) {
        Ok(expr) => Ok(value_of(alloc, env, &expr)?),
        Err(fault) => Ok(told(alloc, fault, 0)?),
    }
}

/// The value of an operand in braces, or its fault.
fn brace_value(alloc: Global, env: &CEnv, scope: &Scope, text: &str) -> Result<String, PatternFault>
    requires { AreValues env.now.locals }
{
    let source = text.as_bytes();
    let tokens = lex(alloc, source)?;
    match parse_brace(alloc, &tokens, source, scope) {
        Ok(expr) => Ok(value_of(alloc, env, &expr)?),
        Err(fault) => Ok(told(alloc, fault, 0)?),
    }
}

/// Copies of declarations, without those that are another declaration.
fn copies(alloc: Global, decls: &[CDecl]) -> Result<Items<CDecl>, OutOfMemory> {
    let mut copies = Items::new(alloc);
    for decl in decls {
        let copy = decl.copy(alloc)?;
        if copy.same(decl) {
            copies.push(copy)?;
        }
    }
    Ok(copies)
}

/// The value of the last local.
fn last_value(env: &Option<CEnv>) -> Option<CValue> {
    match env {
        Some(env) => match env.locals.as_slice() {
            [.., (_, value)] => Some(*value),
            _ => None,
        },
        None => None,
    }
}

/// The value of the last local of a copy of declarations.
fn declared(alloc: Global, env: &CEnv, decls: &[CDecl]) -> Result<String, OutOfMemory>
    requires { AreValues env.now.locals }
{
    let copies = copies(alloc, decls)?;
    let after = declare(alloc, copies.as_slice(), env.copy(alloc)?)?;
    shown(alloc, last_value(&after))
}

/// The value of the last local of a block, or the block's fault, whose place is counted from this
/// byte.
fn block_value(
    alloc: Global,
    env: &CEnv,
    scope: &Scope,
    from: usize,
    block: &str,
) -> Result<String, PatternFault>
    requires { AreValues env.now.locals }
{
    let source = block.as_bytes();
    let tokens = lex(alloc, source)?;
    match parse_block(alloc, &tokens, source, scope) {
        Ok(decls) => Ok(declared(alloc, env, decls.as_slice())?),
        Err(fault) => Ok(told(alloc, fault, from)?),
    }
}

/// The value of a local that is declared with this word, or the fault, whose place is counted from
/// where the text begins.
fn local_value(
    alloc: Global,
    env: &CEnv,
    scope: &Scope,
    word: &str,
    text: &str,
) -> Result<String, PatternFault>
    requires { AreValues env.now.locals }
{
    let block = format!(in alloc; "{word} r = {text};")?;
    let from = word.len().saturating_add(" r = ".len());
    block_value(alloc, env, scope, from, block.as_str())
}

/// The value of a part, or its fault.
fn part_value(
    alloc: Global,
    env: &CEnv,
    scope: &Scope,
    part: &str,
    text: &str,
) -> Result<String, PatternFault>
    requires { AreValues env.now.locals }
{
    match part {
        "if" => cond_value(alloc, env, scope, text),
        "{" => brace_value(alloc, env, scope, text),
        "with" => block_value(alloc, env, scope, 0, text),
        word => local_value(alloc, env, scope, word, text),
    }
}

/// A row has its value.
fn judge_row(
    rt: &impl Abort,
    alloc: Global,
    env: &CEnv,
    scope: &Scope,
    row: &str,
) -> Result<(), PatternFault>
    requires { AreValues env.now.locals }
{
    let (written, answer) = row.split_once(" => ").unwrap_or((row, ""));
    let (part, text) = written.split_once(' ').unwrap_or((written, ""));
    let found = part_value(alloc, env, scope, part, text)?;
    assert_eq!(rt; found.as_str(), answer, "{row}");
    Ok(())
}

/// Each row has its value, where `type` is that type.
fn judge(rt: &impl Abort, alloc: Global, ty: IntType, rows: &str) -> Result<(), PatternFault> {
    let scope = known_names(alloc)?;
    let env = environment(alloc, ty)?;
    for row in rows.split('\n') {
        judge_row(rt, alloc, &env, &scope, row)?;
    }
    Ok(())
}

/// A call with the flag `o` gives its word, and its flag from there on.
fn judge_flag(
    rt: &impl Abort,
    alloc: Global,
    env: &CEnv,
    scope: &Scope,
    row: &str,
) -> Result<(), PatternFault>
    requires { AreValues env.now.locals }
{
    let (call, answer) = row.split_once(" => ").unwrap_or((row, ""));
    let block = format!(in alloc; "wi::overflow_type o; wide_int w = {call};")?;
    let word = block_value(alloc, env, scope, 0, block.as_str())?;
    let block = format!(in alloc; "{block} bool r = o;")?;
    let flag = block_value(alloc, env, scope, 0, block.as_str())?;
    let found = format!(in alloc; "{word} {flag}")?;
    assert_eq!(rt; found.as_str(), answer, "{call}");
    Ok(())
}

/// Each call with the flag `o` gives its word and its flag.
fn judge_flags(rt: &impl Abort, alloc: Global, rows: &str) -> Result<(), PatternFault> {
    let scope = known_names(alloc)?;
    let env = environment(alloc, IntType::int())?;
    for row in rows.split('\n') {
        judge_flag(rt, alloc, &env, &scope, row)?;
    }
    Ok(())
}

#[test]
fn operators_and_names(rt: HostRuntime) -> Result<(), Fail> {
    Ok(judge(&rt, rt.alloc(), IntType::int(), OPERATORS)?)
}

#[test]
fn levels(rt: HostRuntime) -> Result<(), Fail> {
    Ok(judge(&rt, rt.alloc(), IntType::int(), LEVELS)?)
}

#[test]
fn calls_on_types_and_operands(rt: HostRuntime) -> Result<(), Fail> {
    Ok(judge(&rt, rt.alloc(), IntType::int(), CALLS)?)
}

#[test]
fn calls_on_words(rt: HostRuntime) -> Result<(), Fail> {
    Ok(judge(&rt, rt.alloc(), IntType::int(), WORDS)?)
}

#[test]
fn blocks(rt: HostRuntime) -> Result<(), Fail> {
    Ok(judge(&rt, rt.alloc(), IntType::int(), BLOCKS)?)
}

#[test]
fn truths(rt: HostRuntime) -> Result<(), Fail> {
    Ok(judge(&rt, rt.alloc(), IntType::boolean(), OF_TRUTHS)?)
}

#[test]
fn overflow_flags(rt: HostRuntime) -> Result<(), Fail> {
    Ok(judge_flags(&rt, rt.alloc(), FLAGGED)?)
}
