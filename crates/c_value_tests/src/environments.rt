//! What names stand for in the tests, and values and faults in words.
ghost use Rattle.std.specs.Prelude.{◌<◌, ◌≤◌, ◌^◌, IfOk};
ghost use Rattle.cond_eval.specs.Environments.{AreValues};

use cond_eval::{CEnv, CValue};
use cond_subset::{Local, Scope};
use pd_ast::CType;
use pm_items::Items;
use pm_ops::{OutOfMemory, PatternFault, Text};
use pm_wide::{IntType, Operand, Wide};
use std::alloc::Global;

/// Captures that stand for constants: their names, words and widths, and whether they are unsigned.
const CONSTANTS: [(&str, u128, u8, bool); 14] = [
    ("0", 0, 32, false),
    ("5", 5, 32, false),
    ("unit", 1, 32, false),
    ("two", 2, 32, false),
    ("three", 3, 32, false),
    ("most", 0x7fff_ffff, 32, false),
    ("least", 0x8000_0000, 32, false),
    ("ones", 0xffff_ffff, 32, false),
    ("one", 1, 1, true),
    ("none", 0, 1, true),
    ("byte", 200, 8, true),
    ("small", 200, 8, false),
    ("high", 1 << 127, 128, true),
    ("wide", u128::MAX, 128, false),
];

/// Captures that stand for names: `x` is used once, `y` twice, and `z` has no count.
const NAMES: [(&str, u32); 3] = [("x", 7), ("y", 8), ("z", 9)];

/// How often names are used; the last count of a name counts.
const USES: [(u32, u32); 3] = [(7, 1), (8, 3), (8, 2)];

/// The captures that stand for constants.
fn constants(alloc: Global) -> Result<Items<(Text, Operand)>, OutOfMemory> {
    let mut captures = Items::new(alloc);
    for (name, bits, width, unsigned) in &CONSTANTS {
        let ty = IntType::new(*width, *unsigned).unwrap_or(IntType::boolean());
        let operand = Operand::Const(Wide::reduce(*bits, ty));
        captures.push((Text::new(alloc, name.as_bytes())?, operand))?;
    }
    Ok(captures)
}

/// All captures.
fn captures(alloc: Global) -> Result<Items<(Text, Operand)>, OutOfMemory> {
    let mut captures = constants(alloc)?;
    for (name, version) in &NAMES {
        let operand = Operand::Name(*version, IntType::int());
        captures.push((Text::new(alloc, name.as_bytes())?, operand))?;
    }
    Ok(captures)
}

/// The environment with a local more, a word of that precision.
#[tactic(auto, using(cond_eval::proofs::Lookups::one_more))]
fn with_word(
    alloc: Global,
    env: CEnv,
    name: &str,
    precision: u8,
    bits: u128,
) -> Result<CEnv, OutOfMemory>
    requires are_values { AreValues env.locals }
    requires some { 0 < precision }
    requires precision { precision ≤ 128 }
    requires word { bits < 2 ^ precision }
    ensures { IfOk result (λ after. AreValues after.locals) }
{
    let mut env = env;
    let name = Text::new(alloc, name.as_bytes())?;
    env.locals.push((name, CValue::WideRef(precision, bits)))?;
    Ok(env)
}

/// An environment without locals.
fn without_locals(alloc: Global, ty: IntType) -> Result<CEnv, OutOfMemory>
    ensures { IfOk result (λ env. AreValues env.locals) }
{
    Ok(CEnv {
        captures: captures(alloc)?,
        locals: Items::new(alloc),
        ty,
        uses: Items::from_slice(alloc, &USES)?,
    })
}

/// Where `type` is that type: `w7` is 100 and `v7` is 7 in 7 bits, `w8` is 100 in 8 bits; an
/// earlier `w7` is hidden.
pub(crate) fn environment(alloc: Global, ty: IntType) -> Result<CEnv, OutOfMemory>
    ensures { IfOk result (λ env. AreValues env.locals) }
{
    let env = without_locals(alloc, ty)?;
    let env = with_word(alloc, env, "w7", 7, 1)?;
    let env = with_word(alloc, env, "w7", 7, 100)?;
    let env = with_word(alloc, env, "v7", 7, 7)?;
    with_word(alloc, env, "w8", 8, 100)
}

/// The words of the environment, by their names.
const LOCALS: [&str; 3] = ["w7", "v7", "w8"];

/// A scope in the tail of a `match`, with the identifier `op` of a `for` and the words.
pub(crate) fn known_names(alloc: Global) -> Result<Scope, OutOfMemory> {
    let mut choices = Items::new(alloc);
    choices.push(Text::new(alloc, b"op")?)?;
    let mut locals = Items::new(alloc);
    for name in &LOCALS {
        let name = Text::new(alloc, name.as_bytes())?;
        let ty = CType::WideRef;
        locals.push(Local { name, ty })?;
    }
    Ok(Scope {
        captures: Items::new(alloc),
        choices,
        locals,
        in_match: true,
    })
}

/// A type in words, as `u8` or `i128`.
fn type_shown(alloc: Global, ty: IntType) -> Result<String, OutOfMemory> {
    let letter = if ty.unsigned() { 'u' } else { 'i' };
    Ok(format!(in alloc; "{letter}{}", ty.bits())?)
}

/// An operand in words: a constant as `BITS:TYPE`.
fn operand_shown(alloc: Global, operand: Operand) -> Result<String, OutOfMemory> {
    match operand {
        Operand::Name(version, _) => Ok(format!(in alloc; "_{version}")?),
        Operand::Const(word) => {
            let ty = type_shown(alloc, word.ty())?;
            Ok(format!(in alloc; "{}:{ty}", word.bits())?)
        }
    }
}

/// A value in words: a word as `BITS/PRECISION`.
fn value_shown(alloc: Global, value: CValue) -> Result<String, OutOfMemory> {
    match value {
        CValue::Truth(truth) => Ok(format!(in alloc; "{truth}")?),
        CValue::Int(number) => Ok(format!(in alloc; "{number}")?),
        CValue::TypeRef(ty) => type_shown(alloc, ty),
        CValue::Oper(operand) => operand_shown(alloc, operand),
        CValue::WideRef(precision, bits) => Ok(format!(in alloc; "{bits}/{precision}")?),
        CValue::Sign(unsigned) => {
            let sign = if unsigned { "UNSIGNED" } else { "SIGNED" };
            Ok(String::from_str(alloc, sign)?)
        }
        CValue::CodeRef(code) => Ok(String::from_str(alloc, code.c_name())?),
    }
}

/// A value in words, and else `none`.
pub(crate) fn shown(alloc: Global, value: Option<CValue>) -> Result<String, OutOfMemory> {
    match value {
        Some(value) => value_shown(alloc, value),
        None => Ok(String::from_str(alloc, "none")?),
    }
}

/// A fault in words, whose place is counted from this byte: its kind, its place and its length.
pub(crate) fn told(alloc: Global, fault: PatternFault, from: usize) -> Result<String, OutOfMemory> {
    let at = fault.at.saturating_sub(from);
    Ok(format!(in alloc; "{} {at} {}", fault.kind.name(), fault.len)?)
}
