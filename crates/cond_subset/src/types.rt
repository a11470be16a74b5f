//! The stage of types: what operators, calls and declarations take and give.

ghost use Rattle.std.specs.Prelude.{◌≡◌};
ghost use Rattle.cond_subset.specs.Trees.{expr_of};
ghost use Rattle.cond_subset.specs.Types as types;
ghost use Rattle.cond_subset.specs.Types.{Finds};

use crate::names::{callee_name, is_code};
use crate::part::fault_at;
use crate::scope::{Local, Typed};
use crate::signatures::{Arguments, call_type, fit};
use crate::tree::{Arithmetic, Callee, DeclWord, ExprText};
use pd_ast::{CType, Call};
use pm_ops::{PatternFault, PatternKind};
use pm_places::{Span, text};
use std::alloc::Global;

/// What the block declared last by this name.
fn last_typed(source: &[u8], block: &[Typed], name: &[u8]) -> Option<Typed>
    ensures { result ≡ types.last_typed source.now block.now name.now }
{
    block
        .iter()
        .rev()
        .copied()
        .find(|one| text(source, one.name) == name)
}

/// The type of what the block declared last by this name.
pub(crate) fn type_in_block(source: &[u8], block: &[Typed], name: &[u8]) -> Option<CType>
    ensures { result ≡ types.type_in_block source.now block.now name.now }
{
    match last_typed(source, block, name) {
        Some(one) => Some(one.ty),
        None => None,
    }
}

/// The type of the last of these locals.
pub(crate) fn type_of_local(locals: &[Local], name: &[u8]) -> Option<CType>
    ensures { result ≡ types.type_of_local locals.now name.now }
{
    let found = locals.iter().rev().find(|one| one.name.bytes() == name)?;
    Some(found.ty)
}

/// The type, or a fault at this place.
pub(crate) fn or_fault_at(at: Span, ty: Option<CType>) -> Result<CType, PatternFault>
    ensures { result ≡ types.or_fault_at at ty }
{
    match ty {
        Some(ty) => Ok(ty),
        None => Err(fault_at(PatternKind::CType, at)),
    }
}

/// The type of a choice.
pub(crate) fn choice_type(c: CType, a: CType, b: CType) -> Option<CType>
    ensures { result ≡ types.choice_type c a b }
{
    if c == CType::Truth && a == b {
        Some(a)
    } else {
        None
    }
}

/// The type of `TREE_CODE` of such a part, compared with its words.
pub(crate) fn code_type(ty: CType) -> Option<CType>
    ensures { result ≡ types.code_type ty }
{
    match ty {
        CType::Oper => Some(CType::Truth),
        _ => None,
    }
}

/// The type of a call of arguments of these types.
pub(crate) fn called_type(
    alloc: Global,
    source: &[u8],
    callee: &Callee,
    args: &[CType],
) -> Result<CType, PatternFault>
    ensures { Finds (types.or_fault_at callee.now.name (types.called_type source.now callee.now args.now)) result }
{
    if is_code(source, callee) {
        return or_fault_at(callee.name, None);
    }
    let name = callee_name(alloc, source, callee)?;
    match Call::from_name(&name) {
        Some(call) => or_fault_at(callee.name, call_type(call, args)),
        None => or_fault_at(callee.name, None),
    }
}

/// The first token of an expression.
#[cycle(start)]
pub(crate) fn start_of(expr: &ExprText) -> Span
    ensures { result ≡ types.start_of (expr_of expr.now) }
{
    match expr {
        ExprText::Number(at) | ExprText::Capture(at) | ExprText::Name(at) => *at,
        ExprText::Parens(at, _) => *at,
        ExprText::Unary(_, at, _) => *at,
        ExprText::Binary(_, _, a, _) => start_of(a.get()),
        ExprText::Choose(_, c, _, _) => start_of(c.get()),
        ExprText::Call(callee, _) => match callee.wide {
            Some(at) => at,
            None => callee.name,
        },
    }
}

/// The type of a local that is declared with this word and a value of this type.
pub(crate) fn declared_type(word: DeclWord, ty: CType) -> Option<CType>
    ensures { result ≡ types.declared_type word ty }
{
    match (word, ty) {
        (DeclWord::Tree, CType::TypeRef) => Some(CType::TypeRef),
        (DeclWord::Tree, CType::Oper) => Some(CType::Oper),
        (DeclWord::WideInt, CType::WideRef) => Some(CType::WideRef),
        (DeclWord::Boolean, CType::Truth) => Some(CType::Truth),
        (DeclWord::Int, CType::Int) | (DeclWord::Unsigned, CType::Int) => Some(CType::Int),
        (DeclWord::Signop, CType::Sign) => Some(CType::Sign),
        (DeclWord::TreeCode, CType::CodeRef) => Some(CType::CodeRef),
        _ => None,
    }
}

/// What stands before a flag.
fn taken_by(operation: Arithmetic) -> Arguments
    ensures { result ≡ types.taken_by operation }
{
    match operation {
        Arithmetic::Negate => Arguments::Word,
        Arithmetic::Add | Arithmetic::Subtract | Arithmetic::Multiply => {
            Arguments::TwoWordsAndSign
        }
    }
}

/// Whether this is an overflow flag that the block declared before.
fn is_flag(source: &[u8], block: &[Typed], name: &[u8]) -> bool
    ensures { result ≡ types.is_flag (types.last_typed source.now block.now name.now) }
{
    match last_typed(source, block, name) {
        Some(one) => one.flag,
        None => false,
    }
}

/// The type of a call with a flag.
pub(crate) fn flagged_type(
    source: &[u8],
    block: &[Typed],
    operation: Arithmetic,
    flag: &[u8],
    args: &[CType],
) -> Option<CType>
    ensures { result ≡ types.flagged_type source.now block.now operation flag.now args.now }
{
    if fit(taken_by(operation), args) && is_flag(source, block, flag) {
        Some(CType::WideRef)
    } else {
        None
    }
}
