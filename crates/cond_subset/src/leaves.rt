//! What a number, a capture and a name stand for.

ghost use Rattle.std.specs.Prelude.{◌≡◌, IfOk};
ghost use Rattle.cond_subset.specs.Leaves as leaves;

use crate::names::{is_choice, is_truth};
use crate::scope::{Scope, Typed};
use crate::types::{type_in_block, type_of_local};
use pd_ast::{CExpr, CNode, CType};
use pd_lexer::number_value;
use pm_ops::{Code, OutOfMemory, Text};
use std::alloc::Global;

/// The number of a token; 2^63 - 1 for one above it, which is no token.
pub(crate) fn number_of(text: &[u8]) -> i64
    ensures { result ≡ leaves.number_of text.now }
{
    match number_value(text) {
        Some(number) => i64::try_from(number).unwrap_or(i64::MAX),
        None => i64::MAX,
    }
}

/// The name of a capture, without its `@`.
pub(crate) fn capture_name(text: &[u8]) -> &[u8]
    ensures { result.now ≡ leaves.capture_name text.now }
{
    match text {
        [_, name @ ..] => name,
        [] => text,
    }
}

/// Whether this is `true` or `GIMPLE`.
fn is_true(name: &[u8]) -> bool
    ensures { result ≡ leaves.is_true name.now }
{
    name == b"true".as_slice() || name == b"GIMPLE".as_slice()
}

/// A truth value or a sign.
fn constant_meaning(name: &[u8]) -> CExpr
    ensures { result ≡ leaves.constant_meaning name.now }
{
    if is_truth(name) {
        CExpr {
            node: CNode::Truth(is_true(name)),
            ty: CType::Truth,
        }
    } else {
        CExpr {
            node: CNode::Sign(name == b"UNSIGNED".as_slice()),
            ty: CType::Sign,
        }
    }
}

/// An identifier of a `for`, the C name of an operation, or a word of the language.
fn word_meaning(alloc: Global, scope: &Scope, name: &[u8]) -> Result<CExpr, OutOfMemory>
    ensures { IfOk result (λ e. e ≡ leaves.word_meaning scope.now name.now) }
{
    if is_choice(scope.choices.as_slice(), name) {
        return Ok(CExpr {
            node: CNode::Choice(Text::new(alloc, name)?),
            ty: CType::CodeRef,
        });
    }
    match Code::from_c_name(name) {
        Some(code) => Ok(CExpr {
            node: CNode::OfCode(code),
            ty: CType::CodeRef,
        }),
        None => Ok(constant_meaning(name)),
    }
}

/// A local of this type.
fn local(alloc: Global, name: &[u8], ty: CType) -> Result<CExpr, OutOfMemory>
    ensures { IfOk result (λ e. e ≡ leaves.local name.now ty) }
{
    Ok(CExpr {
        node: CNode::Local(Text::new(alloc, name)?),
        ty,
    })
}

/// The first thing that a name can be.
pub(crate) fn name_meaning(
    alloc: Global,
    source: &[u8],
    scope: &Scope,
    block: &[Typed],
    name: &[u8],
) -> Result<CExpr, OutOfMemory>
    ensures { IfOk result (λ e. e ≡ leaves.name_meaning source.now scope.now block.now name.now) }
{
    if name == b"type".as_slice() {
        return Ok(CExpr {
            node: CNode::SubjectType,
            ty: CType::TypeRef,
        });
    }
    if scope.in_match && name == b"t".as_slice() {
        return Ok(CExpr {
            node: CNode::Subject,
            ty: CType::Oper,
        });
    }
    if let Some(ty) = type_in_block(source, block, name) {
        return local(alloc, name, ty);
    }
    match type_of_local(scope.locals.as_slice(), name) {
        Some(ty) => local(alloc, name, ty),
        None => word_meaning(alloc, scope, name),
    }
}
