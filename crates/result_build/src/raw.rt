//! The raw results of rows.
ghost use Rattle.std.specs.Prelude.{◌≡◌, ◌^◌, ◌-◌, min, IfOk, IsErrOf, None, Some};
ghost use Rattle.pm_term.specs.Trees.{operations};
ghost use Rattle.cond_eval.specs.Environments.{AreValues};
ghost use Rattle.result_types.specs.Drafts.{shape_of};
ghost use Rattle.result_build.specs.RawResults.{body_of, operand_in, raw_of, raw_of_typed};
ghost use Rattle.result_build.specs.RawResults.{raw_result};

use crate::given::draft_of_result;
use crate::marks::list_marks;
use crate::outermost::outermost;
use crate::typed::term_of;
use cond_eval::CEnv;
use either::{Either, Left, Right};
use pattern_rows::{Caps, Place};
use pd_ast::{Out, Row};
use pm_items::Items;
use pm_ops::OutOfMemory;
use pm_term::{Term, Typed};
use pm_wide::{IntType, Operand};
use result_types::Draft;
use std::alloc::Global;
use thiserror::Error;

/// What a row puts in the place of what it matches, before it is settled.
#[derive(Debug, Drop)]
pub struct Raw {
    /// An operand, or an operation on terms.
    pub body: Either<Operand, Typed>,
    /// The places in the term of the operations that must fold, in preorder.
    pub marked: Items<Place>,
}

/// Why there is no raw result.
#[derive(Clone, Copy, Debug, PartialEq, Eq, Error)]
pub enum RawFault {
    #[error("the row gives no result")]
    NoResult,
    #[error("out of memory")]
    Memory,
}

/// The raw result of a row whose captures stand in these slots. The environment has the same captures
/// in the order of the row's holes, and the subject's type as `type`.
///
/// There is none where a condition that is reached has no value or is false with no other part,
/// where an operand in braces or a declaration has no value, and where the chosen leaf isn't well
/// typed.
pub fn build_raw(alloc: Global, row: &Row, caps: &Caps, env: &CEnv) -> Result<Raw, RawFault>
    requires { AreValues env.now.locals }
    ensures made { IfOk result (λ raw. raw_result row.now.result caps.now env.now ≡ Some raw) }
    ensures none { IsErrOf result RawFault.NoResult →
        raw_result row.now.result caps.now env.now ≡ None }
{
    match result_of(alloc, row.result.get(), caps, env) {
        Ok(Some(raw)) => Ok(raw),
        Ok(None) => Err(RawFault::NoResult),
        Err(_) => Err(RawFault::Memory),
    }
}

/// How many operations a term has, conversions too. Takes no memory.
pub fn operators(term: &Typed) -> usize
    ensures { result ≡ min (operations term.now) (2 ^ 64 - 1) }
{
    term.operators()
}

/// The raw result of a result, or nothing.
fn result_of(alloc: Global, out: &Out, caps: &Caps, env: &CEnv) -> Result<Option<Raw>, OutOfMemory>
    requires { AreValues env.now.locals }
    ensures { IfOk result (λ made. made ≡ raw_result out.now caps.now env.now) }
{
    match draft_of_result(alloc, out, caps, env)? {
        Some(draft) => raw_of_draft(alloc, draft, env.ty),
        None => Ok(None),
    }
}

/// The raw result of a draft, for a subject of that type.
fn raw_of_draft(alloc: Global, draft: Draft, ty: IntType) -> Result<Option<Raw>, OutOfMemory>
    ensures { IfOk result (λ made. made ≡ raw_of ty (shape_of draft)) }
{
    match outermost(draft, ty) {
        Some(draft) => raw_of_outermost(alloc, &draft),
        None => Ok(None),
    }
}

/// The raw result of a draft whose outermost operation has its type.
fn raw_of_outermost(alloc: Global, draft: &Draft) -> Result<Option<Raw>, OutOfMemory>
    ensures { IfOk result (λ made. made ≡ raw_of_typed (shape_of draft.now)) }
{
    let Some(term) = term_of(alloc, draft, None)? else {
        return Ok(None);
    };
    let outermost = Place {
        steps: Items::new(alloc),
    };
    let mut marked = Items::new(alloc);
    list_marks(alloc, draft, None, &outermost, &mut marked)?;
    Ok(Some(Raw {
        body: body(term),
        marked,
    }))
}

/// A term without operations as an operand.
fn body(term: Typed) -> Either<Operand, Typed>
    ensures { result ≡ body_of term }
{
    match operand_of(&term) {
        Some(operand) => Left(operand),
        None => Right(term),
    }
}

/// The operand that a term is.
fn operand_of(term: &Typed) -> Option<Operand>
    ensures { result ≡ operand_in term.now }
{
    match term.term() {
        Term::Name(version, ty) => Some(Operand::Name(*version, *ty)),
        Term::Const(word) => Some(Operand::Const(*word)),
        Term::Node(_, _, _) => None,
    }
}
