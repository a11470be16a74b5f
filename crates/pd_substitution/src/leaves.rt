//! Leaves of trees with a substitution made. A call `.._anew` gives none where what it is asked
//! about stays as it is.
ghost use Rattle.std.specs.Prelude.{◌≡◌, option_map, unwrap_or, IfOk};
ghost use Rattle.pd_substitution.specs.Chosen.{behind, cap_with, choice_with, name_with};
ghost use Rattle.pd_substitution.specs.Chosen.{capture_type, subject_type_with, subject_with};
ghost use Rattle.pd_substitution.specs.Chosen.{c_of};
ghost use Rattle.pd_ast.specs.declared.c_text.CNode.TheVariants as nodes;

use crate::substitution::{Entry, Substitution, entry_of, mark_of, renaming};
use pd_ast::{CExpr, CNode, CType, Call, Cap, OpRef};
use pm_items::Items;
use pm_ops::{OutOfMemory, Text};
use std::alloc::Global;

/// The operator made anew, or else a copy of this one.
pub fn or_same_op(alloc: Global, anew: Option<OpRef>, op: &OpRef) -> Result<OpRef, OutOfMemory>
    ensures { IfOk result (λ made. made ≡ unwrap_or anew op.now) }
{
    match anew {
        Some(anew) => Ok(anew),
        None => op.copy(alloc),
    }
}

/// The name of a capture with the substitution made.
pub fn name_with(alloc: Global, by: &Substitution, name: &Text) -> Result<Text, OutOfMemory>
    ensures { IfOk result (λ made. made ≡ name_with by.now name.now) }
{
    match name_anew(alloc, by, name)? {
        Some(name) => Ok(name),
        None => name.copy(alloc),
    }
}

/// A capture with the substitution made.
pub fn cap_with(alloc: Global, by: &Substitution, cap: &Cap) -> Result<Cap, OutOfMemory>
    ensures { IfOk result (λ made. made ≡ cap_with by.now cap.now) }
{
    match cap_anew(alloc, by, cap)? {
        Some(cap) => Ok(cap),
        None => cap.copy(alloc),
    }
}

/// The name of a capture.
pub fn name_anew(alloc: Global, by: &Substitution, name: &Text) -> Result<Option<Text>, OutOfMemory>
    ensures { IfOk result (λ made. unwrap_or made name.now ≡ name_with by.now name.now) }
{
    match renaming(by.captures.as_slice(), name) {
        Some(one) => Ok(Some(one.to.copy(alloc)?)),
        None => behind_anew(alloc, &by.prefix, name),
    }
}

/// A name behind what is put before it.
fn behind_anew(
    alloc: Global,
    prefix: &Option<Text>,
    name: &Text,
) -> Result<Option<Text>, OutOfMemory>
    ensures { IfOk result (λ made. unwrap_or made name.now ≡ behind prefix.now name.now) }
{
    match prefix {
        Some(prefix) => {
            let mut bytes: Items<u8> = Items::from_slice(alloc, prefix.bytes())?;
            bytes.extend_from_slice(name.bytes())?;
            Ok(Some(Text::new(alloc, bytes.as_slice())?))
        }
        None => Ok(None),
    }
}

/// A capture.
pub fn cap_anew(alloc: Global, by: &Substitution, cap: &Cap) -> Result<Option<Cap>, OutOfMemory>
    ensures { IfOk result (λ made. unwrap_or made cap.now ≡ cap_with by.now cap.now) }
{
    match renaming(by.captures.as_slice(), &cap.name) {
        Some(one) => Ok(Some(Cap {
            name: one.to.copy(alloc)?,
            by_value: mark_of(one.by_value, cap.by_value),
        })),
        None => match behind_anew(alloc, &by.prefix, &cap.name)? {
            Some(name) => Ok(Some(Cap {
                name,
                by_value: cap.by_value,
            })),
            None => Ok(None),
        },
    }
}

/// A capture that may be absent.
pub fn maybe_cap_anew(
    alloc: Global,
    by: &Substitution,
    cap: &Option<Cap>,
) -> Result<Option<Option<Cap>>, OutOfMemory>
    ensures { IfOk result (λ made. unwrap_or made cap.now ≡ option_map (cap_with by.now) cap.now) }
{
    match cap {
        Some(cap) => match cap_anew(alloc, by, cap)? {
            Some(cap) => Ok(Some(Some(cap))),
            None => Ok(None),
        },
        None => Ok(None),
    }
}

/// An identifier of a `for` in C text: the code of the operation.
pub fn choice_anew(by: &Substitution, name: &Text) -> Option<CNode>
    ensures { unwrap_or result (nodes.Choice name.now) ≡ choice_with by.now name.now }
{
    c_of(entry_of(by, name))
}

fn c_of(entry: Option<Entry>) -> Option<CNode>
    ensures { result ≡ c_of entry }
{
    match entry {
        Some(Entry::Of(code)) => Some(CNode::OfCode(code)),
        Some(Entry::Null) | None => None,
    }
}

/// A capture in C text.
pub fn capture_anew(
    alloc: Global,
    by: &Substitution,
    name: &Text,
) -> Result<Option<CNode>, OutOfMemory>
    ensures { IfOk result (λ made.
        unwrap_or made (nodes.Capture name.now) ≡ nodes.Capture (name_with by.now name.now)) }
{
    match name_anew(alloc, by, name)? {
        Some(name) => Ok(Some(CNode::Capture(name))),
        None => Ok(None),
    }
}

/// `t`.
pub fn subject_anew(alloc: Global, by: &Substitution) -> Result<Option<CNode>, OutOfMemory>
    ensures { IfOk result (λ made. unwrap_or made nodes.Subject ≡ subject_with by.now.subject) }
{
    match &by.subject {
        Some(name) => Ok(Some(CNode::Capture(name.copy(alloc)?))),
        None => Ok(None),
    }
}

/// `type`.
pub fn subject_type_anew(alloc: Global, by: &Substitution) -> Result<Option<CNode>, OutOfMemory>
    ensures { IfOk result (λ made. unwrap_or made nodes.SubjectType ≡ subject_type_with by.now.subject) }
{
    match &by.subject {
        Some(name) => Ok(Some(capture_type(alloc, name)?)),
        None => Ok(None),
    }
}

/// The type of a capture.
fn capture_type(alloc: Global, name: &Text) -> Result<CNode, OutOfMemory>
    ensures { IfOk result (λ made. made ≡ capture_type name.now) }
{
    let mut args = Items::new(alloc);
    args.push(CExpr {
        node: CNode::Capture(name.copy(alloc)?),
        ty: CType::Oper,
    })?;
    let call = Text::new(alloc, Call::TreeType.name().as_bytes())?;
    Ok(CNode::Call(call, args))
}
