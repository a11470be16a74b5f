//! Patterns: operations on patterns, predicates and captures.
ghost use Rattle.std.specs.Prelude.{◌≡◌, ◌↔◌, IfOk, IsTrue};

use crate::same_text::same_text;
use pm_items::{Items, Shared};
use pm_ops::{Code, OutOfMemory, Pred, Text};
use std::alloc::Global;

/// A pattern.
#[cycle(pattern)]
#[derive(Debug, Drop)]
pub enum Pat {
    /// A capture alone, which stands for any operand.
    Hole(Cap),
    /// A predicate on an operand, and its capture.
    Test(Pred, Option<Cap>),
    /// A use of a predicate that the file defines, its arguments and its capture.
    Call(Text, Items<Shared<Pat>>, Option<Cap>),
    /// An operation on patterns.
    Node(PatNode),
}

/// An operation on patterns, with its place in the source.
#[cycle(pattern)]
#[derive(Debug, Drop)]
pub struct PatNode {
    pub op: OpRef,
    pub flags: Flags,
    pub cap: Option<Cap>,
    pub args: Items<Shared<Pat>>,
    /// Where the operator stands.
    pub at: usize,
    /// How many bytes its name has there, which may be an identifier of a `for`.
    pub len: usize,
}

/// A capture, by its name without `@`.
#[derive(Debug, Drop)]
pub struct Cap {
    pub name: Text,
    /// Whether it is written with `@@`, so that constants are the same by their number alone.
    pub by_value: bool,
}

/// An operator as it stands in a pattern or a result.
#[derive(Debug, Drop)]
pub enum OpRef {
    Fixed(Code),
    /// An identifier of a `for`.
    Chosen(Text),
    /// A list of operators.
    Listed(Text),
    /// The entry `null`, which leaves its row out.
    Null,
}

/// The flags of an operation.
#[derive(Clone, Copy, Debug, PartialEq, Eq)]
pub struct Flags {
    pub commute: Commute,
    /// `s`: the operation is used once.
    pub single: bool,
    /// The group of an operation marked `?`.
    pub optional: Option<u8>,
}

/// Whether the operands are tried in both orders: not, by `c` where the operation commutes or
/// compares, or by `C` whatever it is.
#[derive(Clone, Copy, Debug, PartialEq, Eq)]
pub enum Commute {
    No,
    Checked,
    Forced,
}

impl Cap {
    /// A copy that shares nothing with this capture.
    pub fn copy(&self, alloc: Global) -> Result<Cap, OutOfMemory>
        ensures { IfOk result (λ c. c ≡ self.now) }
    {
        Ok(Cap {
            name: self.name.copy(alloc)?,
            by_value: self.by_value,
        })
    }

    /// Whether two captures are one and the same.
    pub fn same(&self, other: &Cap) -> bool
        ensures { IsTrue result ↔ (self.now ≡ other.now) }
    {
        self.by_value == other.by_value && same_text(&self.name, &other.name)
    }
}

impl OpRef {
    /// A copy that shares nothing with this operator.
    pub fn copy(&self, alloc: Global) -> Result<OpRef, OutOfMemory>
        ensures { IfOk result (λ o. o ≡ self.now) }
    {
        match self {
            OpRef::Fixed(code) => Ok(OpRef::Fixed(*code)),
            OpRef::Chosen(name) => Ok(OpRef::Chosen(name.copy(alloc)?)),
            OpRef::Listed(name) => Ok(OpRef::Listed(name.copy(alloc)?)),
            OpRef::Null => Ok(OpRef::Null),
        }
    }

    /// Whether two operators are one and the same.
    pub fn same(&self, other: &OpRef) -> bool
        ensures { IsTrue result ↔ (self.now ≡ other.now) }
    {
        match (self, other) {
            (OpRef::Fixed(a), OpRef::Fixed(b)) => *a == *b,
            (OpRef::Chosen(a), OpRef::Chosen(b)) => same_text(a, b),
            (OpRef::Listed(a), OpRef::Listed(b)) => same_text(a, b),
            (OpRef::Null, OpRef::Null) => true,
            _ => false,
        }
    }
}

impl Pat {
    /// An equal pattern, which shares the patterns inside this one.
    pub fn copy(&self, alloc: Global) -> Result<Pat, OutOfMemory>
        ensures { IfOk result (λ p. p ≡ self.now) }
    {
        match self {
            Pat::Hole(cap) => Ok(Pat::Hole(cap.copy(alloc)?)),
            Pat::Test(pred, cap) => Ok(Pat::Test(*pred, copied_cap(alloc, cap)?)),
            Pat::Call(name, args, cap) => {
                let args = shared_patterns(alloc, args.as_slice())?;
                Ok(Pat::Call(name.copy(alloc)?, args, copied_cap(alloc, cap)?))
            }
            Pat::Node(node) => Ok(Pat::Node(node.copy(alloc)?)),
        }
    }

    /// Whether two patterns are one and the same.
    #[cycle(same)]
    pub fn same(&self, other: &Pat) -> bool
        ensures { IsTrue result ↔ (self.now ≡ other.now) }
    {
        match (self, other) {
            (Pat::Hole(a), Pat::Hole(b)) => a.same(b),
            (Pat::Test(p, a), Pat::Test(q, b)) => *p == *q && same_cap(a, b),
            (Pat::Call(f, xs, a), Pat::Call(g, ys, b)) => {
                same_text(f, g) && same_cap(a, b) && same_patterns(xs.as_slice(), ys.as_slice())
            }
            (Pat::Node(a), Pat::Node(b)) => a.same(b),
            _ => false,
        }
    }
}

impl PatNode {
    /// An equal operation, which shares its operands.
    pub fn copy(&self, alloc: Global) -> Result<PatNode, OutOfMemory>
        ensures { IfOk result (λ n. n ≡ self.now) }
    {
        Ok(PatNode {
            op: self.op.copy(alloc)?,
            flags: self.flags,
            cap: copied_cap(alloc, &self.cap)?,
            args: shared_patterns(alloc, self.args.as_slice())?,
            at: self.at,
            len: self.len,
        })
    }

    /// Whether two operations are one and the same, and at one place.
    #[cycle(same)]
    pub fn same(&self, other: &PatNode) -> bool
        ensures { IsTrue result ↔ (self.now ≡ other.now) }
    {
        self.at == other.at
            && self.len == other.len
            && self.flags == other.flags
            && self.op.same(&other.op)
            && same_cap(&self.cap, &other.cap)
            && same_patterns(self.args.as_slice(), other.args.as_slice())
    }
}

/// A copy of a capture that may be absent.
fn copied_cap(alloc: Global, cap: &Option<Cap>) -> Result<Option<Cap>, OutOfMemory>
    ensures { IfOk result (λ c. c ≡ cap.now) }
{
    match cap {
        Some(cap) => Ok(Some(cap.copy(alloc)?)),
        None => Ok(None),
    }
}

/// Whether two captures that may be absent are one and the same.
fn same_cap(a: &Option<Cap>, b: &Option<Cap>) -> bool
    ensures { IsTrue result ↔ (a.now ≡ b.now) }
{
    match (a, b) {
        (Some(a), Some(b)) => a.same(b),
        (None, None) => true,
        _ => false,
    }
}

/// The same patterns, shared.
fn shared_patterns(
    alloc: Global,
    patterns: &[Shared<Pat>],
) -> Result<Items<Shared<Pat>>, OutOfMemory>
    ensures { IfOk result (λ made. made ≡ patterns.now) }
{
    let mut made = Items::new(alloc);
    for pattern in patterns {
        made.push(pattern.share()?)?;
    }
    Ok(made)
}

#[cycle(same)]
fn same_patterns(a: &[Shared<Pat>], b: &[Shared<Pat>]) -> bool
    ensures { IsTrue result ↔ (a.now ≡ b.now) }
{
    if a.len() != b.len() {
        return false;
    }
    for i in 0..a.len() {
        if !a[i].get().same(b[i].get()) {
            return false;
        }
    }
    true
}
