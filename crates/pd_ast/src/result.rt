//! Results of patterns, and the ends of cases of predicates.
ghost use Rattle.std.specs.Prelude.{◌≡◌, ◌↔◌, IfOk, IsTrue};

use crate::c_text::{CDecl, CExpr};
use crate::pattern::OpRef;
use crate::same_text::{same_name, same_text};
use pm_items::{Items, Shared};
use pm_ops::{OutOfMemory, Text};
use std::alloc::Global;

/// A result: a leaf, or a choice of leaves.
#[cycle(result)]
#[derive(Debug, Drop)]
pub enum Out {
    /// A capture, by its name.
    Hole(Text),
    /// An operand as C text in braces.
    Brace(CExpr),
    /// An operation on leaves.
    Node(OutNode),
    /// `(if (C) A B)`, where B may be absent.
    If(CExpr, Shared<Out>, Option<Shared<Out>>),
    /// `(switch (if (C) A).. D)`, where D may be absent.
    Switch(Items<SwitchCase>, Option<Shared<Out>>),
    /// `(with { DECLARATIONS } R)`.
    With(Items<CDecl>, Shared<Out>),
}

/// A case of a `switch`: where the condition is true, the result is `gives`.
#[cycle(result)]
#[derive(Debug, Drop)]
pub struct SwitchCase {
    pub when: CExpr,
    pub gives: Shared<Out>,
}

/// An operation of a result.
#[cycle(result)]
#[derive(Debug, Drop)]
pub struct OutNode {
    pub op: OpRef,
    /// `!`: what it gives must be an operand.
    pub must_fold: bool,
    /// The name of the type after `:`.
    pub ty: Option<Text>,
    pub args: Items<Shared<Out>>,
}

/// The end of a case of a predicate: conditions and declarations.
#[derive(Debug, Drop)]
pub enum Tail {
    Done,
    If(CExpr, Shared<Tail>),
    With(Items<CDecl>, Shared<Tail>),
}

impl Out {
    /// An equal result, which shares the results inside this one.
    pub fn copy(&self, alloc: Global) -> Result<Out, OutOfMemory>
        ensures { IfOk result (λ o. o ≡ self.now) }
    {
        match self {
            Out::Hole(name) => Ok(Out::Hole(name.copy(alloc)?)),
            Out::Brace(expr) => Ok(Out::Brace(expr.copy(alloc)?)),
            Out::Node(node) => Ok(Out::Node(node.copy(alloc)?)),
            Out::If(when, gives, otherwise) => {
                let when = when.copy(alloc)?;
                Ok(Out::If(when, gives.share()?, shared_result(otherwise)?))
            }
            Out::Switch(cases, otherwise) => {
                let cases = copied_cases(alloc, cases.as_slice())?;
                Ok(Out::Switch(cases, shared_result(otherwise)?))
            }
            Out::With(decls, gives) => {
                let decls = copied_decls(alloc, decls.as_slice())?;
                Ok(Out::With(decls, gives.share()?))
            }
        }
    }

    /// Whether two results are one and the same.
    #[cycle(same)]
    pub fn same(&self, other: &Out) -> bool
        ensures { IsTrue result ↔ (self.now ≡ other.now) }
    {
        match (self, other) {
            (Out::Hole(a), Out::Hole(b)) => same_text(a, b),
            (Out::Brace(a), Out::Brace(b)) => a.same(b),
            (Out::Node(a), Out::Node(b)) => a.same(b),
            (Out::If(a, x, s), Out::If(b, y, t)) => {
                a.same(b) && x.get().same(y.get()) && same_result(s, t)
            }
            (Out::Switch(xs, s), Out::Switch(ys, t)) => {
                same_cases(xs.as_slice(), ys.as_slice()) && same_result(s, t)
            }
            (Out::With(a, x), Out::With(b, y)) => {
                same_decls(a.as_slice(), b.as_slice()) && x.get().same(y.get())
            }
            _ => false,
        }
    }
}

impl SwitchCase {
    /// Whether two cases are one and the same.
    #[cycle(same)]
    pub fn same(&self, other: &SwitchCase) -> bool
        ensures { IsTrue result ↔ (self.now ≡ other.now) }
    {
        self.when.same(&other.when) && self.gives.get().same(other.gives.get())
    }
}

impl OutNode {
    /// An equal operation, which shares its operands.
    pub fn copy(&self, alloc: Global) -> Result<OutNode, OutOfMemory>
        ensures { IfOk result (λ n. n ≡ self.now) }
    {
        let ty = match &self.ty {
            Some(name) => Some(name.copy(alloc)?),
            None => None,
        };
        Ok(OutNode {
            op: self.op.copy(alloc)?,
            must_fold: self.must_fold,
            ty,
            args: shared_results(alloc, self.args.as_slice())?,
        })
    }

    /// Whether two operations are one and the same.
    #[cycle(same)]
    pub fn same(&self, other: &OutNode) -> bool
        ensures { IsTrue result ↔ (self.now ≡ other.now) }
    {
        self.must_fold == other.must_fold
            && self.op.same(&other.op)
            && same_name(&self.ty, &other.ty)
            && same_results(self.args.as_slice(), other.args.as_slice())
    }
}

impl Tail {
    /// An equal end, which shares what follows.
    pub fn copy(&self, alloc: Global) -> Result<Tail, OutOfMemory>
        ensures { IfOk result (λ t. t ≡ self.now) }
    {
        match self {
            Tail::Done => Ok(Tail::Done),
            Tail::If(when, rest) => Ok(Tail::If(when.copy(alloc)?, rest.share()?)),
            Tail::With(decls, rest) => {
                let decls = copied_decls(alloc, decls.as_slice())?;
                Ok(Tail::With(decls, rest.share()?))
            }
        }
    }

    /// Whether two ends are one and the same.
    pub fn same(&self, other: &Tail) -> bool
        ensures { IsTrue result ↔ (self.now ≡ other.now) }
    {
        match (self, other) {
            (Tail::Done, Tail::Done) => true,
            (Tail::If(a, x), Tail::If(b, y)) => a.same(b) && x.get().same(y.get()),
            (Tail::With(a, x), Tail::With(b, y)) => {
                same_decls(a.as_slice(), b.as_slice()) && x.get().same(y.get())
            }
            _ => false,
        }
    }
}

/// The same result, shared, if there is one.
fn shared_result(gives: &Option<Shared<Out>>) -> Result<Option<Shared<Out>>, OutOfMemory>
    ensures { IfOk result (λ o. o ≡ gives.now) }
{
    match gives {
        Some(gives) => Ok(Some(gives.share()?)),
        None => Ok(None),
    }
}

/// The same results, shared.
fn shared_results(alloc: Global, results: &[Shared<Out>]) -> Result<Items<Shared<Out>>, OutOfMemory>
    ensures { IfOk result (λ made. made ≡ results.now) }
{
    let mut made = Items::new(alloc);
    for gives in results {
        made.push(gives.share()?)?;
    }
    Ok(made)
}

/// Equal cases, with their results shared.
fn copied_cases(alloc: Global, cases: &[SwitchCase]) -> Result<Items<SwitchCase>, OutOfMemory>
    ensures { IfOk result (λ made. made ≡ cases.now) }
{
    let mut made = Items::new(alloc);
    for case in cases {
        made.push(SwitchCase {
            when: case.when.copy(alloc)?,
            gives: case.gives.share()?,
        })?;
    }
    Ok(made)
}

/// Equal declarations.
fn copied_decls(alloc: Global, decls: &[CDecl]) -> Result<Items<CDecl>, OutOfMemory>
    ensures { IfOk result (λ made. made ≡ decls.now) }
{
    let mut made = Items::new(alloc);
    for decl in decls {
        made.push(decl.copy(alloc)?)?;
    }
    Ok(made)
}

/// Whether two results that may be absent are one and the same.
#[cycle(same)]
fn same_result(a: &Option<Shared<Out>>, b: &Option<Shared<Out>>) -> bool
    ensures { IsTrue result ↔ (a.now ≡ b.now) }
{
    match (a, b) {
        (Some(a), Some(b)) => a.get().same(b.get()),
        (None, None) => true,
        _ => false,
    }
}

#[cycle(same)]
fn same_results(a: &[Shared<Out>], b: &[Shared<Out>]) -> bool
    ensures { IsTrue result ↔ (a.now ≡ b.now) }
{
    if a.len() != b.len() {
        return false;
    }
    for i in 0..a.len() {
        if !a[i].get().same(b[i].get()) {
            return false;
        }
    }
    true
}

#[cycle(same)]
fn same_cases(a: &[SwitchCase], b: &[SwitchCase]) -> bool
    ensures { IsTrue result ↔ (a.now ≡ b.now) }
{
    if a.len() != b.len() {
        return false;
    }
    for i in 0..a.len() {
        if !a[i].same(&b[i]) {
            return false;
        }
    }
    true
}

/// Whether two lists of declarations are one and the same.
fn same_decls(a: &[CDecl], b: &[CDecl]) -> bool
    ensures { IsTrue result ↔ (a.now ≡ b.now) }
{
    if a.len() != b.len() {
        return false;
    }
    for i in 0..a.len() {
        if !a[i].same(&b[i]) {
            return false;
        }
    }
    true
}
