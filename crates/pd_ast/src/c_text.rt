//! The C text of a pattern file: expressions with their static types, and declarations.
ghost use Rattle.std.specs.Prelude.{◌≡◌, ◌↔◌, IfOk, IsTrue};

use crate::same_text::{same_name, same_text};
use pm_items::{Boxed, Items};
use pm_ops::{Code, OutOfMemory, Text};
use std::alloc::Global;

/// The static type of an expression.
#[derive(Clone, Copy, Debug, PartialEq, Eq)]
pub enum CType {
    /// A truth value.
    Truth,
    /// A whole number from -2^63 to 2^63 - 1.
    Int,
    /// An integer type.
    TypeRef,
    /// An operand: a name or a constant.
    Oper,
    /// A word of some precision.
    WideRef,
    /// Signed or unsigned.
    Sign,
    /// The code of an operation.
    CodeRef,
}

/// An expression with its static type. Parentheses leave no trace.
#[cycle(c_text)]
#[derive(Debug, Drop)]
pub struct CExpr {
    pub node: CNode,
    pub ty: CType,
}

/// What an expression is. An operator or a call is named as it is spelled, with `wi::`.
#[cycle(c_text)]
#[derive(Debug, Drop)]
pub enum CNode {
    Number(i64),
    Truth(bool),
    /// `UNSIGNED` where true, else `SIGNED`.
    Sign(bool),
    /// The C name of an operation.
    OfCode(Code),
    /// An identifier of a `for`.
    Choice(Text),
    Local(Text),
    /// A capture, by its name without `@`.
    Capture(Text),
    /// `t`, the operand that a predicate's case is asked about.
    Subject,
    /// `type`, the type of the whole result.
    SubjectType,
    Unary(Text, Boxed<CExpr>),
    Binary(Text, Boxed<CExpr>, Boxed<CExpr>),
    /// `a ? b : c`.
    Choose(Boxed<CExpr>, Boxed<CExpr>, Boxed<CExpr>),
    /// `TREE_CODE (a)` compared: whether by `==`, and whether with `INTEGER_CST`; else by `!=` and
    /// with `SSA_NAME`.
    CodeTest(Boxed<CExpr>, bool, bool),
    Call(Text, Items<CExpr>),
}

/// The word with which a declaration begins.
#[derive(Clone, Copy, Debug, PartialEq, Eq)]
pub enum DeclKind {
    /// `tree`.
    Tree,
    /// `wide_int`.
    WideInt,
    /// `bool`.
    Truth,
    /// `int`.
    Int,
    /// `unsigned`, whose values are as those of `int`.
    Unsigned,
    /// `signop`.
    Sign,
    /// `tree_code`.
    TreeCode,
    /// `wi::overflow_type`.
    Overflow,
}

/// A declaration of a `with` block.
#[derive(Debug, Drop)]
pub struct CDecl {
    pub kind: DeclKind,
    pub name: Text,
    /// The value; none exactly where the kind is `Overflow`.
    pub value: Option<CExpr>,
    /// The name after `&`, where the value is a call with an overflow flag. The call then has the
    /// other arguments alone.
    pub overflow: Option<Text>,
}

impl CExpr {
    /// A copy that shares nothing with this expression.
    #[cycle(copy)]
    pub fn copy(&self, alloc: Global) -> Result<CExpr, OutOfMemory>
        ensures { IfOk result (λ e. e ≡ self.now) }
    {
        Ok(CExpr {
            node: self.node.copy(alloc)?,
            ty: self.ty,
        })
    }

    /// Whether two expressions are one and the same.
    #[cycle(same)]
    pub fn same(&self, other: &CExpr) -> bool
        ensures { IsTrue result ↔ (self.now ≡ other.now) }
    {
        self.ty == other.ty && self.node.same(&other.node)
    }
}

impl CNode {
    /// A copy that shares nothing with this node.
    #[cycle(copy)]
    pub fn copy(&self, alloc: Global) -> Result<CNode, OutOfMemory>
        ensures { IfOk result (λ n. n ≡ self.now) }
    {
        match self {
            CNode::Number(number) => Ok(CNode::Number(*number)),
            CNode::Truth(truth) => Ok(CNode::Truth(*truth)),
            CNode::Sign(unsigned) => Ok(CNode::Sign(*unsigned)),
            CNode::OfCode(code) => Ok(CNode::OfCode(*code)),
            CNode::Choice(name) => Ok(CNode::Choice(name.copy(alloc)?)),
            CNode::Local(name) => Ok(CNode::Local(name.copy(alloc)?)),
            CNode::Capture(name) => Ok(CNode::Capture(name.copy(alloc)?)),
            CNode::Subject => Ok(CNode::Subject),
            CNode::SubjectType => Ok(CNode::SubjectType),
            CNode::Unary(name, a) => {
                let a = Boxed::new(alloc, a.get().copy(alloc)?)?;
                Ok(CNode::Unary(name.copy(alloc)?, a))
            }
            CNode::Binary(name, a, b) => {
                let a = Boxed::new(alloc, a.get().copy(alloc)?)?;
                let b = Boxed::new(alloc, b.get().copy(alloc)?)?;
                Ok(CNode::Binary(name.copy(alloc)?, a, b))
            }
            CNode::Choose(a, b, c) => {
                let a = Boxed::new(alloc, a.get().copy(alloc)?)?;
                let b = Boxed::new(alloc, b.get().copy(alloc)?)?;
                let c = Boxed::new(alloc, c.get().copy(alloc)?)?;
                Ok(CNode::Choose(a, b, c))
            }
            CNode::CodeTest(a, equal, constant) => {
                let a = Boxed::new(alloc, a.get().copy(alloc)?)?;
                Ok(CNode::CodeTest(a, *equal, *constant))
            }
            CNode::Call(name, args) => {
                let args = copies(alloc, args.as_slice())?;
                Ok(CNode::Call(name.copy(alloc)?, args))
            }
        }
    }

    /// Whether two nodes are one and the same.
    #[cycle(same)]
    pub fn same(&self, other: &CNode) -> bool
        ensures { IsTrue result ↔ (self.now ≡ other.now) }
    {
        match (self, other) {
            (CNode::Number(a), CNode::Number(b)) => *a == *b,
            (CNode::Truth(a), CNode::Truth(b)) => *a == *b,
            (CNode::Sign(a), CNode::Sign(b)) => *a == *b,
            (CNode::OfCode(a), CNode::OfCode(b)) => *a == *b,
            (CNode::Choice(a), CNode::Choice(b)) => same_text(a, b),
            (CNode::Local(a), CNode::Local(b)) => same_text(a, b),
            (CNode::Capture(a), CNode::Capture(b)) => same_text(a, b),
            (CNode::Subject, CNode::Subject) => true,
            (CNode::SubjectType, CNode::SubjectType) => true,
            (CNode::Unary(f, a), CNode::Unary(g, b)) => same_text(f, g) && a.get().same(b.get()),
            (CNode::Binary(f, a, b), CNode::Binary(g, c, d)) => {
                same_text(f, g) && a.get().same(c.get()) && b.get().same(d.get())
            }
            (CNode::Choose(a, b, c), CNode::Choose(d, e, f)) => {
                a.get().same(d.get()) && b.get().same(e.get()) && c.get().same(f.get())
            }
            (CNode::CodeTest(a, e, c), CNode::CodeTest(b, f, d)) => {
                *e == *f && *c == *d && a.get().same(b.get())
            }
            (CNode::Call(f, xs), CNode::Call(g, ys)) => {
                same_text(f, g) && same_all(xs.as_slice(), ys.as_slice())
            }
            _ => false,
        }
    }
}

#[cycle(copy)]
fn copies(alloc: Global, exprs: &[CExpr]) -> Result<Items<CExpr>, OutOfMemory>
    ensures { IfOk result (λ made. made ≡ exprs.now) }
{
    let mut made = Items::new(alloc);
    for expr in exprs {
        made.push(expr.copy(alloc)?)?;
    }
    Ok(made)
}

#[cycle(same)]
fn same_all(a: &[CExpr], b: &[CExpr]) -> bool
    ensures { IsTrue result ↔ (a.now ≡ b.now) }
{
    if a.len() != b.len() {
        return false;
    }
    for i in 0..a.len() {
        if !a[i].same(&b[i]) {
            return false;
        }
    }
    true
}

impl CDecl {
    /// A copy that shares nothing with this declaration.
    pub fn copy(&self, alloc: Global) -> Result<CDecl, OutOfMemory>
        ensures { IfOk result (λ d. d ≡ self.now) }
    {
        let value = match &self.value {
            Some(expr) => Some(expr.copy(alloc)?),
            None => None,
        };
        let overflow = match &self.overflow {
            Some(name) => Some(name.copy(alloc)?),
            None => None,
        };
        Ok(CDecl {
            kind: self.kind,
            name: self.name.copy(alloc)?,
            value,
            overflow,
        })
    }

    /// Whether two declarations are one and the same.
    pub fn same(&self, other: &CDecl) -> bool
        ensures { IsTrue result ↔ (self.now ≡ other.now) }
    {
        self.kind == other.kind
            && same_text(&self.name, &other.name)
            && same_value(&self.value, &other.value)
            && same_name(&self.overflow, &other.overflow)
    }
}

/// Whether two expressions that may be absent are one and the same.
fn same_value(a: &Option<CExpr>, b: &Option<CExpr>) -> bool
    ensures { IsTrue result ↔ (a.now ≡ b.now) }
{
    match (a, b) {
        (Some(a), Some(b)) => a.same(b),
        (None, None) => true,
        _ => false,
    }
}
