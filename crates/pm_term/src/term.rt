//! Terms, and their equality and copies.
ghost use Rattle.std.specs.Prelude.{◌≡◌, ◌↔◌, IfOk, IsTrue};

use pm_items::Items;
use pm_ops::{Code, OutOfMemory};
use pm_wide::{IntType, Wide};
use std::alloc::Global;

/// A name by its version, with its type; a constant; or an operation on terms, with the type of its
/// result.
#[derive(Debug, PartialEq, Eq, Drop)]
pub enum Term {
    Name(u32, IntType),
    Const(Wide),
    Node(Code, IntType, Items<Term>),
}

impl Term {
    /// A copy that shares nothing with this term.
    #[cycle(copy)]
    pub fn copy(&self, alloc: Global) -> Result<Term, OutOfMemory>
        ensures { IfOk result (λ t. t ≡ self.now) }
    {
        match self {
            Term::Name(version, ty) => Ok(Term::Name(*version, *ty)),
            Term::Const(word) => Ok(Term::Const(*word)),
            Term::Node(code, ty, args) => {
                let args = copies(alloc, args.as_slice())?;
                Ok(Term::Node(*code, *ty, args))
            }
        }
    }

    /// Whether two terms are one and the same: equal codes, types, versions and words everywhere.
    #[cycle(same)]
    pub fn same(&self, other: &Term) -> bool
        ensures { IsTrue result ↔ (self.now ≡ other.now) }
    {
        match (self, other) {
            (Term::Name(a, s), Term::Name(b, t)) => *a == *b && *s == *t,
            (Term::Const(a), Term::Const(b)) => *a == *b,
            (Term::Node(a, s, xs), Term::Node(b, t, ys)) => same_operation(*a, *s, *b, *t)
                && same_all(xs.as_slice(), ys.as_slice()),
            _ => false,
        }
    }
}

/// Whether two operations have one code and one type.
fn same_operation(a: Code, s: IntType, b: Code, t: IntType) -> bool
    ensures { IsTrue result ↔ ((a ≡ b) × (s ≡ t)) }
{
    a == b && s == t
}

#[cycle(copy)]
fn copies(alloc: Global, terms: &[Term]) -> Result<Items<Term>, OutOfMemory>
    ensures { IfOk result (λ made. made ≡ terms.now) }
{
    let mut made = Items::new(alloc);
    for term in terms {
        made.push(term.copy(alloc)?)?;
    }
    Ok(made)
}

#[cycle(same)]
fn same_all(a: &[Term], b: &[Term]) -> bool
    ensures { IsTrue result ↔ (a.now ≡ b.now) }
{
    if a.len() != b.len() {
        return false;
    }
    for i in 0..a.len() {
        if !a[i].same(&b[i]) {
            return false;
        }
    }
    true
}
