//! Atoms, and whether two are one.
ghost use Rattle.std.specs.Prelude.{◌≡◌, ◌↔◌, IsTrue};

use crate::form::{Form, Part};
use pm_items::Items;
use pm_ops::Code;
use pm_wide::IntType;

/// An operand of an atom, by its type and its form.
#[derive(Debug, PartialEq, Eq, Drop)]
pub(crate) struct AtomOperand {
    pub ty: IntType,
    pub form: Form,
}

/// A name, or an operation that no form goes into.
#[derive(Debug, PartialEq, Eq, Drop)]
pub(crate) enum Atom {
    Name(u32, IntType),
    Operation(Code, IntType, Items<AtomOperand>),
}

/// Whether two atoms are one.
pub(crate) fn is_same(a: &Atom, b: &Atom) -> bool
    ensures { IsTrue result ↔ (a.now ≡ b.now) }
{
    match (a, b) {
        (Atom::Name(v, s), Atom::Name(w, t)) => *v == *w && *s == *t,
        (Atom::Operation(c, s, xs), Atom::Operation(d, t, ys)) => is_same_operation(*c, *s, *d, *t)
            && are_same_operands(xs.as_slice(), ys.as_slice()),
        _ => false,
    }
}

/// Whether two operations have one code and one type.
fn is_same_operation(c: Code, s: IntType, d: Code, t: IntType) -> bool
    ensures { IsTrue result ↔ ((c ≡ d) × (s ≡ t)) }
{
    c == d && s == t
}

/// Whether operands are the same, one by one.
fn are_same_operands(a: &[AtomOperand], b: &[AtomOperand]) -> bool
    ensures { IsTrue result ↔ (a.now ≡ b.now) }
{
    if a.len() != b.len() {
        return false;
    }
    for i in 0..a.len() {
        if a[i].ty != b[i].ty || !is_same_form(a[i].form.as_slice(), b[i].form.as_slice()) {
            return false;
        }
    }
    true
}

/// Whether two forms are one.
pub(crate) fn is_same_form(a: &[Part], b: &[Part]) -> bool
    ensures { IsTrue result ↔ (a.now ≡ b.now) }
{
    if a.len() != b.len() {
        return false;
    }
    for i in 0..a.len() {
        if !is_same_part(&a[i], &b[i]) {
            return false;
        }
    }
    true
}

/// Whether two parts are one.
#[tactic(auto, using(crate::proofs::FormLemmas::same_numbers, crate::proofs::FormLemmas::numbers_same))]
fn is_same_part(a: &Part, b: &Part) -> bool
    ensures { IsTrue result ↔ (a.now ≡ b.now) }
{
    a.coefficient == b.coefficient && a.atoms.as_slice() == b.atoms.as_slice()
}
