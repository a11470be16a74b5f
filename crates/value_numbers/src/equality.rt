//! Equality of right sides, operand by operand.
ghost use Rattle.std.specs.Prelude.{◌≡◌, ◌↔◌, IsTrue};

use gim_ast::Rhs;
use pm_wide::Operand;

/// Whether two operands are one name, or one constant.
fn same_operand(a: &Operand, b: &Operand) -> bool
    ensures { IsTrue result ↔ (a.now ≡ b.now) }
{
    match (a, b) {
        (Operand::Name(x, t), Operand::Name(y, u)) => *x == *y && *t == *u,
        (Operand::Const(v), Operand::Const(w)) => *v == *w,
        _ => false,
    }
}

/// Whether two lists of operands are the same.
fn same_operands(a: &[Operand], b: &[Operand]) -> bool
    ensures { IsTrue result ↔ (a.now ≡ b.now) }
{
    if a.len() != b.len() {
        return false;
    }
    for i in 0..a.len() {
        if !same_operand(&a[i], &b[i]) {
            return false;
        }
    }
    true
}

/// Whether two right sides are the same.
pub fn same_rhs(a: &Rhs, b: &Rhs) -> bool
    ensures { IsTrue result ↔ (a.now ≡ b.now) }
{
    match (a, b) {
        (Rhs::Copy(x), Rhs::Copy(y)) => same_operand(x, y),
        (Rhs::Op(c, xs), Rhs::Op(d, ys)) => {
            c.same(*d) && same_operands(xs.as_slice(), ys.as_slice())
        }
        _ => false,
    }
}
