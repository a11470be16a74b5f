//! When two operands are the same.
ghost use Rattle.std.specs.Prelude.{◌≡◌, ◌<◌, ◌^◌};
ghost use Rattle.std.specs.Int.RustNames.{int_le};
ghost use Rattle.pm_wide.specs.Types.{same_type as is_same_type, value};
ghost use Rattle.pm_wide.specs.Operations.{int_same};
ghost use Rattle.gim_ast.specs.Functions.{same_operand as is_same_operand};
ghost use Rattle.gim_terms.specs.Reached.{both, same_number as is_same_number};

use pm_wide::{IntType, Operand, Wide};
use std::marker::Model;

/// Whether two operands are one name, or one constant of one type.
fn same_operand(a: &Operand, b: &Operand) -> bool
    ensures { result ≡ is_same_operand a.now b.now }
{
    match (a, b) {
        (Operand::Name(x, t), Operand::Name(y, u)) => *x == *y && same_type(*t, *u),
        (Operand::Const(v), Operand::Const(w)) => v.bits() == w.bits() && same_type(v.ty(), w.ty()),
        (Operand::Name(_, _), Operand::Const(_)) => false,
        (Operand::Const(_), Operand::Name(_, _)) => false,
    }
}

/// Whether two operands are one name, or constants of one number whatever their types.
fn same_number(a: &Operand, b: &Operand) -> bool
    ensures { result ≡ is_same_number a.now b.now }
{
    match (a, b) {
        (Operand::Name(x, t), Operand::Name(y, u)) => *x == *y && same_type(*t, *u),
        (Operand::Const(v), Operand::Const(w)) => same_value(*v, *w),
        (Operand::Name(_, _), Operand::Const(_)) => false,
        (Operand::Const(_), Operand::Name(_, _)) => false,
    }
}

/// Whether two types have one width and one sign.
fn same_type(a: IntType, b: IntType) -> bool
    ensures { result ≡ is_same_type a b }
{
    a.bits() == b.bits() && a.unsigned() == b.unsigned()
}

/// A whole number as its sign and its size. Contracts see the whole number.
#[derive(Drop)]
struct Number {
    negative: bool,
    size: u128,
}

impl Model for Number {
    ghost use Rattle.std.specs.Prelude.{if◌then◌else◌, ℤ, pos, neg_ℤ};

    ghost Value = { ℤ };

    ghost view = { λ z. if z.negative then neg_ℤ (pos z.size) else pos z.size };
}

impl Number {
    /// Whether it is at most another.
    fn is_at_most(&self, other: &Number) -> bool
        ensures { result ≡ int_le self.now other.now }
    {
        if self.negative {
            if other.negative {
                other.size <= self.size
            } else {
                true
            }
        } else if other.negative {
            self.size == 0 && other.size == 0
        } else {
            self.size <= other.size
        }
    }
}

/// Whether two words stand for one number.
fn same_value(v: Wide, w: Wide) -> bool
    ensures { result ≡ int_same (value v) (value w) }
{
    let a = number_of(v);
    let b = number_of(w);
    a.is_at_most(&b) && b.is_at_most(&a)
}

/// 2 to the width.
fn power_of_two(width: u8) -> u128
    requires { width < 128 }
    ensures { result ≡ 2 ^ width }
{
    1 << width
}

/// The number that a word stands for.
fn number_of(word: Wide) -> Number
    ensures { result ≡ value word }
{
    let bits = word.bits();
    let ty = word.ty();
    let half = power_of_two(ty.bits() - 1);
    if ty.unsigned() || bits < half {
        Number {
            negative: false,
            size: bits,
        }
    } else {
        Number {
            negative: true,
            size: half - (bits - half),
        }
    }
}

/// Whether two operands are there and the same.
pub fn both_same(a: Option<Operand>, b: Option<Operand>) -> bool
    ensures { result ≡ both is_same_operand a b }
{
    match (a, b) {
        (Some(a), Some(b)) => same_operand(&a, &b),
        (Some(_), None) => false,
        (None, _) => false,
    }
}

/// Whether two operands are there and have the same number, or are one name.
pub fn both_same_number(a: Option<Operand>, b: Option<Operand>) -> bool
    ensures { result ≡ both is_same_number a b }
{
    match (a, b) {
        (Some(a), Some(b)) => same_number(&a, &b),
        (Some(_), None) => false,
        (None, _) => false,
    }
}
