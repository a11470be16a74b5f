//! What each predicate holds of.
ghost use Rattle.std.specs.Prelude.{◌≡◌, ◌==◌, ◌-◌, ◌^◌};
ghost use Rattle.pm_wide.specs.declared.operand.Operand.TheVariants.{Const};
ghost use Rattle.pd_ast.specs.Predicates.{holds_of};

use pm_ops::Pred;
use pm_wide::{Operand, Wide};

/// Whether a predicate holds of an operand.
pub fn holds(pred: Pred, operand: Operand) -> bool
    ensures { result ≡ holds_of pred operand }
{
    match operand {
        Operand::Name(..) => pred == Pred::Ssa,
        Operand::Const(word) => holds_of_constant(pred, word),
    }
}

/// Whether a predicate holds of a constant.
fn holds_of_constant(pred: Pred, word: Wide) -> bool
    ensures { result ≡ holds_of pred (Const word) }
{
    match pred {
        Pred::Zero => word.bits() == 0,
        Pred::One | Pred::True => word.bits() == 1,
        Pred::AllOnes | Pred::MinusOne => all_ones(word),
        Pred::Pow2 => word.bits().is_power_of_two(),
        Pred::Cst => true,
        Pred::Ssa => false,
    }
}

/// Whether all bits of a word are 1.
fn all_ones(word: Wide) -> bool
    ensures { result ≡ (word.bits == 2 ^ word.ty.width - 1) }
{
    word == Wide::reduce(u128::MAX, word.ty())
}
