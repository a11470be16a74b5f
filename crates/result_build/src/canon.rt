//! One operation on operands: exchanged, folded, or as it is.
ghost use Rattle.std.specs.Prelude.{◌≡◌, [], ◌∷◌, IsTrue, map};
ghost use Rattle.pm_wide.specs.Operands.{type_of_operand};
ghost use Rattle.pm_wide.specs.Typing.{well_typed_operation};
ghost use Rattle.result_build.specs.Canons.{canon_of, folded, is_exchanged as is_exchanged_one};

use pm_ops::Code;
use pm_wide::{IntType, Operand, Wide, op_value};

/// What becomes of an operation on operands.
#[derive(Clone, Copy, Debug, PartialEq, Eq)]
pub enum Canon {
    Same,
    /// Its two operands are exchanged, and it has this code.
    Swapped(Code),
    /// It is this constant.
    Folded(Wide),
}

/// What becomes of an operation on operands that is well typed. Takes no memory.
pub fn one_node(code: Code, ty: IntType, args: &[Operand]) -> Canon
    requires { IsTrue (well_typed_operation code ty (map type_of_operand args.now)) }
    ensures { result ≡ canon_of code ty args.now }
{
    if is_exchanged(code, args) {
        return Canon::Swapped(code.swapped());
    }
    match value(code, ty, args) {
        Some(word) => Canon::Folded(word),
        None => Canon::Same,
    }
}

/// Whether a constant stands before a name, under a code whose operands may be exchanged.
fn is_exchanged(code: Code, args: &[Operand]) -> bool
    ensures { result ≡ is_exchanged_one code args.now }
{
    match args {
        [Operand::Const(_), Operand::Name(_, _)] => code.is_commutative() || code.is_comparison(),
        _ => false,
    }
}

/// The value of an operation whose operands are all constants.
#[tactic(auto, using(crate::proofs::Folding::no_value), unfolding(pm_wide::specs::Operations::operation_value, pm_wide::specs::Typing::well_typed_operation))]
fn value(code: Code, ty: IntType, args: &[Operand]) -> Option<Wide>
    requires { IsTrue (well_typed_operation code ty (map type_of_operand args.now)) }
    ensures { result ≡ folded code ty args.now }
{
    match args {
        [] => None,
        [a] => value_of_one(code, ty, a),
        [a, b] => value_of_two(code, ty, a, b),
        [a, b, c] => value_of_three(code, ty, a, b, c),
        [_, _, _, _, ..] => None,
    }
}

fn value_of_one(code: Code, ty: IntType, a: &Operand) -> Option<Wide>
    requires { IsTrue (well_typed_operation code ty (type_of_operand a.now ∷ [])) }
    ensures { result ≡ folded code ty (a.now ∷ []) }
{
    match a {
        Operand::Const(a) => op_value(code, ty, &[*a]).ok(),
        Operand::Name(_, _) => None,
    }
}

fn value_of_two(code: Code, ty: IntType, a: &Operand, b: &Operand) -> Option<Wide>
    requires { IsTrue (well_typed_operation code ty
        (type_of_operand a.now ∷ type_of_operand b.now ∷ [])) }
    ensures { result ≡ folded code ty (a.now ∷ b.now ∷ []) }
{
    match (a, b) {
        (Operand::Const(a), Operand::Const(b)) => op_value(code, ty, &[*a, *b]).ok(),
        (Operand::Const(_), Operand::Name(_, _)) => None,
        (Operand::Name(_, _), _) => None,
    }
}

fn value_of_three(code: Code, ty: IntType, a: &Operand, b: &Operand, c: &Operand) -> Option<Wide>
    requires { IsTrue (well_typed_operation code ty
        (type_of_operand a.now ∷ type_of_operand b.now ∷ type_of_operand c.now ∷ [])) }
    ensures { result ≡ folded code ty (a.now ∷ b.now ∷ c.now ∷ []) }
{
    match (a, b, c) {
        (Operand::Const(a), Operand::Const(b), Operand::Const(c)) => op_value(
            code,
            ty,
            &[*a, *b, *c],
        ).ok(),
        (Operand::Const(_), Operand::Const(_), Operand::Name(_, _)) => None,
        (Operand::Const(_), Operand::Name(_, _), _) => None,
        (Operand::Name(_, _), _, _) => None,
    }
}
