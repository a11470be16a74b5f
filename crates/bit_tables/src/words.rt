//! The words of terms where names have a bit at one place at most.
ghost use Rattle.std.specs.Prelude.{◌≡◌, ◌<◌, ◌%◌, ◌^◌};
ghost use Rattle.pm_term.specs.TermTrees.{tree_of, trees_of};
ghost use Rattle.bit_tables.specs.Spots.{spot_word};
ghost use Rattle.bit_tables.specs.WrappedWords.{wrapped_unary, wrapped_binary, wrapped_operation, wrapped_word, wrapped_words};

use pm_ops::Code;
use pm_term::Term;
use pm_wide::{IntType, Wide};

/// A place, and which of the names have their bit there.
#[derive(Clone, Copy)]
pub(crate) struct Spot {
    pub place: u8,
    pub mask: u32,
}

/// The word of a term whose parts have the width of this type.
#[cycle(word)]
pub(crate) fn word_at(term: &Term, ty: IntType, names: &[(u32, IntType)], spot: Spot) -> u128
    requires { spot.place < 128 }
    ensures { result ≡ wrapped_word (spot_word names.now spot.place spot.mask) ty.width (tree_of term.now) }
{
    match term {
        Term::Name(version, name_ty) => bit_of_name(names, spot, *version, *name_ty),
        Term::Const(word) => word.bits(),
        Term::Node(code, _, args) => operation_at(*code, args.as_slice(), ty, names, spot),
    }
}

/// The word of an operation on these terms.
#[cycle(word)]
fn operation_at(
    code: Code,
    args: &[Term],
    ty: IntType,
    names: &[(u32, IntType)],
    spot: Spot,
) -> u128
    requires { spot.place < 128 }
    ensures { result ≡ wrapped_operation ty.width code (wrapped_words (spot_word names.now spot.place spot.mask) ty.width (trees_of args.now)) }
{
    match args {
        [a] => {
            let a = word_at(a, ty, names, spot);
            unary(code, ty, a)
        }
        [a, b] => {
            let a = word_at(a, ty, names, spot);
            let b = word_at(b, ty, names, spot);
            binary(code, ty, a, b)
        }
        _ => 0,
    }
}

/// An operation on one word.
#[tactic(auto, using(pm_wide::proofs::Residues::negated, pm_wide::proofs::Residues::ones))]
fn unary(code: Code, ty: IntType, a: u128) -> u128
    ensures { result ≡ wrapped_unary ty.width code a }
{
    match code {
        Code::Convert => a,
        Code::Negate => reduced(0_u128.wrapping_sub(a), ty),
        Code::BitNot => reduced(u128::MAX, ty).saturating_sub(a),
        _ => 0,
    }
}

/// An operation on two words.
#[tactic(auto, using(pm_wide::proofs::Residues::added, pm_wide::proofs::Residues::subtracted, pm_wide::proofs::Residues::multiplied))]
fn binary(code: Code, ty: IntType, a: u128, b: u128) -> u128
    ensures { result ≡ wrapped_binary ty.width code a b }
{
    match code {
        Code::Plus => reduced(a.wrapping_add(b), ty),
        Code::Minus => reduced(a.wrapping_sub(b), ty),
        Code::Mult => reduced(a.wrapping_mul(b), ty),
        Code::BitAnd => a & b,
        Code::BitIor => a | b,
        Code::BitXor => a ^ b,
        _ => 0,
    }
}

/// The lowest bits of a number, as many as the type has.
fn reduced(bits: u128, ty: IntType) -> u128
    ensures value { result ≡ bits % 2 ^ ty.width }
    ensures width { ty.width < 129 }
{
    let _known = ty.bits();
    Wide::reduce(bits, ty).bits()
}

/// The word of a name: its bit at the place, where the mask has one for it.
fn bit_of_name(names: &[(u32, IntType)], spot: Spot, version: u32, ty: IntType) -> u128
    requires { spot.place < 128 }
    ensures { result ≡ spot_word names.now spot.place spot.mask version ty }
{
    let mut mask = spot.mask;
    for (name, name_ty) in names {
        if *name == version && *name_ty == ty {
            return if mask % 2 == 1 { 1 << spot.place } else { 0 };
        }
        mask /= 2;
    }
    0
}
