//! Constants and words of types.
ghost use Rattle.std.specs.Prelude.{◌≡◌, ◌<◌, ◌≤◌, ◌^◌, pos, negsuc, Some};
ghost use Rattle.pm_wide.specs.Residues.{residue};
ghost use Rattle.pm_wide.specs.Types.{least, greatest, word};
ghost use Rattle.cond_eval.specs.Values.{constant, wide, IsValue};
ghost use Rattle.cond_eval.specs.Words.{read};

use crate::reading::{Reading, extended};
use crate::value::CValue;
use crate::words::{lowest, power_of_two, whole};
use pm_wide::{IntType, Operand, Wide};

/// The constant 0 of a type.
pub fn zero(ty: IntType) -> CValue
    ensures { Some result ≡ constant ty (pos 0) }
{
    CValue::Oper(Operand::Const(Wide::reduce(0, ty)))
}

/// The constant 1 of a type.
pub fn one(ty: IntType) -> CValue
    ensures { Some result ≡ constant ty (pos 1) }
{
    CValue::Oper(Operand::Const(Wide::reduce(1, ty)))
}

/// The constant of a type whose bits are all 1.
#[tactic(auto, using(crate::proofs::WordLemmas::all_ones))]
pub fn all_ones(ty: IntType) -> CValue
    ensures { Some result ≡ constant ty (negsuc 0) }
{
    let _known = ty.bits();
    CValue::Oper(Operand::Const(Wide::reduce(u128::MAX, ty)))
}

/// The constant of a type for a whole number.
#[tactic(auto, using(crate::proofs::WordLemmas::lower_word))]
pub fn of_number(ty: IntType, number: i64) -> CValue
    ensures { Some result ≡ constant ty number }
{
    let _known = ty.bits();
    CValue::Oper(Operand::Const(Wide::reduce(whole(number), ty)))
}

/// The constant of a type for a word, read with the type's sign.
#[tactic(auto, using(crate::proofs::WordLemmas::lower_read))]
pub fn of_word(ty: IntType, precision: u8, bits: u128) -> CValue
    requires some { 0 < precision }
    requires precision { precision ≤ 128 }
    requires word { bits < 2 ^ precision }
    ensures { Some result ≡ constant ty (read ty.unsigned precision bits) }
{
    let reading = Reading {
        precision,
        unsigned: ty.unsigned(),
    };
    CValue::Oper(Operand::Const(Wide::reduce(extended(reading, bits), ty)))
}

/// The word of the least value of a type.
#[tactic(auto, using(crate::proofs::ReadingLemmas::least_unsigned, crate::proofs::ReadingLemmas::least_signed))]
pub fn least_word(ty: IntType) -> u128
    ensures value { result ≡ residue ty.width (least ty) }
    ensures word { result < 2 ^ ty.width }
    ensures known { ty.width ≤ 128 }
{
    if ty.unsigned() {
        0
    } else {
        power_of_two(ty.bits() - 1)
    }
}

/// The word of the greatest value of a type.
#[tactic(auto, using(crate::proofs::ReadingLemmas::greatest_unsigned, crate::proofs::ReadingLemmas::greatest_signed))]
pub fn greatest_word(ty: IntType) -> u128
    ensures value { result ≡ residue ty.width (greatest ty) }
    ensures word { result < 2 ^ ty.width }
    ensures known { ty.width ≤ 128 }
{
    if ty.unsigned() {
        lowest(ty.bits(), u128::MAX)
    } else {
        power_of_two(ty.bits() - 1) - 1
    }
}
