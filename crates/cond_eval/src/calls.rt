//! Calls on values, by what their arguments are.
ghost use Rattle.std.specs.Prelude.{◌≡◌, ◌<◌, ◌≤◌, ◌^◌, ◌==◌, true, IsTrue, if◌then◌else◌, count_ones, pos, negsuc, IfSome};
ghost use Rattle.std.specs.Int.{int_signum};
ghost use Rattle.std.specs.Int.RustNames.{unsigned_abs};
ghost use Rattle.std.specs.Option.{SomeIff};
ghost use Rattle.pm_wide.specs.Operations.{shifts};
ghost use Rattle.pm_wide.specs.Types.{value as value_of_word};
ghost use Rattle.cond_eval.specs.Calls.{with_sign, of_type, sign_of, word_of_operand, of_operand};
ghost use Rattle.cond_eval.specs.Calls.{of_word, of_types, of_operand_types, of_number};
ghost use Rattle.cond_eval.specs.Calls.{of_type_word, of_words, of_read_words, shifted};
ghost use Rattle.cond_eval.specs.Calls.{of_word_number, of_one, of_two, of_three};
ghost use Rattle.cond_eval.specs.Values.{IsPair, IsValue};
ghost use Rattle.cond_eval.specs.Words.{numbers, ctz_of};

use crate::environment::CEnv;
use crate::operators::same_type;
use crate::pair::{Pair, words_of};
use crate::reading::{Reading, is_at_most, is_below};
use crate::value::CValue;
use crate::{constants, words};
use pd_ast::{Call, holds};
use pm_wide::{IntType, Operand, Wide};

/// The value of a call on one argument.
pub fn of_one(call: Call, a: &CValue, env: &CEnv) -> Option<CValue>
    requires { IsValue a.now }
    ensures value { result ≡ of_one call env.now.uses a.now }
    ensures is_value { IfSome result IsValue }
{
    match a {
        CValue::TypeRef(ty) => of_type(call, *ty),
        CValue::Oper(operand) => of_operand(call, *operand, env),
        CValue::WideRef(precision, bits) => of_word(call, *precision, *bits),
        _ => None,
    }
}

/// The value of a call on two arguments.
pub fn of_two(call: Call, a: &CValue, b: &CValue) -> Option<CValue>
    requires a_is_value { IsValue a.now }
    requires b_is_value { IsValue b.now }
    ensures value { result ≡ of_two call a.now b.now }
    ensures is_value { IfSome result IsValue }
{
    match (a, b) {
        (CValue::TypeRef(s), CValue::TypeRef(t)) => of_types(call, *s, *t),
        (CValue::TypeRef(s), CValue::Oper(b)) => of_operand_types(call, *s, b.ty()),
        (CValue::Oper(a), CValue::TypeRef(t)) => of_operand_types(call, a.ty(), *t),
        (CValue::Oper(a), CValue::Oper(b)) => of_operand_types(call, a.ty(), b.ty()),
        (CValue::TypeRef(ty), CValue::Int(number)) => of_number(call, *ty, *number),
        (CValue::TypeRef(ty), CValue::WideRef(precision, bits)) => {
            of_type_word(call, *ty, *precision, *bits)
        }
        (CValue::WideRef(precision, bits), CValue::Int(number)) => {
            of_word_number(call, *precision, *bits, *number)
        }
        _ => of_words(call, words_of(*a, *b)?),
    }
}

/// The value of a call on three arguments.
pub fn of_three(call: Call, a: CValue, b: CValue, c: &CValue) -> Option<CValue>
    requires a_is_value { IsValue a }
    requires b_is_value { IsValue b }
    ensures value { result ≡ of_three call a b c.now }
    ensures is_value { IfSome result IsValue }
{
    match c {
        CValue::Sign(unsigned) => of_read_words(call, *unsigned, words_of(a, b)?),
        _ => None,
    }
}

/// A call on a type.
fn of_type(call: Call, ty: IntType) -> Option<CValue>
    ensures value { result ≡ of_type call ty }
    ensures is_value { IfSome result IsValue }
{
    match call {
        Call::TypePrecision | Call::ElementPrecision => Some(CValue::Int(i64::from(ty.bits()))),
        Call::TypeSign => Some(CValue::Sign(ty.unsigned())),
        Call::TypeUnsigned | Call::OverflowWraps => Some(CValue::Truth(ty.unsigned())),
        Call::OverflowUndefined => Some(CValue::Truth(!ty.unsigned())),
        Call::IntegralType | Call::AnyIntegralType => Some(CValue::Truth(true)),
        Call::FloatType
        | Call::VectorType
        | Call::PointerType
        | Call::OverflowSanitized
        | Call::OverflowTraps => Some(CValue::Truth(false)),
        Call::HasModePrecision => Some(CValue::Truth(ty.bits() != 1)),
        Call::SignedTypeFor => with_sign(false, ty),
        Call::UnsignedTypeFor => with_sign(true, ty),
        Call::MinValue => Some(CValue::WideRef(ty.bits(), constants::least_word(ty))),
        Call::MaxValue => Some(CValue::WideRef(ty.bits(), constants::greatest_word(ty))),
        Call::BuildZero => Some(constants::zero(ty)),
        Call::BuildOne => Some(constants::one(ty)),
        Call::BuildMinusOne | Call::BuildAllOnes => Some(constants::all_ones(ty)),
        _ => None,
    }
}

/// The type of that width and sign.
fn with_sign(unsigned: bool, ty: IntType) -> Option<CValue>
    ensures value { result ≡ with_sign unsigned ty }
    ensures is_value { IfSome result IsValue }
{
    match IntType::new(ty.bits(), unsigned) {
        Some(ty) => Some(CValue::TypeRef(ty)),
        None => None,
    }
}

/// A call on an operand.
fn of_operand(call: Call, operand: Operand, env: &CEnv) -> Option<CValue>
    ensures value { result ≡ of_operand call env.now.uses operand }
    ensures is_value { IfSome result IsValue }
{
    match call {
        Call::Holds(pred) => Some(CValue::Truth(holds(pred, operand))),
        Call::TreeType => Some(CValue::TypeRef(operand.ty())),
        Call::ElementPrecision => Some(CValue::Int(i64::from(operand.ty().bits()))),
        Call::SingleUse => Some(CValue::Truth(env.is_single(operand)?)),
        Call::CstSign => sign_of(operand),
        Call::ToWide => word_of_operand(operand),
        _ => None,
    }
}

/// The sign of a constant.
fn sign_of(operand: Operand) -> Option<CValue>
    ensures value { result ≡ sign_of operand }
    ensures is_value { IfSome result IsValue }
{
    match operand {
        Operand::Name(..) => None,
        Operand::Const(word) => Some(CValue::Int(sign_of_word(word))),
    }
}

/// The sign of a word: -1, 0 or 1.
#[tactic(auto, using(crate::proofs::ReadingLemmas::sign_low, crate::proofs::ReadingLemmas::sign_high))]
fn sign_of_word(word: Wide) -> i64
    ensures { result ≡ int_signum (value_of_word word) }
{
    let bits = word.bits();
    let ty = word.ty();
    if bits == 0 {
        0
    } else if ty.unsigned() || bits < words::power_of_two(ty.bits() - 1) {
        1
    } else {
        -1
    }
}

/// The word of a constant.
fn word_of_operand(operand: Operand) -> Option<CValue>
    ensures value { result ≡ word_of_operand operand }
    ensures is_value { IfSome result IsValue }
{
    match operand {
        Operand::Name(..) => None,
        Operand::Const(word) => Some(CValue::WideRef(word.ty().bits(), word.bits())),
    }
}

/// A call on a word.
fn of_word(call: Call, precision: u8, bits: u128) -> Option<CValue>
    requires some { 0 < precision }
    requires precision { precision ≤ 128 }
    requires word { bits < 2 ^ precision }
    ensures value { result ≡ of_word call precision bits }
    ensures is_value { IfSome result IsValue }
{
    match call {
        Call::Neg => Some(CValue::WideRef(precision, words::negative(precision, bits))),
        Call::BitNot => Some(CValue::WideRef(precision, words::complement(precision, bits))),
        Call::Popcount => Some(CValue::Int(i64::from(bits.count_ones()))),
        Call::Clz => Some(CValue::Int(i64::from(words::zeros_above(precision, bits)))),
        Call::Ctz => Some(CValue::Int(i64::from(words::zeros_below(precision, bits)))),
        Call::ExactLog2 => Some(CValue::Int(only_bit(precision, bits))),
        _ => None,
    }
}

/// The place of the only bit that is set, or -1.
fn only_bit(precision: u8, bits: u128) -> i64
    requires precision { precision ≤ 128 }
    requires word { bits < 2 ^ precision }
    ensures { result ≡ (if count_ones bits == 1 then pos (ctz_of precision bits) else negsuc 0) }
{
    if bits.count_ones() == 1 {
        i64::from(words::zeros_below(precision, bits))
    } else {
        -1
    }
}

/// A call on two types.
fn of_types(call: Call, s: IntType, t: IntType) -> Option<CValue>
    ensures value { result ≡ of_types call s t }
    ensures is_value { IfSome result IsValue }
{
    match call {
        Call::TypesMatch => Some(CValue::Truth(same_type(s, t))),
        Call::NopConversion => Some(CValue::Truth(s.bits() == t.bits())),
        _ => None,
    }
}

/// A call on the types of two arguments of which one at least is an operand.
fn of_operand_types(call: Call, s: IntType, t: IntType) -> Option<CValue>
    ensures value { result ≡ of_operand_types call s t }
    ensures is_value { IfSome result IsValue }
{
    match call {
        Call::TypesMatch => Some(CValue::Truth(same_type(s, t))),
        _ => None,
    }
}

/// A call on a type and a whole number.
fn of_number(call: Call, ty: IntType, number: i64) -> Option<CValue>
    ensures value { result ≡ of_number call ty number }
    ensures is_value { IfSome result IsValue }
{
    match call {
        Call::BuildInt => Some(constants::of_number(ty, number)),
        _ => None,
    }
}

/// A call on a type and a word.
fn of_type_word(call: Call, ty: IntType, precision: u8, bits: u128) -> Option<CValue>
    requires some { 0 < precision }
    requires precision { precision ≤ 128 }
    requires word { bits < 2 ^ precision }
    ensures value { result ≡ of_type_word call ty precision bits }
    ensures is_value { IfSome result IsValue }
{
    match call {
        Call::ToTree => Some(constants::of_word(ty, precision, bits)),
        _ => None,
    }
}

/// A call on two words of one precision.
fn of_words(call: Call, pair: Pair) -> Option<CValue>
    requires { IsPair pair }
    ensures value { result ≡ of_words call pair }
    ensures is_value { IfSome result IsValue }
{
    let Pair {
        precision,
        left,
        right,
    } = pair;
    match call {
        Call::Add => Some(CValue::WideRef(precision, words::sum(precision, left, right))),
        Call::Sub => Some(CValue::WideRef(precision, words::difference(precision, left, right))),
        Call::Mul => Some(CValue::WideRef(precision, words::product(precision, left, right))),
        Call::BitAnd => Some(CValue::WideRef(precision, words::both(precision, left, right))),
        Call::BitOr => Some(CValue::WideRef(precision, words::either(precision, left, right))),
        Call::BitXor => Some(CValue::WideRef(precision, words::one_alone(precision, left, right))),
        Call::EqP => Some(CValue::Truth(left == right)),
        Call::NeP => Some(CValue::Truth(left != right)),
        Call::LtsP => of_read_words(Call::LtP, false, pair),
        Call::LesP => of_read_words(Call::LeP, false, pair),
        Call::GtsP => of_read_words(Call::GtP, false, pair),
        Call::GesP => of_read_words(Call::GeP, false, pair),
        Call::LtuP => of_read_words(Call::LtP, true, pair),
        Call::LeuP => of_read_words(Call::LeP, true, pair),
        Call::GtuP => of_read_words(Call::GtP, true, pair),
        Call::GeuP => of_read_words(Call::GeP, true, pair),
        _ => None,
    }
}

/// A call on two words of one precision, read by a sign.
fn of_read_words(call: Call, unsigned: bool, pair: Pair) -> Option<CValue>
    requires { IsPair pair }
    ensures value { result ≡ of_read_words call unsigned pair }
    ensures is_value { IfSome result IsValue }
{
    let Pair {
        precision,
        left,
        right,
    } = pair;
    let reading = Reading {
        precision,
        unsigned,
    };
    match call {
        Call::LtP => Some(CValue::Truth(is_below(reading, left, right))),
        Call::LeP => Some(CValue::Truth(is_at_most(reading, left, right))),
        Call::GtP => Some(CValue::Truth(is_below(reading, right, left))),
        Call::GeP => Some(CValue::Truth(is_at_most(reading, right, left))),
        _ => None,
    }
}

/// A call on a word and a whole number: places to shift by, or a word of the same precision.
fn of_word_number(call: Call, precision: u8, bits: u128, number: i64) -> Option<CValue>
    requires some { 0 < precision }
    requires precision { precision ≤ 128 }
    requires word { bits < 2 ^ precision }
    ensures value { result ≡ of_word_number call precision bits number }
    ensures is_value { IfSome result IsValue }
{
    match call {
        Call::Lshift | Call::Lrshift | Call::Arshift => {
            let places = places(precision, number)?;
            shifted(call, precision, bits, places)
        }
        _ => {
            let right = words::reduced(precision, number);
            of_words(
                call,
                Pair {
                    precision,
                    left: bits,
                    right,
                },
            )
        }
    }
}

/// The places to shift by, where they are from 0 to below the precision.
fn places(precision: u8, number: i64) -> Option<u8>
    requires { precision ≤ 128 }
    ensures { SomeIff result (IsTrue (shifts (numbers true precision) number))
        (unsigned_abs number) }
{
    let size = number.unsigned_abs();
    if number >= 0 && size < u64::from(precision) {
        Some(size as u8)
    } else {
        None
    }
}

/// A word shifted by a number of places that is below its precision.
fn shifted(call: Call, precision: u8, bits: u128, places: u8) -> Option<CValue>
    requires precision { precision ≤ 128 }
    requires places { places < precision }
    requires word { bits < 2 ^ precision }
    ensures value { result ≡ shifted call precision bits places }
    ensures is_value { IfSome result IsValue }
{
    let word = match call {
        Call::Lshift => words::shifted_up(precision, bits, places),
        Call::Lrshift => words::shifted_down(precision, bits, places),
        Call::Arshift => words::shifted_signed(precision, bits, places),
        _ => return None,
    };
    Some(CValue::WideRef(precision, word))
}
