//! The words of constants.

ghost use Rattle.std.specs.Prelude.{◌≡◌, ℕ};
ghost use Rattle.pm_wide.specs.Types.{in_range};
ghost use Rattle.lexing.specs.Numbers.{number_after, IsSize};
ghost use Rattle.gim_text.specs.Literals.{signed, literal_type, literal_word, word_in};

use crate::tree::{LiteralText, LiteralType};
use lexing::{leading_digits, size};
use pm_places::text;
use pm_wide::{IntType, Wide};

/// Whether the number is a value of the type.
fn is_in_range(negative: bool, size: Option<u128>, ty: IntType) -> bool
    ensures { (n : ℕ) → IsSize size n → result ≡ in_range ty (signed negative n) }
{
    let width = ty.bits();
    let Some(size) = size else {
        return false;
    };
    if ty.unsigned() {
        return (!negative || size == 0) && Wide::new(size, ty).is_ok();
    }
    let half = 1u128 << (width - 1);
    if negative { size <= half } else { size < half }
}

/// The type of a constant of this number.
fn type_of(ty: LiteralType, negative: bool, size: Option<u128>) -> IntType
    ensures { (n : ℕ) → IsSize size n → result ≡ literal_type ty (signed negative n) }
{
    match ty {
        LiteralType::Plain if is_in_range(negative, size, IntType::int()) => IntType::int(),
        LiteralType::Plain | LiteralType::Long => IntType::long(),
        LiteralType::Unsigned if is_in_range(negative, size, IntType::unsigned_int()) => {
            IntType::unsigned_int()
        }
        LiteralType::Unsigned | LiteralType::UnsignedLong => IntType::unsigned_long(),
        LiteralType::Written(ty) => ty,
    }
}

/// The word of the number at the type, where it is a value of that type.
fn word_in(negative: bool, size: Option<u128>, ty: IntType) -> Option<Wide>
    ensures { (n : ℕ) → IsSize size n → result ≡ word_in ty (signed negative n) }
{
    if !is_in_range(negative, size, ty) {
        return None;
    }
    let size = size?;
    let bits = if negative {
        0u128.wrapping_sub(size)
    } else {
        size
    };
    Some(Wide::reduce(bits, ty))
}

/// The word at a type of the number of these digits with its sign, where it is a value of that
/// type.
pub fn constant(negative: bool, digits: &[u8], ty: IntType) -> Option<Wide>
    ensures { result ≡ word_in ty (signed negative (number_after 0 digits.now)) }
{
    word_in(negative, size(digits), ty)
}

/// The word of a constant. None where its type does not hold the number.
#[tactic(auto, unfolding(crate::specs::Literals::literal_word))]
pub fn literal(source: &[u8], literal: &LiteralText) -> Option<Wide>
    ensures { result ≡ literal_word source.now literal.now }
{
    let size = size(leading_digits(text(source, literal.number)));
    let ty = type_of(literal.ty, literal.negative, size);
    word_in(literal.negative, size, ty)
}
