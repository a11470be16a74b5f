//! Terms of texts.

use pm_items::Items;
use pm_ops::Code;
use pm_term::{BuildFault, Typed};
use pm_wide::{IntType, Operand, Wide};
use std::alloc::Global;

/// The term of a text, read from left to right with the operands first: a letter is a name, a digit
/// a constant, `n` a negative, `s` a conversion to the other sign.
pub(crate) fn term(alloc: Global, text: &str, ty: IntType) -> Result<Typed, BuildFault> {
    let mut made: Vec<Typed> = Vec::new(alloc);
    for c in text.bytes() {
        let term = match c {
            b'~' => one(alloc, Code::BitNot, ty, &mut made)?,
            b'n' => one(alloc, Code::Negate, ty, &mut made)?,
            b's' => converted(alloc, ty, &mut made)?,
            b'+' => two(alloc, Code::Plus, ty, &mut made)?,
            b'-' => two(alloc, Code::Minus, ty, &mut made)?,
            b'*' => two(alloc, Code::Mult, ty, &mut made)?,
            b'/' => two(alloc, Code::TruncDiv, ty, &mut made)?,
            b'<' => two(alloc, Code::Lshift, ty, &mut made)?,
            b'&' => two(alloc, Code::BitAnd, ty, &mut made)?,
            b'|' => two(alloc, Code::BitIor, ty, &mut made)?,
            b'^' => two(alloc, Code::BitXor, ty, &mut made)?,
            b'0'..=b'9' => Typed::leaf(Operand::Const(Wide::reduce(u128::from(c - b'0'), ty))),
            _ => Typed::leaf(Operand::Name(u32::from(c), ty)),
        };
        made.push(term)?;
    }
    popped(&mut made)
}

/// The last term that was made.
pub(crate) fn popped(made: &mut Vec<Typed>) -> Result<Typed, BuildFault> {
    made.pop().ok_or(BuildFault::IllTyped)
}

/// An operation on the last term.
fn one(alloc: Global, code: Code, ty: IntType, made: &mut Vec<Typed>) -> Result<Typed, BuildFault> {
    let a = popped(made)?;
    Typed::build(alloc, code, ty, Items::from_vec(vec![in alloc; a]?))
}

/// The last term as one of the other sign, and back.
fn converted(alloc: Global, ty: IntType, made: &mut Vec<Typed>) -> Result<Typed, BuildFault> {
    let other = IntType::new(ty.bits(), !ty.unsigned()).unwrap_or(ty);
    let a = one(alloc, Code::Convert, other, made)?;
    Typed::build(
        alloc,
        Code::Convert,
        ty,
        Items::from_vec(vec![in alloc; a]?),
    )
}

/// An operation on the last two terms.
pub(crate) fn two(
    alloc: Global,
    code: Code,
    ty: IntType,
    made: &mut Vec<Typed>,
) -> Result<Typed, BuildFault> {
    let b = popped(made)?;
    let a = popped(made)?;
    Typed::build(alloc, code, ty, Items::from_vec(vec![in alloc; a, b]?))
}

/// The eleven types.
pub(crate) fn types() -> [IntType; 11] {
    [
        IntType::boolean(),
        IntType::signed_char(),
        IntType::unsigned_char(),
        IntType::short(),
        IntType::unsigned_short(),
        IntType::int(),
        IntType::unsigned_int(),
        IntType::long(),
        IntType::unsigned_long(),
        IntType::int128(),
        IntType::unsigned_int128(),
    ]
}
