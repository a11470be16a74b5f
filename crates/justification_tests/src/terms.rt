//! Terms of texts.

use pm_items::Items;
use pm_ops::Code;
use pm_term::{BuildFault, Typed};
use pm_wide::{IntType, Operand, Wide};
use std::alloc::Global;

/// The term of a text, read from left to right with the operands first: `xy+z*` is `(x + y) * z`. A
/// letter or digit that is no operation is a name or a constant.
pub(crate) fn term(alloc: Global, text: &str, ty: IntType) -> Result<Typed, BuildFault> {
    let mut made: Vec<Typed> = Vec::new(alloc);
    for letter in text.bytes() {
        let next = match operation(letter) {
            Some(code) => operated(alloc, letter, code, ty, &mut made)?,
            None => leaf(letter, ty),
        };
        made.push(next)?;
    }
    popped(&mut made)
}

/// The last term that was made.
fn popped(made: &mut Vec<Typed>) -> Result<Typed, BuildFault> {
    made.pop().ok_or(BuildFault::IllTyped)
}

/// The operation of a sign or a letter: `n` is a negative, `A` a size, `U` a size without a sign, `C`,
/// `I` and `K` convert, `?` chooses, and `E` `N` `L` `Q` `G` `H` are `==` `!=` `<` `<=` `>` `>=`.
fn operation(letter: u8) -> Option<Code> {
    match letter {
        b'~' => Some(Code::BitNot),
        b'n' => Some(Code::Negate),
        b'A' => Some(Code::Abs),
        b'U' => Some(Code::Absu),
        b'C' | b'I' | b'K' => Some(Code::Convert),
        b'+' => Some(Code::Plus),
        b'-' => Some(Code::Minus),
        b'*' => Some(Code::Mult),
        b'/' => Some(Code::TruncDiv),
        b'%' => Some(Code::TruncMod),
        b'<' => Some(Code::Lshift),
        b'>' => Some(Code::Rshift),
        b'&' => Some(Code::BitAnd),
        b'|' => Some(Code::BitIor),
        b'^' => Some(Code::BitXor),
        b'E' => Some(Code::Eq),
        b'N' => Some(Code::Ne),
        b'L' => Some(Code::Lt),
        b'Q' => Some(Code::Le),
        b'G' => Some(Code::Gt),
        b'H' => Some(Code::Ge),
        b'?' => Some(Code::Cond),
        _ => None,
    }
}

/// An operation on as many of the last terms as it has operands.
fn operated(
    alloc: Global,
    letter: u8,
    code: Code,
    ty: IntType,
    made: &mut Vec<Typed>,
) -> Result<Typed, BuildFault> {
    let mut args = Items::new(alloc);
    for _ in 0..code.arity() {
        let last = popped(made)?;
        args.insert(0, last)?;
    }
    let of = match args.as_slice() {
        [_, a, _] | [a, ..] => a.ty(),
        [] => ty,
    };
    Typed::build(alloc, code, type_of_result(letter, code, of, ty), args)
}

/// The type of an operation: of its first operand, or of what it chooses from; but `U` and `C` lead to
/// the unsigned type of that width, `I` to the type of names, and `K` to `unsigned char`.
fn type_of_result(letter: u8, code: Code, of: IntType, ty: IntType) -> IntType {
    match letter {
        b'U' | b'C' => IntType::new(of.bits(), true).unwrap_or(of),
        b'I' => ty,
        b'K' => IntType::unsigned_char(),
        _ if code.is_comparison() => IntType::boolean(),
        _ => of,
    }
}

/// A name, of type `_Bool` from `p` to `t`; or a constant: a digit; `T` and `F`, which are truths; `M`,
/// which has all bits, `S` the highest alone and `B` all others; `W`, the width, and `Y`, one less;
/// `V`, which is 2 to the 56th, and `Z`, one less; and `O`, which is 2 to the 31st at `long`.
fn leaf(letter: u8, ty: IntType) -> Typed {
    let others = Wide::reduce(u128::MAX, ty).bits() / 2;
    match letter {
        b'0'..=b'9' => constant(u128::from(letter - b'0'), ty),
        b'T' => constant(1, IntType::boolean()),
        b'F' => constant(0, IntType::boolean()),
        b'M' => constant(u128::MAX, ty),
        b'S' => constant(others + 1, ty),
        b'B' => constant(others, ty),
        b'W' => constant(u128::from(ty.bits()), ty),
        b'Y' => constant(u128::from(ty.bits()).saturating_sub(1), ty),
        b'V' => constant(1 << 56, ty),
        b'Z' => constant((1 << 56) - 1, ty),
        b'O' => constant(1 << 31, IntType::long()),
        b'p'..=b't' => Typed::leaf(Operand::Name(u32::from(letter), IntType::boolean())),
        _ => Typed::leaf(Operand::Name(u32::from(letter), ty)),
    }
}

fn constant(bits: u128, ty: IntType) -> Typed {
    Typed::leaf(Operand::Const(Wide::reduce(bits, ty)))
}
