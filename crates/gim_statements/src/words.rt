//! Which token stands for which operation, and what a number says of its type.

ghost use Rattle.std.specs.Prelude.{◌≡◌};
ghost use Rattle.gim_statements.specs.Words as words;

use gim_text::{Keyword, LiteralType, Mark, NumberKind, Token};
use pm_ops::Code;
use pm_places::Span;

/// What compares two operands.
pub(crate) fn comparison_code(token: Token) -> Option<Code>
    ensures { result ≡ words.comparison_code token }
{
    match token {
        Token::Mark(Mark::Equal, _) => Some(Code::Eq),
        Token::Mark(Mark::NotEqual, _) => Some(Code::Ne),
        Token::Mark(Mark::Less, _) => Some(Code::Lt),
        Token::Mark(Mark::LessEqual, _) => Some(Code::Le),
        Token::Mark(Mark::Greater, _) => Some(Code::Gt),
        Token::Mark(Mark::GreaterEqual, _) => Some(Code::Ge),
        _ => None,
    }
}

/// What stands between two operands.
pub(crate) fn infix_code(token: Token) -> Option<Code>
    ensures { result ≡ words.infix_code token }
{
    match token {
        Token::Mark(Mark::Plus, _) => Some(Code::Plus),
        Token::Mark(Mark::Minus, _) => Some(Code::Minus),
        Token::Mark(Mark::Star, _) => Some(Code::Mult),
        Token::Mark(Mark::Slash, _) => Some(Code::TruncDiv),
        Token::Mark(Mark::Percent, _) => Some(Code::TruncMod),
        Token::Mark(Mark::Ampersand, _) => Some(Code::BitAnd),
        Token::Mark(Mark::Bar, _) => Some(Code::BitIor),
        Token::Mark(Mark::Caret, _) => Some(Code::BitXor),
        Token::Mark(Mark::ShiftLeft, _) => Some(Code::Lshift),
        Token::Mark(Mark::ShiftRight, _) => Some(Code::Rshift),
        _ => comparison_code(token),
    }
}

/// What a number says of its type, and its place; a wrong number is none.
pub(crate) fn literal_number(token: Token) -> Option<(LiteralType, Span)>
    ensures { result ≡ words.literal_number token }
{
    match token {
        Token::Number(NumberKind::Plain, at) => Some((LiteralType::Plain, at)),
        Token::Number(NumberKind::Unsigned, at) => Some((LiteralType::Unsigned, at)),
        Token::Number(NumberKind::Long, at) => Some((LiteralType::Long, at)),
        Token::Number(NumberKind::UnsignedLong, at) => Some((LiteralType::UnsignedLong, at)),
        _ => None,
    }
}
