//! Operands: names, default definitions and constants.

ghost use Rattle.std.specs.Prelude.{◌≡◌, ◌+◌, ◌<◌, ◌≤◌, length, IfOk};
ghost use Rattle.grammar.specs.Gives.{Gives};
ghost use Rattle.grammar.specs.Reading.{meant_at};
ghost use Rattle.gim_statements.specs.Words as words;
ghost use Rattle.gim_statements.specs.OperandReaders as readers;

use crate::words::literal_number;
use gim_text::{Keyword, LiteralText, LiteralType, Mark, OperandText, Token, TokenFault};
use gim_words::{read_keyword, read_mark, read_plain_number, read_type};
use grammar::Fault;
use pm_places::Span;
use pm_wide::IntType;

/// A constant without its first place.
#[derive(Clone, Copy)]
struct Constant {
    ty: LiteralType,
    negative: bool,
    number: Span,
}

/// What a number says of its type, and its place.
fn read_number(tokens: &[Token]) -> Result<((LiteralType, Span), &[Token]), TokenFault<'_>>
    ensures reads { Gives (λ x. (x.0, x.1.now)) result (meant_at words.literal_number tt tokens.now) }
    ensures shorter { IfOk result (λ x. length x.1.now < length tokens.now) }
{
    if let [first, rest @ ..] = tokens {
        if let Some(number) = literal_number(*first) {
            return Ok((number, rest));
        }
    }
    Err(Fault {
        kind: (),
        rest: tokens,
    })
}

/// A number, or `-` and a number.
fn read_signed_number(tokens: &[Token]) -> Result<(Constant, &[Token]), TokenFault<'_>>
    ensures reads { Gives (λ x. (x.0, x.1.now)) result (readers.signed_number_at tokens.now) }
    ensures shorter { IfOk result (λ x. length x.1.now < length tokens.now) }
{
    let (negative, rest) = match tokens {
        [Token::Mark(Mark::Minus, _), rest @ ..] => (true, rest),
        _ => (false, tokens),
    };
    let ((ty, number), rest) = read!(read_number(rest));
    Ok((
        Constant {
            ty,
            negative,
            number,
        },
        rest,
    ))
}

/// A number of digits alone, or `-` and such a number, of a type that was written before.
fn read_written_number(
    ty: IntType,
    tokens: &[Token],
) -> Result<(Constant, &[Token]), TokenFault<'_>>
    ensures reads { Gives (λ x. (x.0, x.1.now)) result (readers.written_number_at ty tokens.now) }
    ensures shorter { IfOk result (λ x. length x.1.now < length tokens.now) }
{
    let (negative, rest) = match tokens {
        [Token::Mark(Mark::Minus, _), rest @ ..] => (true, rest),
        _ => (false, tokens),
    };
    let (number, rest) = read_plain_number(rest)?;
    Ok((
        Constant {
            ty: LiteralType::Written(ty),
            negative,
            number,
        },
        rest,
    ))
}

/// What stands after `_Literal`.
fn read_written(tokens: &[Token]) -> Result<(Constant, &[Token]), TokenFault<'_>>
    ensures reads { Gives (λ x. (x.0, x.1.now)) result (readers.written_at tokens.now) }
    ensures shorter { IfOk result (λ x. length x.1.now < length tokens.now) }
{
    let (_, rest) = read_mark(Mark::Open, tokens)?;
    let (ty, rest) = read!(read_type(rest));
    let (_, rest) = read_mark(Mark::Close, rest)?;
    read_written_number(ty, rest)
}

/// A constant: a number with its sign, or `_Literal`, a type and a number.
fn read_constant(tokens: &[Token]) -> Result<(Constant, &[Token]), TokenFault<'_>>
    ensures reads { Gives (λ x. (x.0, x.1.now)) result (readers.constant_at tokens.now) }
    ensures shorter { IfOk result (λ x. length x.1.now < length tokens.now) }
{
    match tokens {
        [Token::Keyword(Keyword::Literal, _), rest @ ..] => read_written(rest),
        _ => read_signed_number(tokens),
    }
}

/// A constant with its first place.
fn read_literal(tokens: &[Token]) -> Result<(OperandText, &[Token]), TokenFault<'_>>
    ensures reads { Gives (λ x. (x.0, x.1.now)) result (readers.literal_at tokens.now) }
    ensures shorter { IfOk result (λ x. length x.1.now < length tokens.now) }
{
    let [first, ..] = tokens else {
        return Err(Fault {
            kind: (),
            rest: tokens,
        });
    };
    let start = first.span();
    let (constant, rest) = read!(read_constant(tokens));
    let literal = LiteralText {
        start,
        ty: constant.ty,
        negative: constant.negative,
        number: constant.number,
    };
    Ok((OperandText::Literal(literal), rest))
}

/// What stands after a name: `(D)` or nothing.
fn read_named(name: Span, tokens: &[Token]) -> Result<(OperandText, &[Token]), TokenFault<'_>>
    ensures reads { Gives (λ x. (x.0, x.1.now)) result (readers.named_at name tokens.now) }
    ensures no_longer { IfOk result (λ x. length x.1.now ≤ length tokens.now) }
{
    match tokens {
        [Token::Mark(Mark::Open, _), rest @ ..] => {
            let (_, rest) = read_keyword(Keyword::Default, rest)?;
            let (_, rest) = read_mark(Mark::Close, rest)?;
            Ok((OperandText::Default(name), rest))
        }
        _ => Ok((OperandText::Name(name), tokens)),
    }
}

/// An operand.
pub(crate) fn read_operand(tokens: &[Token]) -> Result<(OperandText, &[Token]), TokenFault<'_>>
    ensures reads { Gives (λ x. (x.0, x.1.now)) result (readers.operand_at tokens.now) }
    ensures shorter { IfOk result (λ x. length x.1.now < length tokens.now) }
{
    match tokens {
        [Token::Identifier(name), rest @ ..] | [Token::Ssa(name), rest @ ..] => {
            read_named(*name, rest)
        }
        _ => read_literal(tokens),
    }
}
