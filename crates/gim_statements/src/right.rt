//! Right sides.

ghost use Rattle.std.specs.Prelude.{◌≡◌, ◌<◌, ◌≤◌, length, IfOk};
ghost use Rattle.grammar.specs.Gives.{Gives};
ghost use Rattle.gim_statements.specs.RightReaders as readers;

use crate::operand::read_operand;
use crate::words::infix_code;
use gim_text::{Keyword, Mark, OperandText, RightForm, RightText, Token, TokenFault};
use gim_words::{read_mark, read_type};
use grammar::Fault;
use pm_ops::Code;

/// What stands after `-`, `~`, `__ABS` or `__ABSU`.
fn read_prefixed(code: Code, tokens: &[Token]) -> Result<(RightForm, &[Token]), TokenFault<'_>>
    ensures reads { Gives (λ x. (x.0, x.1.now)) result (readers.prefixed_at code tokens.now) }
    ensures shorter { IfOk result (λ x. length x.1.now < length tokens.now) }
{
    let (operand, rest) = read!(read_operand(tokens));
    Ok((RightForm::Unary(code, operand), rest))
}

/// What stands after the `(` of a cast.
fn read_cast(tokens: &[Token]) -> Result<(RightForm, &[Token]), TokenFault<'_>>
    ensures reads { Gives (λ x. (x.0, x.1.now)) result (readers.cast_at tokens.now) }
    ensures shorter { IfOk result (λ x. length x.1.now < length tokens.now) }
{
    let (ty, rest) = read!(read_type(tokens));
    let (_, rest) = read_mark(Mark::Close, rest)?;
    let (operand, rest) = read!(read_operand(rest));
    Ok((RightForm::Cast(ty, operand), rest))
}

/// What stands after `__MIN` or `__MAX`.
fn read_call(code: Code, tokens: &[Token]) -> Result<(RightForm, &[Token]), TokenFault<'_>>
    ensures reads { Gives (λ x. (x.0, x.1.now)) result (readers.call_at code tokens.now) }
    ensures shorter { IfOk result (λ x. length x.1.now < length tokens.now) }
{
    let (_, rest) = read_mark(Mark::Open, tokens)?;
    let (left, rest) = read!(read_operand(rest));
    let (_, rest) = read_mark(Mark::Comma, rest)?;
    let (right, rest) = read!(read_operand(rest));
    let (_, rest) = read_mark(Mark::Close, rest)?;
    Ok((RightForm::Binary(code, left, right), rest))
}

/// What stands after `c ?`.
fn read_choice(
    condition: OperandText,
    tokens: &[Token],
) -> Result<(RightForm, &[Token]), TokenFault<'_>>
    ensures reads { Gives (λ x. (x.0, x.1.now)) result (readers.choice_at condition tokens.now) }
    ensures shorter { IfOk result (λ x. length x.1.now < length tokens.now) }
{
    let (then, rest) = read!(read_operand(tokens));
    let (_, rest) = read_mark(Mark::Colon, rest)?;
    let (otherwise, rest) = read!(read_operand(rest));
    Ok((RightForm::Choice(condition, then, otherwise), rest))
}

/// What stands after a first operand: an operator and a second operand, the rest of a choice, or nothing.
fn read_continued(
    left: OperandText,
    tokens: &[Token],
) -> Result<(RightForm, &[Token]), TokenFault<'_>>
    ensures reads { Gives (λ x. (x.0, x.1.now)) result (readers.continued_at left tokens.now) }
    ensures no_longer { IfOk result (λ x. length x.1.now ≤ length tokens.now) }
{
    match tokens {
        [] => Ok((RightForm::Copy(left), tokens)),
        [Token::Mark(Mark::Question, _), rest @ ..] => read_choice(left, rest),
        [first, rest @ ..] => match infix_code(*first) {
            None => Ok((RightForm::Copy(left), tokens)),
            Some(code) => {
                let (right, rest) = read!(read_operand(rest));
                Ok((RightForm::Binary(code, left, right), rest))
            }
        },
    }
}

/// A form that begins with an operand.
fn read_infix(tokens: &[Token]) -> Result<(RightForm, &[Token]), TokenFault<'_>>
    ensures reads { Gives (λ x. (x.0, x.1.now)) result (readers.infix_at tokens.now) }
    ensures shorter { IfOk result (λ x. length x.1.now < length tokens.now) }
{
    let (left, rest) = read!(read_operand(tokens));
    read_continued(left, rest)
}

/// A form of a right side. A number right after `-` is a negative constant.
fn read_form(tokens: &[Token]) -> Result<(RightForm, &[Token]), TokenFault<'_>>
    ensures reads { Gives (λ x. (x.0, x.1.now)) result (readers.form_at tokens.now) }
    ensures shorter { IfOk result (λ x. length x.1.now < length tokens.now) }
{
    match tokens {
        [Token::Mark(Mark::Minus, _), Token::Number(_, _), ..] => read_infix(tokens),
        [Token::Mark(Mark::Minus, _), rest @ ..] => read_prefixed(Code::Negate, rest),
        [Token::Mark(Mark::Tilde, _), rest @ ..] => read_prefixed(Code::BitNot, rest),
        [Token::Mark(Mark::Open, _), rest @ ..] => read_cast(rest),
        [Token::Keyword(Keyword::Abs, _), rest @ ..] => read_prefixed(Code::Abs, rest),
        [Token::Keyword(Keyword::Absu, _), rest @ ..] => read_prefixed(Code::Absu, rest),
        [Token::Keyword(Keyword::Min, _), rest @ ..] => read_call(Code::Min, rest),
        [Token::Keyword(Keyword::Max, _), rest @ ..] => read_call(Code::Max, rest),
        _ => read_infix(tokens),
    }
}

/// A right side.
pub(crate) fn read_right(tokens: &[Token]) -> Result<(RightText, &[Token]), TokenFault<'_>>
    ensures reads { Gives (λ x. (x.0, x.1.now)) result (readers.right_at tokens.now) }
    ensures shorter { IfOk result (λ x. length x.1.now < length tokens.now) }
{
    let [first, ..] = tokens else {
        return Err(Fault {
            kind: (),
            rest: tokens,
        });
    };
    let start = first.span();
    let (form, rest) = read!(read_form(tokens));
    Ok((RightText { start, form }, rest))
}
