//! What ends a block: a jump, a conditional jump or a return.

ghost use Rattle.std.specs.Prelude.{◌≡◌, ◌<◌, ◌≤◌, length, IfOk};
ghost use Rattle.grammar.specs.Gives.{Gives};
ghost use Rattle.grammar.specs.Reading.{meant_at};
ghost use Rattle.gim_statements.specs.Words as words;
ghost use Rattle.gim_statements.specs.BlockReaders as readers;

use crate::operand::read_operand;
use crate::words::comparison_code;
use gim_text::{EndText, Keyword, Mark, Token, TokenFault};
use gim_words::{read_block_word, read_closing, read_keyword, read_mark};
use grammar::Fault;
use pm_ops::Code;
use pm_places::Span;

/// What compares two operands.
fn read_comparison(tokens: &[Token]) -> Result<(Code, &[Token]), TokenFault<'_>>
    ensures reads { Gives (λ x. (x.0, x.1.now)) result (meant_at words.comparison_code tt tokens.now) }
    ensures shorter { IfOk result (λ x. length x.1.now < length tokens.now) }
{
    if let [first, rest @ ..] = tokens {
        if let Some(code) = comparison_code(*first) {
            return Ok((code, rest));
        }
    }
    Err(Fault {
        kind: (),
        rest: tokens,
    })
}

/// What stands after the block that a jump names: `;`, or a note in parentheses and `;`.
fn read_jump_end(tokens: &[Token]) -> Result<(Span, &[Token]), TokenFault<'_>>
    ensures reads { Gives (λ x. (x.0, x.1.now)) result (readers.jump_end_at tokens.now) }
    ensures shorter { IfOk result (λ x. length x.1.now < length tokens.now) }
{
    match tokens {
        [Token::Mark(Mark::Open, _), rest @ ..] => {
            let (_, rest) = read_closing(rest)?;
            read_mark(Mark::Semicolon, rest)
        }
        _ => read_mark(Mark::Semicolon, tokens),
    }
}

/// The block that a jump names.
fn read_jump(tokens: &[Token]) -> Result<(Span, &[Token]), TokenFault<'_>>
    ensures reads { Gives (λ x. (x.0, x.1.now)) result (readers.jump_at tokens.now) }
    ensures shorter { IfOk result (λ x. length x.1.now < length tokens.now) }
{
    let (_, rest) = read_keyword(Keyword::Goto, tokens)?;
    let (target, rest) = read_block_word(rest)?;
    let (_, rest) = read_jump_end(rest)?;
    Ok((target, rest))
}

/// What stands after `if`.
fn read_if(tokens: &[Token]) -> Result<(EndText, &[Token]), TokenFault<'_>>
    ensures reads { Gives (λ x. (x.0, x.1.now)) result (readers.if_at tokens.now) }
    ensures shorter { IfOk result (λ x. length x.1.now < length tokens.now) }
{
    let (_, rest) = read_mark(Mark::Open, tokens)?;
    let (left, rest) = read!(read_operand(rest));
    let (code, rest) = read_comparison(rest)?;
    let (right, rest) = read!(read_operand(rest));
    let (_, rest) = read_mark(Mark::Close, rest)?;
    let (then, rest) = read_jump(rest)?;
    let (_, rest) = read_keyword(Keyword::Else, rest)?;
    let (otherwise, rest) = read_jump(rest)?;
    Ok((EndText::If(code, left, right, then, otherwise), rest))
}

/// What stands after `return`.
fn read_return(tokens: &[Token]) -> Result<(EndText, &[Token]), TokenFault<'_>>
    ensures reads { Gives (λ x. (x.0, x.1.now)) result (readers.return_at tokens.now) }
    ensures shorter { IfOk result (λ x. length x.1.now < length tokens.now) }
{
    let (operand, rest) = read!(read_operand(tokens));
    let (_, rest) = read_mark(Mark::Semicolon, rest)?;
    Ok((EndText::Return(operand), rest))
}

/// What ends a block, if anything does.
pub(crate) fn read_end(tokens: &[Token]) -> Result<(Option<EndText>, &[Token]), TokenFault<'_>>
    ensures reads { Gives (λ x. (x.0, x.1.now)) result (readers.end_at tokens.now) }
    ensures no_longer { IfOk result (λ x. length x.1.now ≤ length tokens.now) }
{
    match tokens {
        [Token::Keyword(Keyword::Goto, _), ..] => {
            let (target, rest) = read_jump(tokens)?;
            Ok((Some(EndText::Goto(target)), rest))
        }
        [Token::Keyword(Keyword::If, _), rest @ ..] => {
            let (end, rest) = read!(read_if(rest));
            Ok((Some(end), rest))
        }
        [Token::Keyword(Keyword::Return, _), rest @ ..] => {
            let (end, rest) = read!(read_return(rest));
            Ok((Some(end), rest))
        }
        _ => Ok((None, tokens)),
    }
}
