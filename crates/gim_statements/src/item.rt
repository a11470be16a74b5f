//! Phis and statements.

ghost use Rattle.std.specs.Prelude.{◌≡◌, ◌<◌, ◌≤◌, length, IfOk};
ghost use Rattle.grammar.specs.Gives.{Gives, GivesInMemory};
ghost use Rattle.grammar.specs.Reading.{first_is};
ghost use Rattle.gim_words.specs.TokenReaders.{is_comma};
ghost use Rattle.gim_statements.specs.ItemReaders as readers;

use crate::operand::read_operand;
use crate::right::read_right;
use gim_text::{ArgText, ItemText, Keyword, Mark, Token, TokenFault, TokenStop};
use gim_words::{read_block_word, read_mark, read_name};
use pm_items::Items;
use pm_places::Span;
use std::alloc::Global;

/// An argument of a phi.
fn read_arg(tokens: &[Token]) -> Result<(ArgText, &[Token]), TokenFault<'_>>
    ensures reads { Gives (λ x. (x.0, x.1.now)) result (readers.arg_at tokens.now) }
    ensures shorter { IfOk result (λ x. length x.1.now < length tokens.now) }
{
    let (from, rest) = read_block_word(tokens)?;
    let (_, rest) = read_mark(Mark::Colon, rest)?;
    let (operand, rest) = read!(read_operand(rest));
    Ok((ArgText { from, operand }, rest))
}

/// A comma and an argument.
fn read_further(tokens: &[Token]) -> Result<(ArgText, &[Token]), TokenFault<'_>>
    ensures reads { Gives (λ x. (x.0, x.1.now)) result (readers.further_arg_at tokens.now) }
    ensures shorter { IfOk result (λ x. length x.1.now < length tokens.now) }
{
    let (_, rest) = read_mark(Mark::Comma, tokens)?;
    read_arg(rest)
}

/// Whether a comma stands here.
fn begins_further(tokens: &[Token]) -> bool
    ensures { result ≡ first_is is_comma tokens.now }
{
    match tokens {
        [Token::Mark(Mark::Comma, _), ..] => true,
        _ => false,
    }
}

/// The arguments of a phi, one or more.
fn read_args(alloc: Global, tokens: &[Token]) -> Result<(Items<ArgText>, &[Token]), TokenStop<'_>>
    ensures reads { GivesInMemory (λ x. (x.0, x.1.now)) result (readers.args_at tokens.now) }
    ensures shorter { IfOk result (λ x. length x.1.now < length tokens.now) }
{
    let (first, mut rest) = read!(read_arg(tokens));
    let mut args = Items::new(alloc);
    args.push(first)?;
    while begins_further(rest) {
        let (arg, after) = read!(read_further(rest));
        args.push(arg)?;
        rest = after;
    }
    Ok((args, rest))
}

/// What stands after `name = __PHI`.
fn read_phi(
    alloc: Global,
    name: Span,
    tokens: &[Token],
) -> Result<(ItemText, &[Token]), TokenStop<'_>>
    ensures reads { GivesInMemory (λ x. (x.0, x.1.now)) result (readers.phi_at name tokens.now) }
    ensures shorter { IfOk result (λ x. length x.1.now < length tokens.now) }
{
    let (_, rest) = read_mark(Mark::Open, tokens)?;
    let (args, rest) = read!(read_args(alloc, rest));
    let (_, rest) = read_mark(Mark::Close, rest)?;
    let (_, rest) = read_mark(Mark::Semicolon, rest)?;
    Ok((ItemText::Phi(name, args), rest))
}

/// What stands after the `name =` of a statement.
fn read_statement(name: Span, tokens: &[Token]) -> Result<(ItemText, &[Token]), TokenStop<'_>>
    ensures reads { GivesInMemory (λ x. (x.0, x.1.now)) result (readers.statement_at name tokens.now) }
    ensures shorter { IfOk result (λ x. length x.1.now < length tokens.now) }
{
    let (right, rest) = read!(read_right(tokens));
    let (_, rest) = read_mark(Mark::Semicolon, rest)?;
    Ok((ItemText::Stmt(name, right), rest))
}

/// A phi or a statement.
pub(crate) fn read_item(
    alloc: Global,
    tokens: &[Token],
) -> Result<(ItemText, &[Token]), TokenStop<'_>>
    ensures reads { GivesInMemory (λ x. (x.0, x.1.now)) result (readers.item_at tokens.now) }
    ensures shorter { IfOk result (λ x. length x.1.now < length tokens.now) }
{
    let (name, rest) = read_name(tokens)?;
    let (_, rest) = read_mark(Mark::Assign, rest)?;
    match rest {
        [Token::Keyword(Keyword::Phi, _), rest @ ..] => read_phi(alloc, name, rest),
        _ => read_statement(name, rest),
    }
}
