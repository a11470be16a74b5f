//! One function: its head, its parameters and its body.

ghost use Rattle.std.specs.Prelude.{◌≡◌, ◌<◌, ◌≤◌, length, IfOk};
ghost use Rattle.grammar.specs.Gives.{Gives, GivesInMemory};
ghost use Rattle.gim_statements.specs.BlockReaders.{block_at};
ghost use Rattle.gim_syntax.specs.Readers as readers;
ghost use Rattle.grammar.specs.Reading.{and_item, first_is};
ghost use Rattle.gim_syntax.specs.Readers.{head_at, params_between_at, blocks_at, body_at, function_at};

use crate::declarations::{read_decls, read_params};
use crate::options::read_options;
use gim_statements::read_block;
use gim_text::{BlockText, DeclText, FunctionText, Keyword, Mark, Token, TokenFault, TokenStop};
use gim_words::{read_keyword, read_mark, read_name, read_type};
use grammar::Stop;
use pm_items::Items;
use pm_places::Span;
use pm_wide::IntType;
use std::alloc::Global;

/// What stands before the parameters.
#[derive(Clone, Copy)]
pub(crate) struct Head {
    result: IntType,
    name: Span,
}

/// What stands after the parameters.
#[derive(Drop)]
pub(crate) struct Body {
    decls: Items<DeclText>,
    blocks: Items<BlockText>,
    close: Span,
}

/// The type of the result, the option list and the name.
fn read_head(tokens: &[Token]) -> Result<(Head, &[Token]), TokenFault<'_>>
    ensures reads { Gives (λ x. (x.0, x.1.now)) result (head_at tokens.now) }
    ensures shorter { IfOk result (λ x. length x.1.now < length tokens.now) }
{
    // A result with an `IntType` beside a slice is matched: the borrow checker has no rule for `?` on it.
    let (result, rest) = match read_type(tokens) {
        Ok(read) => read,
        Err(fault) => return Err(fault),
    };
    let (_, rest) = read_keyword(Keyword::Gimple, rest)?;
    let (_, rest) = read_mark(Mark::Open, rest)?;
    let (_, rest) = read_options(rest)?;
    let (name, rest) = read_name(rest)?;
    Ok((Head { result, name }, rest))
}

/// The parameters with their parentheses.
fn read_params_between(
    alloc: Global,
    tokens: &[Token],
) -> Result<(Items<DeclText>, &[Token]), TokenStop<'_>>
    ensures reads { GivesInMemory (λ x. (x.0, x.1.now)) result (params_between_at tokens.now) }
    ensures shorter { IfOk result (λ x. length x.1.now < length tokens.now) }
{
    let (_, rest) = read_mark(Mark::Open, tokens)?;
    let (params, rest) = read_params(alloc, rest)?;
    let (_, rest) = read_mark(Mark::Close, rest)?;
    Ok((params, rest))
}

/// A block, put at the end of `blocks`; the tokens after it.
fn take_block<'a>(
    alloc: Global,
    blocks: &mut Items<BlockText>,
    tokens: &'a [Token],
) -> Result<&'a [Token], TokenStop<'a>>
    ensures reads { GivesInMemory (λ x. (blocks.new, x.now)) result (and_item blocks.old (block_at tokens.now)) }
    ensures shorter { IfOk result (λ x. length x.now < length tokens.now) }
{
    let (block, rest) = read_block(alloc, tokens)?;
    blocks.push(block)?;
    Ok(rest)
}

/// Whether a block begins here.
fn begins_block(tokens: &[Token]) -> bool
    ensures { result ≡ first_is readers.begins_block tokens.now }
{
    match tokens {
        [Token::Keyword(Keyword::Block, _), ..] => true,
        _ => false,
    }
}

/// The blocks: as many as begin with `__BB`.
fn read_blocks(
    alloc: Global,
    tokens: &[Token],
) -> Result<(Items<BlockText>, &[Token]), TokenStop<'_>>
    ensures reads { GivesInMemory (λ x. (x.0, x.1.now)) result (blocks_at tokens.now) }
    ensures no_longer { IfOk result (λ x. length x.1.now ≤ length tokens.now) }
{
    let mut found = Items::new(alloc);
    let mut rest = tokens;
    while begins_block(rest) {
        rest = take_block(alloc, &mut found, rest)?;
    }
    Ok((found, rest))
}

/// The locals and the blocks with their braces.
fn read_body(alloc: Global, tokens: &[Token]) -> Result<(Body, &[Token]), TokenStop<'_>>
    ensures reads { GivesInMemory (λ x. (x.0, x.1.now)) result (body_at tokens.now) }
    ensures shorter { IfOk result (λ x. length x.1.now < length tokens.now) }
{
    let (_, rest) = read_mark(Mark::OpenBrace, tokens)?;
    let (decls, rest) = read_decls(alloc, rest)?;
    let (blocks, rest) = read_blocks(alloc, rest)?;
    let (close, rest) = read_mark(Mark::CloseBrace, rest)?;
    let body = Body {
        decls,
        blocks,
        close,
    };
    Ok((body, rest))
}

/// The function of these parts.
fn function_of(head: Head, params: Items<DeclText>, body: Body) -> FunctionText
    ensures { result ≡ readers.function_of head params body }
{
    let Body {
        decls,
        blocks,
        close,
    } = body;
    FunctionText {
        result: head.result,
        name: head.name,
        params,
        decls,
        blocks,
        close,
    }
}

/// A function, put at the end of `functions`; the tokens after it.
pub(crate) fn take_function<'a>(
    alloc: Global,
    functions: &mut Items<FunctionText>,
    tokens: &'a [Token],
) -> Result<&'a [Token], TokenStop<'a>>
    ensures reads { GivesInMemory (λ x. (functions.new, x.now)) result (and_item functions.old (function_at tokens.now)) }
    ensures shorter { IfOk result (λ x. length x.now < length tokens.now) }
{
    let (head, rest) = match read_head(tokens) {
        Ok(read) => read,
        Err(fault) => return Err(Stop::Fault(fault)),
    };
    let (params, rest) = read_params_between(alloc, rest)?;
    let (body, rest) = read_body(alloc, rest)?;
    functions.push(function_of(head, params, body))?;
    Ok(rest)
}
