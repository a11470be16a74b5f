//! Blocks.

ghost use Rattle.std.specs.Prelude.{◌≡◌, ◌<◌, ◌≤◌, length, IfOk};
ghost use Rattle.grammar.specs.Exact.{IsExact};
ghost use Rattle.grammar.specs.Gives.{Gives, GivesInMemory};
ghost use Rattle.grammar.specs.Reading.{first_is};
ghost use Rattle.gim_statements.specs.Grammar.{SpellsBlock, GoesOnBlock};
ghost use Rattle.gim_statements.specs.BlockReaders as readers;

use crate::end::read_end;
use crate::item::read_item;
use gim_text::{BlockText, ItemText, Keyword, Mark, Token, TokenFault, TokenStop};
use gim_words::{read_closing, read_keyword, read_mark, read_plain_number};
use pm_items::Items;
use pm_places::Span;
use std::alloc::Global;

/// What stands after the number of a block: a note that is dropped, if there is one, and `)`.
fn read_note(tokens: &[Token]) -> Result<(Span, &[Token]), TokenFault<'_>>
    ensures reads { Gives (λ x. (x.0, x.1.now)) result (readers.note_at tokens.now) }
    ensures shorter { IfOk result (λ x. length x.1.now < length tokens.now) }
{
    match tokens {
        [Token::Mark(Mark::Comma, _), rest @ ..] => read_closing(rest),
        _ => read_mark(Mark::Close, tokens),
    }
}

/// Whether a name begins a further item.
fn begins_item(tokens: &[Token]) -> bool
    ensures { result ≡ first_is readers.begins_item tokens.now }
{
    match tokens {
        [Token::Identifier(_), ..] | [Token::Ssa(_), ..] => true,
        _ => false,
    }
}

/// The phis and statements from here on, as many as there are.
fn read_items(alloc: Global, tokens: &[Token]) -> Result<(Items<ItemText>, &[Token]), TokenStop<'_>>
    ensures reads { GivesInMemory (λ x. (x.0, x.1.now)) result (readers.items_at tokens.now) }
    ensures no_longer { IfOk result (λ x. length x.1.now ≤ length tokens.now) }
{
    let mut items = Items::new(alloc);
    let mut rest = tokens;
    while begins_item(rest) {
        let (item, after) = read!(read_item(alloc, rest));
        items.push(item)?;
        rest = after;
    }
    Ok((items, rest))
}

/// A block, from `__BB` to its end, and the tokens after it. A fault stands at the first token with which the tokens
/// so far begin no block.
#[tactic(auto, using(crate::proofs::BlocksExact::block_exact))]
pub fn read_block(alloc: Global, tokens: &[Token]) -> Result<(BlockText, &[Token]), TokenStop<'_>>
    ensures reads { GivesInMemory (λ x. (x.0, x.1.now)) result (readers.block_at tokens.now) }
    // What is read is the longest block there, and a fault is the first.
    ensures exact { IsExact SpellsBlock GoesOnBlock tokens.now (readers.block_at tokens.now) }
    ensures shorter { IfOk result (λ x. length x.1.now < length tokens.now) }
{
    let (head, rest) = read_keyword(Keyword::Block, tokens)?;
    let (_, rest) = read_mark(Mark::Open, rest)?;
    let (number, rest) = read_plain_number(rest)?;
    let (_, rest) = read_note(rest)?;
    let (_, rest) = read_mark(Mark::Colon, rest)?;
    let (items, rest) = read!(read_items(alloc, rest));
    let (end, rest) = read!(read_end(rest));
    let block = BlockText {
        head,
        number,
        items,
        end,
    };
    Ok((block, rest))
}
