//! Readers of one token. A fault is at the token, or at the end where there is none.

ghost use Rattle.std.specs.Prelude.{◌≡◌, ◌<◌, length, IfOk};
ghost use Rattle.grammar.specs.Exact.{IsExact};
ghost use Rattle.grammar.specs.Gives.{Gives};
ghost use Rattle.grammar.specs.Spelling.{Meant};
ghost use Rattle.gim_text.specs.Meanings as meanings;
ghost use Rattle.gim_words.specs.Tokens.{plain_number, GoesOnNothing};
ghost use Rattle.gim_words.specs.TokenReaders as readers;

use gim_text::{
    Keyword, Mark, NumberKind, Token, TokenFault, block_word, identifier, keyword, mark, number,
};
use grammar::Fault;
use pm_places::Span;

/// What the first token means, and the tokens after it.
fn read_meant<'a>(
    meaning: Option<Span>,
    tokens: &'a [Token],
    rest: &'a [Token],
) -> Result<(Span, &'a [Token]), TokenFault<'a>>
    ensures reads { Gives (λ x. (x.0, x.1.now)) result (readers.meant_or tokens.now rest.now meaning) }
    ensures same_rest { IfOk result (λ x. x.1.now ≡ rest.now) }
{
    match meaning {
        Some(at) => Ok((at, rest)),
        None => Err(Fault {
            kind: (),
            rest: tokens,
        }),
    }
}

/// The place of this mark.
pub fn read_mark(asked: Mark, tokens: &[Token]) -> Result<(Span, &[Token]), TokenFault<'_>>
    ensures reads { Gives (λ x. (x.0, x.1.now)) result (readers.mark_at asked tokens.now) }
    ensures exact { IsExact (Meant (meanings.mark asked)) GoesOnNothing tokens.now (readers.mark_at asked tokens.now) }
    ensures shorter { IfOk result (λ x. length x.1.now < length tokens.now) }
{
    match tokens {
        [first, rest @ ..] => read_meant(mark(*first, asked), tokens, rest),
        [] => Err(Fault {
            kind: (),
            rest: tokens,
        }),
    }
}

/// The place of this reserved word.
pub fn read_keyword(asked: Keyword, tokens: &[Token]) -> Result<(Span, &[Token]), TokenFault<'_>>
    ensures reads { Gives (λ x. (x.0, x.1.now)) result (readers.keyword_at asked tokens.now) }
    ensures exact { IsExact (Meant (meanings.keyword asked)) GoesOnNothing tokens.now (readers.keyword_at asked tokens.now) }
    ensures shorter { IfOk result (λ x. length x.1.now < length tokens.now) }
{
    match tokens {
        [first, rest @ ..] => read_meant(keyword(*first, asked), tokens, rest),
        [] => Err(Fault {
            kind: (),
            rest: tokens,
        }),
    }
}

/// The place of an identifier that is not reserved.
#[tactic(auto, using(crate::proofs::TokensExact::name_exact))]
pub fn read_name(tokens: &[Token]) -> Result<(Span, &[Token]), TokenFault<'_>>
    ensures reads { Gives (λ x. (x.0, x.1.now)) result (readers.name_at tokens.now) }
    ensures exact { IsExact (Meant meanings.identifier) GoesOnNothing tokens.now (readers.name_at tokens.now) }
    ensures shorter { IfOk result (λ x. length x.1.now < length tokens.now) }
{
    match tokens {
        [first, rest @ ..] => read_meant(identifier(*first), tokens, rest),
        [] => Err(Fault {
            kind: (),
            rest: tokens,
        }),
    }
}

/// The place of `__BB` and a number in one word.
#[tactic(auto, using(crate::proofs::TokensExact::block_word_exact))]
pub fn read_block_word(tokens: &[Token]) -> Result<(Span, &[Token]), TokenFault<'_>>
    ensures reads { Gives (λ x. (x.0, x.1.now)) result (readers.block_word_at tokens.now) }
    ensures exact { IsExact (Meant meanings.block_word) GoesOnNothing tokens.now (readers.block_word_at tokens.now) }
    ensures shorter { IfOk result (λ x. length x.1.now < length tokens.now) }
{
    match tokens {
        [first, rest @ ..] => read_meant(block_word(*first), tokens, rest),
        [] => Err(Fault {
            kind: (),
            rest: tokens,
        }),
    }
}

/// The place of the token, if it is a number of digits alone.
fn plain_number(token: Token) -> Option<Span>
    ensures { result ≡ plain_number token }
{
    match number(token) {
        Some((NumberKind::Plain, at)) => Some(at),
        _ => None,
    }
}

/// The place of a number of digits alone.
#[tactic(auto, using(crate::proofs::TokensExact::plain_number_exact))]
pub fn read_plain_number(tokens: &[Token]) -> Result<(Span, &[Token]), TokenFault<'_>>
    ensures reads { Gives (λ x. (x.0, x.1.now)) result (readers.plain_number_at tokens.now) }
    ensures exact { IsExact (Meant plain_number) GoesOnNothing tokens.now (readers.plain_number_at tokens.now) }
    ensures shorter { IfOk result (λ x. length x.1.now < length tokens.now) }
{
    match tokens {
        [first, rest @ ..] => read_meant(plain_number(*first), tokens, rest),
        [] => Err(Fault {
            kind: (),
            rest: tokens,
        }),
    }
}
