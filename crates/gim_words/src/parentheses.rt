//! What stands in parentheses and is dropped: any tokens whose parentheses pair.

ghost use Rattle.std.specs.Prelude.{◌≡◌, ◌<◌, length, IfOk};
ghost use Rattle.grammar.specs.Gives.{Gives};
ghost use Rattle.grammar.specs.Exact.{IsExact};
ghost use Rattle.gim_words.specs.Parentheses.{Closing};
ghost use Rattle.gim_words.specs.Tokens.{GoesOnNothing};
ghost use Rattle.gim_words.specs.TokenReaders.{closing_at};

use gim_text::{Mark, Token, TokenFault};
use grammar::Fault;
use pm_places::Span;

/// The place of the `)` that closes what was opened before these tokens, after tokens whose parentheses pair.
#[tactic(auto, using(crate::proofs::BalancedExact::closing_exact))]
pub fn read_closing(tokens: &[Token]) -> Result<(Span, &[Token]), TokenFault<'_>>
    ensures reads { Gives (λ x. (x.0, x.1.now)) result (closing_at tokens.now) }
    // What is read pairs, as far as the `)` that closes what was opened before, and a fault is the first.
    ensures exact { IsExact Closing GoesOnNothing tokens.now (closing_at tokens.now) }
    ensures shorter { IfOk result (λ x. length x.1.now < length tokens.now) }
{
    let mut depth: usize = 0;
    let mut rest = tokens;
    while let [first, after @ ..] = rest {
        match first {
            Token::Mark(Mark::Open, _) => depth += 1,
            Token::Mark(Mark::Close, at) if depth == 0 => return Ok((*at, after)),
            Token::Mark(Mark::Close, _) => depth -= 1,
            _ => {}
        }
        rest = after;
    }
    Err(Fault { kind: (), rest })
}
