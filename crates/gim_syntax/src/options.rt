//! The option list after `__GIMPLE`: any tokens whose parentheses pair, with `ssa` among them outside inner
//! parentheses. It is dropped.

ghost use Rattle.std.specs.Prelude.{◌<◌, length, IfOk};
ghost use Rattle.grammar.specs.Gives.{Gives};
ghost use Rattle.gim_syntax.specs.Readers.{ssa_at, options_at};

use gim_text::{Mark, Token, TokenFault};
use gim_words::read_closing;
use grammar::Fault;
use pm_places::Span;

/// The first `ssa` outside inner parentheses, and the tokens after it.
fn read_ssa(tokens: &[Token]) -> Result<(Span, &[Token]), TokenFault<'_>>
    ensures reads { Gives (λ x. (x.0, x.1.now)) result (ssa_at tokens.now) }
    ensures shorter { IfOk result (λ x. length x.1.now < length tokens.now) }
{
    let mut depth: usize = 0;
    let mut rest = tokens;
    while let [first, after @ ..] = rest {
        match first {
            Token::Mark(Mark::Open, _) => depth += 1,
            Token::Mark(Mark::Close, _) if depth == 0 => {
                return Err(Fault { kind: (), rest });
            }
            Token::Mark(Mark::Close, _) => depth -= 1,
            Token::Ssa(at) if depth == 0 => return Ok((*at, after)),
            _ => {}
        }
        rest = after;
    }
    Err(Fault { kind: (), rest })
}

/// The `)` that closes the list, from behind its `(` on.
pub(crate) fn read_options(tokens: &[Token]) -> Result<(Span, &[Token]), TokenFault<'_>>
    ensures reads { Gives (λ x. (x.0, x.1.now)) result (options_at tokens.now) }
    ensures shorter { IfOk result (λ x. length x.1.now < length tokens.now) }
{
    let (_, rest) = read_ssa(tokens)?;
    read_closing(rest)
}
