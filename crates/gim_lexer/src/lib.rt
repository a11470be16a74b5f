//! The tokens of GIMPLE text, each as long as it can be, with their places.
//!
//! At a place there begins a separator (`separators`) or a token (`tokens`): a word (`words`), a number (`numbers`), a
//! text or a mark (`marks`). `pieces` says which, and `lex` goes from one to the next. `laws` has what holds of all tokens
//! of a source.
#![tactic(auto)]

pub mod laws;
mod marks;
mod numbers;
mod pieces;
mod separators;
mod tokens;
mod words;

ghost use Rattle.std.specs.Prelude.{◌≡◌, IfOk, IfErr, MatchResult, List};
ghost use Rattle.gim_text.specs.declared.token.Token.{Token};
ghost use Rattle.gim_text.specs.Faults.{memory_fault};
ghost use Rattle.gim_lexer.specs.Cuts.{AreTokens};
ghost use Rattle.gim_lexer.specs.Faults.{lex_fault, IsCause};

use gim_text::{GimpleFault, GimpleKind, Token};
use lexing::Piece;
use pm_places::Span;
use std::alloc::Global;

/// A fault at a place where nothing begins.
fn lex_fault(at: usize) -> GimpleFault
    ensures { result ≡ lex_fault at }
{
    GimpleFault::at(GimpleKind::Lex, Span { from: at, to: at })
}

/// The tokens of a source.
pub fn lex(alloc: Global, source: &[u8]) -> Result<Vec<Token>, GimpleFault>
    // What is answered are the tokens of the source.
    ensures found { IfOk result (λ tokens. AreTokens source.now tokens.items) }
    // A source that has tokens is not refused, unless memory runs out.
    ensures only { (tokens : List Token) → AreTokens source.now tokens →
        MatchResult result (λ found. found.items ≡ tokens) (λ fault. fault ≡ memory_fault) }
    // Else the fault is at the first place where nothing begins.
    ensures fault { IfErr result (IsCause source.now) }
{
    let mut tokens = Vec::new(alloc);
    let mut at = 0;
    while at < source.len() {
        let Some(piece) = pieces::piece_at(source, at) else {
            return Err(lex_fault(at));
        };
        match piece {
            Piece::Separator(to) => at = to,
            Piece::Token(token) => {
                tokens.push(token)?;
                at = token.span().to;
            }
        }
    }
    Ok(tokens)
}
