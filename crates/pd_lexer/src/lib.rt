//! The tokens of pattern text, each as long as it can be, with their places.
//!
//! At a place there begins a directive line (`directives`), what separates tokens, or a token
//! (`tokens`): a word, a number (`numbers`), a capture, a text or a mark (`marks`). `levels` keeps
//! which `#if` are open, so which parts are taken; `pieces` says what begins at a place, and `lex`
//! goes from one piece to the next. `laws` has what holds of all tokens of a source.
#![tactic(auto)]

mod directives;
pub mod laws;
mod levels;
mod marks;
mod numbers;
mod pieces;
mod token;
mod tokens;

ghost use Rattle.std.specs.Prelude.{◌≡◌, ◌≤◌, ◌++◌, IfOk, IfErr, OnOk, MatchResult, List, length};
ghost use Rattle.std.specs.Prelude.{if◌then◌else◌};
ghost use Rattle.pd_lexer.specs.declared.token.Token.{Token};
ghost use Rattle.pm_ops.specs.Faults.{memory_fault};
ghost use Rattle.pd_lexer.specs.Cuts.{AreTokens, token_of};
ghost use Rattle.pd_lexer.specs.Faults.{IsCause};
ghost use Rattle.pd_lexer.specs.Levels.{levels_of};
ghost use Rattle.pd_lexer.specs.Pieces.{directive_fault, levels_after};
ghost use Rattle.pd_lexer.specs.Unended.{outermost_after, EndsAll};

use levels::Nest;
pub use numbers::number_value;
use pieces::{Piece, directive_fault, piece_at};
use pm_ops::PatternFault;
use std::alloc::{AllocError, AllocFailed, Global};
pub use token::{Token, TokenKind};

/// Keeps the token of a piece.
fn keep(tokens: &mut Vec<Token>, piece: Piece) -> Result<(), AllocFailed<Token>>
    ensures { OnOk result (tokens.new.items ≡ tokens.old.items ++ token_of piece) }
{
    if let Piece::Token(token) = piece {
        tokens.push(token)?;
    }
    Ok(())
}

/// Goes to the levels behind a piece.
fn pass(nest: &mut Nest, piece: Piece) -> Result<(), AllocError>
    ensures { OnOk result (levels_of nest.new ≡ levels_after (levels_of nest.old) piece) }
{
    match piece {
        Piece::If(holds, _) => nest.open(holds),
        Piece::Else(_) => {
            nest.turn();
            Ok(())
        }
        Piece::EndIf(_) => {
            nest.close();
            Ok(())
        }
        _ => Ok(()),
    }
}

/// Where the outermost `#if` that is open stands, behind a piece.
fn outermost_after(nest: &Nest, piece: Piece, before: usize) -> usize
    ensures { result ≡ outermost_after (levels_of nest.now) piece before }
{
    match piece {
        Piece::If(_, line) if nest.is_ground() => line.from,
        _ => before,
    }
}

/// Whether each `#if` that is open before a place is ended behind it.
fn is_ended(source: &[u8], mut nest: Nest, mut at: usize) -> Result<bool, AllocError>
    requires { at ≤ length source.now }
    ensures { IfOk result (EndsAll source.now (levels_of nest) at) }
{
    while at < source.len() {
        if nest.is_ground() {
            return Ok(true);
        }
        let piece = piece_at(source, &nest, at);
        pass(&mut nest, piece)?;
        at = piece.end();
    }
    Ok(nest.is_ground())
}

/// The first of a fault and of the outermost `#if` before it, by whether this is ended.
fn earlier(ended: bool, fault: PatternFault, outermost: usize) -> PatternFault
    ensures { result ≡ if ended then fault else directive_fault outermost }
{
    if ended {
        fault
    } else {
        directive_fault(outermost)
    }
}

/// The tokens of a source, which is pattern text as GCC's `match.pd` has it.
///
/// A fault is the first one in the order of the file: `BadByte` where no token begins, `OpenComment`
/// and `OpenString` at a `/*` or `"` without its end, `LongNumber` at a number above 2^63 - 1, and
/// `Directive` at the `#` of a line that is no known directive, of an `#else` or `#endif` out of
/// place, and of an `#if` that isn't ended. So behind another fault the source is looked through
/// for what ends the `#if` that are open. `Memory` is no fault of the source.
pub fn lex(alloc: Global, source: &[u8]) -> Result<Vec<Token>, PatternFault>
    // What is answered are the tokens of the source.
    ensures found { IfOk result (λ tokens. AreTokens source.now tokens.items) }
    // A source that has tokens is not refused, unless memory runs out.
    ensures only { (tokens : List Token) → AreTokens source.now tokens →
        MatchResult result (λ found. found.items ≡ tokens) (λ fault. fault ≡ memory_fault) }
    // Else the fault is the first one of the source.
    ensures fault { IfErr result (IsCause source.now) }
{
    let mut tokens = Vec::new(alloc);
    let mut nest = Nest::ground(alloc);
    let mut outermost = 0;
    let mut at = 0;
    while at < source.len() {
        let piece = piece_at(source, &nest, at);
        if let Piece::Fault(fault, to) = piece {
            let ended = is_ended(source, nest, to)?;
            return Err(earlier(ended, fault, outermost));
        }
        keep(&mut tokens, piece)?;
        outermost = outermost_after(&nest, piece, outermost);
        pass(&mut nest, piece)?;
        at = piece.end();
    }
    if !nest.is_ground() {
        return Err(directive_fault(outermost));
    }
    Ok(tokens)
}
