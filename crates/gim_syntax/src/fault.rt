//! The fault of syntax: what the first offending token and those before it say.

ghost use Rattle.std.specs.Prelude.{◌≡◌, ◌-◌, take, length, List, [], ◌∷◌, IfOk, IfErr};
ghost use Rattle.gim_text.specs.declared.tree.FunctionText.{FunctionText};
ghost use Rattle.gim_syntax.specs.Grammar.{SpellsFile};
ghost use Rattle.gim_syntax.specs.SyntaxFaults as faults;

use crate::file::parse;
use gim_text::{FunctionText, GimpleFault, GimpleKind, Keyword, Mark, Token, identifier};
use grammar::Stop;
use pm_items::Items;
use pm_places::Span;
use std::alloc::Global;

/// What stands around the end of some tokens.
#[derive(Clone, Copy)]
pub(crate) struct Surroundings {
    /// Whether a parenthesis is open.
    inside: bool,
    /// The last token outside parentheses, which are not counted themselves.
    outer: Option<Token>,
    /// Whether it is after the head of a block, in the same body.
    in_block: bool,
}

/// The last token but one and the last.
fn last_two(front: &[Token]) -> (Option<Token>, Option<Token>)
    ensures { result ≡ faults.last_two front.now }
{
    let mut before = None;
    let mut last = None;
    let mut rest = front;
    while let [first, after @ ..] = rest {
        before = last;
        last = Some(*first);
        rest = after;
    }
    (before, last)
}

/// Whether a block stands open after this token, which is outside parentheses.
fn block_after(in_block: bool, token: Token) -> bool
    ensures { result ≡ faults.block_after in_block (token ∷ []) }
{
    match token {
        Token::Keyword(Keyword::Block, _) => true,
        Token::Mark(Mark::CloseBrace, _) => false,
        _ => in_block,
    }
}

/// What stands around the end of the tokens.
fn stands_after(front: &[Token]) -> Surroundings
    ensures inside { result.inside ≡ faults.is_open (faults.depth_after 0 front.now) }
    ensures outer { result.outer ≡ faults.last_after None (faults.outside_parentheses front.now) }
    ensures in_block { result.in_block ≡ faults.is_in_block front.now }
{
    let mut depth: usize = 0;
    let mut outer = None;
    let mut in_block = false;
    let mut rest = front;
    while let [first, after @ ..] = rest {
        match *first {
            Token::Mark(Mark::Open, _) => depth += 1,
            Token::Mark(Mark::Close, _) => depth = depth.saturating_sub(1),
            token if depth == 0 => {
                outer = Some(token);
                in_block = block_after(in_block, token);
            }
            _ => {}
        }
        rest = after;
    }
    Surroundings {
        inside: depth > 0,
        outer,
        in_block,
    }
}

/// The name before a `(`: an identifier that is not reserved.
fn called(before: Option<Token>, token: Option<Token>) -> Option<Span>
    ensures { result ≡ faults.called before token }
{
    match (before, token) {
        (Some(name), Some(Token::Mark(Mark::Open, _))) => identifier(name),
        _ => None,
    }
}

/// The place of an identifier, reserved or not.
fn any_word(token: Token) -> Option<Span>
    ensures { result ≡ faults.any_word token }
{
    match token {
        Token::TypeWord(_, at)
        | Token::Keyword(_, at)
        | Token::BlockWord(at)
        | Token::Ssa(at)
        | Token::Identifier(at) => Some(at),
        _ => None,
    }
}

/// The `__GIMPLE` of the list that the token closes, where it is the `)` of an option list.
fn closed_options(front: &[Token], token: Token, around: Surroundings) -> Option<Span>
    requires inside { around.inside ≡ faults.is_open (faults.depth_after 0 front.now) }
    requires outer { around.outer ≡ faults.last_after None (faults.outside_parentheses front.now) }
    ensures { result ≡ faults.closed_options front.now token }
{
    match (token, around.outer) {
        (Token::Mark(Mark::Close, _), Some(Token::Keyword(Keyword::Gimple, at))) if around.inside =>
            Some(at),
        _ => None,
    }
}

/// The name of what is not supported, if that is what offends.
fn unsupported(front: &[Token], token: Token) -> Option<Span>
    ensures { result ≡ faults.unsupported front.now token }
{
    let (before, last) = last_two(front);
    let around = stands_after(front);
    if let Some(name) = called(last, Some(token)) {
        return Some(name);
    }
    if around.in_block {
        if let Some(name) = called(before, last) {
            return Some(name);
        }
    }
    match any_word(token) {
        Some(word) => Some(word),
        None => closed_options(front, token, around),
    }
}

/// The fault at the first of `rest`, or at the end of the source where there is none.
fn syntax_fault(source_len: usize, front: &[Token], rest: &[Token]) -> GimpleFault
    ensures { result ≡ faults.syntax_fault source_len front.now rest.now }
{
    let [token, ..] = rest else {
        return GimpleFault {
            kind: GimpleKind::Syntax,
            at: source_len,
            len: 0,
        };
    };
    match unsupported(front, *token) {
        Some(name) => GimpleFault::at(GimpleKind::Unsupported, name),
        None => GimpleFault::at(GimpleKind::Syntax, token.span()),
    }
}

/// The tokens before so many at the end.
fn tokens_before(tokens: &[Token], rest: usize) -> &[Token]
    ensures { result.now ≡ take (length tokens.now - rest) tokens.now }
{
    &tokens[..tokens.len().saturating_sub(rest)]
}

/// The functions that the tokens of a file of `source_len` bytes spell, all of them, or the fault of syntax.
pub fn read_syntax(
    alloc: Global,
    source_len: usize,
    tokens: &[Token],
) -> Result<Items<FunctionText>, GimpleFault>
    // What is read is spelled so.
    ensures found { IfOk result (λ x. SpellsFile x tokens.now) }
    // What is spelled so is read, unless memory runs out.
    ensures only { (x : List FunctionText) → SpellsFile x tokens.now → faults.ReadsOrMemory result x }
    // A fault is that of the first offending token, or of the end.
    ensures fault { IfErr result (λ fault. faults.IsRefused source_len tokens.now fault fault.kind) }
{
    match parse(alloc, tokens) {
        Ok(functions) => Ok(functions),
        Err(Stop::Memory) => Err(GimpleFault::memory()),
        Err(Stop::Fault(fault)) => {
            let front = tokens_before(tokens, fault.rest.len());
            Err(syntax_fault(source_len, front, fault.rest))
        }
    }
}
