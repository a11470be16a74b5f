//! From tokens to their meanings.

ghost use Rattle.std.specs.Prelude.{◌≡◌, map, IfOk};
ghost use Rattle.pd_text.specs.Symbols.{word_of, mark_of, identifier_of, punctuation_of, symbol_of};

use crate::symbol::{Capture, Mark, Symbol, Word};
use lexing::{Row, beside};
use pd_lexer::{Token, TokenKind};
use pm_ops::OutOfMemory;
use pm_places::{Span, text};
use std::alloc::Global;

/// The words that grammars quote.
const WORDS: [Row<Word>; 21] = [
    ("simplify", Word::Simplify),
    ("match", Word::Match),
    ("for", Word::For),
    ("if", Word::If),
    ("switch", Word::Switch),
    ("with", Word::With),
    ("define_operator_list", Word::OperatorList),
    ("define_predicates", Word::Predicates),
    ("tree", Word::Tree),
    ("wide_int", Word::WideInt),
    ("bool", Word::Boolean),
    ("int", Word::Int),
    ("unsigned", Word::Unsigned),
    ("signop", Word::Signop),
    ("tree_code", Word::TreeCode),
    ("wi", Word::Wide),
    ("overflow_type", Word::OverflowType),
    ("add", Word::Add),
    ("sub", Word::Subtract),
    ("mul", Word::Multiply),
    ("neg", Word::Negate),
];

/// The marks.
const MARKS: [Row<Mark>; 30] = [
    ("(", Mark::Open),
    (")", Mark::Close),
    ("{", Mark::OpenBrace),
    ("}", Mark::CloseBrace),
    (",", Mark::Comma),
    (";", Mark::Semicolon),
    (":", Mark::Colon),
    ("::", Mark::DoubleColon),
    ("?", Mark::Question),
    ("!", Mark::Exclamation),
    ("~", Mark::Tilde),
    ("&", Mark::Ampersand),
    ("&&", Mark::DoubleAmpersand),
    ("|", Mark::Bar),
    ("||", Mark::DoubleBar),
    ("^", Mark::Caret),
    ("+", Mark::Plus),
    ("-", Mark::Minus),
    ("*", Mark::Star),
    ("/", Mark::Slash),
    ("%", Mark::Percent),
    ("=", Mark::Assign),
    ("==", Mark::Equal),
    ("!=", Mark::NotEqual),
    ("<", Mark::Less),
    (">", Mark::Greater),
    ("<=", Mark::LessEqual),
    (">=", Mark::GreaterEqual),
    ("<<", Mark::ShiftLeft),
    (">>", Mark::ShiftRight),
];

/// The word with these bytes.
fn word(bytes: &[u8]) -> Option<Word>
    ensures { result ≡ word_of bytes.now }
{
    beside(&WORDS, bytes)
}

/// The mark with these bytes.
fn mark(bytes: &[u8]) -> Option<Mark>
    ensures { result ≡ mark_of bytes.now }
{
    beside(&MARKS, bytes)
}

/// The symbol of an identifier.
fn identifier(bytes: &[u8], at: Span) -> Symbol
    ensures { result ≡ identifier_of bytes.now at }
{
    match word(bytes) {
        Some(found) => Symbol::Word(found, at),
        None => Symbol::Identifier(at),
    }
}

/// The symbol of a mark; bytes that are none mean nothing.
fn punctuation(bytes: &[u8], at: Span) -> Symbol
    ensures { result ≡ punctuation_of bytes.now at }
{
    match mark(bytes) {
        Some(found) => Symbol::Mark(found, at),
        None => Symbol::Odd(at),
    }
}

/// What a token of the source means.
#[tactic(auto, unfolding(crate::specs::Symbols::symbol_of))]
pub fn meaning(token: Token, source: &[u8]) -> Symbol
    ensures { result ≡ symbol_of source.now token }
{
    let at = token.span();
    match token.kind {
        TokenKind::Ident => identifier(text(source, at), at),
        TokenKind::Number => Symbol::Number(at),
        TokenKind::Capture => Symbol::Capture(Capture {
            at,
            by_value: false,
            joined: token.joined,
        }),
        TokenKind::ValueCapture => Symbol::Capture(Capture {
            at,
            by_value: true,
            joined: token.joined,
        }),
        TokenKind::Text => Symbol::Text(at),
        TokenKind::Punct => punctuation(text(source, at), at),
    }
}

/// What the tokens of the source mean, each for itself, in their order.
pub fn meanings(alloc: Global, tokens: &[Token], source: &[u8]) -> Result<Vec<Symbol>, OutOfMemory>
    ensures { IfOk result (λ found. found.items ≡ map (symbol_of source.now) tokens.now) }
{
    let mut found = Vec::new(alloc);
    for token in tokens {
        found.push(meaning(*token, source))?;
    }
    Ok(found)
}
