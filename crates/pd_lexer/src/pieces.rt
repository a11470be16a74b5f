//! What begins at a place of a source.

ghost use Rattle.std.specs.Prelude.{◌≡◌, ◌≤◌, ◌<◌, ◌+◌, ◌^◌, length, drop};
ghost use Rattle.pd_lexer.specs.Directives.{hash_at};
ghost use Rattle.pd_lexer.specs.Levels.{levels_of};
ghost use Rattle.pd_lexer.specs.Pieces.{directive_fault, else_piece, end_piece, directive_piece};
ghost use Rattle.pd_lexer.specs.Pieces.{separator_length, is_capture, is_behind_word, is_long};
ghost use Rattle.pd_lexer.specs.Pieces.{token_piece, no_token_piece, token_or_fault, taken_piece};
ghost use Rattle.pd_lexer.specs.Pieces.{piece_at, end_of};

use crate::directives::{Directive, directive_of, hash_at};
use crate::levels::Nest;
use crate::numbers::number_value;
use crate::token::{Token, TokenKind};
use crate::tokens::token_front;
use lexing::{begins_with_space, comment_len, is_word_byte, line_len};
use pm_ops::{PatternFault, PatternKind};
use pm_places::Span;

/// What begins at a place.
#[derive(Clone, Copy)]
pub(crate) enum Piece {
    /// What separates tokens, or isn't taken, with the place where it ends.
    Separator(usize),
    Token(Token),
    /// An `#if`, with whether its condition holds, and its line from the `#` on.
    If(bool, Span),
    /// The `#else` of the level.
    Else(Span),
    /// The `#endif` of the level.
    EndIf(Span),
    /// A fault, with the place where the source goes on.
    Fault(PatternFault, usize),
}

/// A fault without bytes.
fn fault_at(kind: PatternKind, at: usize) -> PatternFault
    ensures { result ≡ record { kind = kind; at = at; len = 0 } }
{
    PatternFault { kind, at, len: 0 }
}

/// A directive line that is unknown or out of place, or an `#if` that isn't ended.
pub(crate) fn directive_fault(hash: usize) -> PatternFault
    ensures { result ≡ directive_fault hash }
{
    fault_at(PatternKind::Directive, hash)
}

/// An `#else`, where the level may have one.
fn else_piece(other: Option<bool>, line: Span) -> Piece
    ensures { result ≡ else_piece other line }
{
    match other {
        Some(_) => Piece::Else(line),
        None => Piece::Fault(directive_fault(line.from), line.to),
    }
}

/// An `#endif`, where an `#if` is open.
fn end_piece(nest: &Nest, line: Span) -> Piece
    ensures { result ≡ end_piece (levels_of nest.now).outer line }
{
    if nest.is_ground() {
        Piece::Fault(directive_fault(line.from), line.to)
    } else {
        Piece::EndIf(line)
    }
}

/// The directive line whose `#` stands at the place.
fn directive_piece(source: &[u8], nest: &Nest, hash: usize) -> Piece
    requires { hash ≤ length source.now }
    ensures { result ≡ directive_piece source.now (levels_of nest.now) hash }
{
    let (_, text) = source.split_at(hash);
    let line = Span {
        from: hash,
        to: hash + line_len(text),
    };
    match directive_of(text) {
        Some(Directive::If(holds)) => Piece::If(holds, line),
        Some(Directive::Else) => else_piece(nest.inner.other, line),
        Some(Directive::EndIf) => end_piece(nest, line),
        None => Piece::Fault(directive_fault(hash), line.to),
    }
}

/// How many bytes a separator has that begins here.
#[tactic(auto, unfolding(crate::specs::Pieces::separator_length))]
fn separator_len(text: &[u8]) -> Option<usize>
    ensures { result ≡ separator_length text.now }
{
    if begins_with_space(text) {
        Some(1)
    } else if text.starts_with(b"//") {
        Some(line_len(text))
    } else {
        comment_len(text)
    }
}

/// Whether the kind is one of captures.
fn is_capture(kind: TokenKind) -> bool
    ensures { result ≡ is_capture kind }
{
    match kind {
        TokenKind::Capture | TokenKind::ValueCapture => true,
        _ => false,
    }
}

/// Whether the place is right behind a letter, a digit, `_` or `?`.
#[tactic(auto, unfolding(crate::specs::Pieces::is_behind_word))]
fn is_behind_word(source: &[u8], at: usize) -> bool
    requires { at ≤ length source.now }
    ensures { result ≡ is_behind_word source.now at }
{
    at != 0 && (is_word_byte(source[at - 1]) || source[at - 1] == b'?')
}

/// Whether this is a number above 2^63 - 1.
fn is_long(kind: TokenKind, text: &[u8]) -> bool
    ensures { result ≡ is_long kind text.now }
{
    match kind {
        TokenKind::Number => number_value(text).is_none(),
        _ => false,
    }
}

/// The token of so many bytes.
fn token_piece(source: &[u8], at: usize, kind: TokenKind, len: usize) -> Piece
    requires { at + len ≤ length source.now }
    ensures { result ≡ token_piece source.now at kind len }
{
    let (_, text) = source.split_at(at);
    let (bytes, _) = text.split_at(len);
    if is_long(kind, bytes) {
        let fault = PatternFault {
            kind: PatternKind::LongNumber,
            at,
            len,
        };
        return Piece::Fault(fault, at + len);
    }
    Piece::Token(Token {
        kind,
        from: at,
        to: at + len,
        joined: is_capture(kind) && is_behind_word(source, at),
    })
}

/// The fault where no token begins.
fn no_token_piece(at: usize, text: &[u8]) -> Piece
    requires small { at + length text.now < 2 ^ 64 }
    requires some { 0 < length text.now }
    ensures { result ≡ no_token_piece at text.now }
{
    if text.starts_with(b"\"") {
        Piece::Fault(fault_at(PatternKind::OpenString, at), at + line_len(text))
    } else {
        Piece::Fault(fault_at(PatternKind::BadByte, at), at + 1)
    }
}

/// What begins at a place in a part that is taken.
#[tactic(auto, unfolding(crate::specs::Pieces::taken_piece))]
fn taken_piece(source: &[u8], at: usize) -> Piece
    requires { at < length source.now }
    ensures { result ≡ taken_piece source.now at }
{
    let (_, text) = source.split_at(at);
    if let Some(len) = separator_len(text) {
        return Piece::Separator(at + len);
    }
    if text.starts_with(b"/*") {
        return Piece::Fault(fault_at(PatternKind::OpenComment, at), source.len());
    }
    match token_front(text) {
        Some((kind, len)) => token_piece(source, at, kind, len),
        None => no_token_piece(at, text),
    }
}

/// What begins at the place.
#[tactic(auto, unfolding(crate::specs::Pieces::piece_at))]
pub(crate) fn piece_at(source: &[u8], nest: &Nest, at: usize) -> Piece
    requires { at < length source.now }
    ensures { result ≡ piece_at source.now (levels_of nest.now) at }
{
    match hash_at(source, at) {
        Some(hash) => directive_piece(source, nest, hash),
        None => {
            if nest.inner.taken {
                taken_piece(source, at)
            } else {
                Piece::Separator(at + 1)
            }
        }
    }
}

impl Piece {
    /// Where it ends.
    pub(crate) fn end(self) -> usize
        ensures { result ≡ end_of self }
    {
        match self {
            Piece::Separator(to) | Piece::Fault(_, to) => to,
            Piece::Token(token) => token.to,
            Piece::If(_, line) | Piece::Else(line) | Piece::EndIf(line) => line.to,
        }
    }
}
