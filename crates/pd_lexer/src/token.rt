//! Tokens of pattern text.

ghost use Rattle.std.specs.Prelude.{◌≡◌};
ghost use Rattle.pd_lexer.specs.Spans.{span_of};

use pm_places::Span;

/// What a token is.
#[derive(Clone, Copy, Debug, PartialEq, Eq)]
pub enum TokenKind {
    /// Letters, digits and `_`, not beginning with a digit.
    Ident,
    /// Decimal digits, or `0x` and hexadecimal digits, and a suffix.
    Number,
    /// `@` and a name.
    Capture,
    /// `@@` and a name.
    ValueCapture,
    /// What stands between two `"` on one line, with them.
    Text,
    /// A mark, as `(` or `::`.
    Punct,
}

/// A token: the bytes of the source from `from` up to `to`.
#[derive(Clone, Copy, Debug, PartialEq, Eq)]
pub struct Token {
    pub kind: TokenKind,
    pub from: usize,
    pub to: usize,
    /// A capture right behind a letter, a digit, `_` or `?`. No other token is joined.
    pub joined: bool,
}

impl Token {
    /// Its place.
    pub fn span(self) -> Span
        ensures { result ≡ span_of self }
    {
        Span {
            from: self.from,
            to: self.to,
        }
    }
}
