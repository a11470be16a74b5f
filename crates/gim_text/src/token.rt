//! Tokens of GIMPLE text, as GCC's GIMPLE front end reads them.

ghost use Rattle.std.specs.Prelude.{◌≡◌};
ghost use Rattle.gim_text.specs.Meanings.{span_of};

use pm_places::Span;

/// A word of a type.
#[derive(Clone, Copy, Debug, PartialEq, Eq)]
pub enum TypeWord {
    Signed,
    Unsigned,
    Char,
    Short,
    Int,
    Long,
    /// `__int128`
    Int128,
    /// `_Bool`
    BoolWord,
}

/// A word that is reserved, but for those of types.
#[derive(Clone, Copy, Debug, PartialEq, Eq)]
pub enum Keyword {
    /// `__GIMPLE`
    Gimple,
    /// `void`
    Void,
    /// `__BB`
    Block,
    /// `__PHI`
    Phi,
    /// `goto`
    Goto,
    /// `if`
    If,
    /// `else`
    Else,
    /// `return`
    Return,
    /// `__MIN`
    Min,
    /// `__MAX`
    Max,
    /// `__ABS`
    Abs,
    /// `__ABSU`
    Absu,
    /// `_Literal`
    Literal,
    /// `D`, which marks a default definition
    Default,
}

/// How a number is written.
#[derive(Clone, Copy, Debug, PartialEq, Eq)]
pub enum NumberKind {
    /// Digits alone.
    Plain,
    /// With `u`.
    Unsigned,
    /// With one or two `l`.
    Long,
    /// With `u` and one or two `l`.
    UnsignedLong,
    /// With a leading zero or any other suffix: no accepted text has such a number.
    Wrong,
}

/// A mark: one byte or two that are no word, number or text.
#[derive(Clone, Copy, Debug, PartialEq, Eq)]
pub enum Mark {
    Open,
    Close,
    OpenBrace,
    CloseBrace,
    Comma,
    Semicolon,
    Colon,
    Question,
    /// `=`
    Assign,
    Plus,
    Minus,
    Star,
    Slash,
    Percent,
    Ampersand,
    Bar,
    Caret,
    Tilde,
    /// `<<`
    ShiftLeft,
    /// `>>`
    ShiftRight,
    /// `==`
    Equal,
    /// `!=`
    NotEqual,
    Less,
    LessEqual,
    Greater,
    GreaterEqual,
}

/// A token with its place.
#[derive(Clone, Copy, Debug, PartialEq, Eq)]
pub enum Token {
    TypeWord(TypeWord, Span),
    Keyword(Keyword, Span),
    /// `__BB` and a number without a leading zero in one word.
    BlockWord(Span),
    /// The identifier `ssa`, which is not reserved.
    Ssa(Span),
    /// Any other identifier.
    Identifier(Span),
    Number(NumberKind, Span),
    /// What stands between two `"` on one line, with them.
    Text(Span),
    Mark(Mark, Span),
}

impl Token {
    /// Its place.
    pub fn span(self) -> Span
        ensures { result ≡ span_of self }
    {
        match self {
            Token::TypeWord(_, span)
            | Token::Keyword(_, span)
            | Token::BlockWord(span)
            | Token::Ssa(span)
            | Token::Identifier(span)
            | Token::Number(_, span)
            | Token::Text(span)
            | Token::Mark(_, span) => span,
        }
    }
}
