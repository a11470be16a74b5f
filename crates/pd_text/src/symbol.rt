//! What a token of pattern text means to a grammar.

ghost use Rattle.std.specs.Prelude.{◌≡◌};
ghost use Rattle.pd_text.specs.Meanings.{span_of};

use grammar::Fault;
use pm_ops::PatternKind;
use pm_places::Span;

/// A word that some grammar quotes. Each is an identifier wherever one may stand.
#[derive(Clone, Copy, Debug, PartialEq, Eq)]
pub enum Word {
    /// `simplify`
    Simplify,
    /// `match`
    Match,
    /// `for`
    For,
    /// `if`
    If,
    /// `switch`
    Switch,
    /// `with`
    With,
    /// `define_operator_list`
    OperatorList,
    /// `define_predicates`
    Predicates,
    /// `tree`
    Tree,
    /// `wide_int`
    WideInt,
    /// `bool`
    Boolean,
    /// `int`
    Int,
    /// `unsigned`
    Unsigned,
    /// `signop`
    Signop,
    /// `tree_code`
    TreeCode,
    /// `wi`
    Wide,
    /// `overflow_type`
    OverflowType,
    /// `add`
    Add,
    /// `sub`
    Subtract,
    /// `mul`
    Multiply,
    /// `neg`
    Negate,
}

/// A mark: one byte or two that are no word, number, capture or text.
#[derive(Clone, Copy, Debug, PartialEq, Eq)]
pub enum Mark {
    Open,
    Close,
    OpenBrace,
    CloseBrace,
    Comma,
    Semicolon,
    Colon,
    DoubleColon,
    Question,
    Exclamation,
    Tilde,
    Ampersand,
    DoubleAmpersand,
    Bar,
    DoubleBar,
    Caret,
    Plus,
    Minus,
    Star,
    Slash,
    Percent,
    /// `=`
    Assign,
    /// `==`
    Equal,
    /// `!=`
    NotEqual,
    Less,
    Greater,
    LessEqual,
    GreaterEqual,
    /// `<<`
    ShiftLeft,
    /// `>>`
    ShiftRight,
}

/// A capture.
#[derive(Clone, Copy, Debug, PartialEq, Eq)]
pub struct Capture {
    pub at: Span,
    /// It is written with `@@`.
    pub by_value: bool,
    /// It stands right behind a letter, a digit, `_` or `?`.
    pub joined: bool,
}

/// What a token means, with its place.
#[derive(Clone, Copy, Debug, PartialEq, Eq)]
pub enum Symbol {
    Word(Word, Span),
    /// Any other identifier.
    Identifier(Span),
    Number(Span),
    Capture(Capture),
    /// What stands between two `"` on one line, with them.
    Text(Span),
    Mark(Mark, Span),
    /// A token that no grammar has anywhere.
    Odd(Span),
}

impl Symbol {
    /// Its place.
    pub fn span(self) -> Span
        ensures { result ≡ span_of self }
    {
        match self {
            Symbol::Capture(capture) => capture.at,
            Symbol::Word(_, at)
            | Symbol::Identifier(at)
            | Symbol::Number(at)
            | Symbol::Text(at)
            | Symbol::Mark(_, at)
            | Symbol::Odd(at) => at,
        }
    }
}

/// A symbol that offends, or symbols that end too early: `Syntax`, or `CSyntax` within a C part.
pub type SymbolFault<'a> = Fault<'a, Symbol, PatternKind>;

/// Why a reader of symbols that takes memory stopped.
pub type SymbolStop<'a> = grammar::Stop<'a, Symbol, PatternKind>;
