//! Words: which are reserved, and what token each makes.

ghost use Rattle.std.specs.Prelude.{◌≡◌};
ghost use Rattle.gim_lexer.specs.Words.{type_word_of, keyword_of, plain_word, word_token};

use gim_ast::is_block_word;
use gim_text::{Keyword, Token, TypeWord};
use lexing::{Row, beside};
use pm_places::Span;

/// The words of types.
const TYPE_WORDS: [Row<TypeWord>; 8] = [
    ("signed", TypeWord::Signed),
    ("unsigned", TypeWord::Unsigned),
    ("char", TypeWord::Char),
    ("short", TypeWord::Short),
    ("int", TypeWord::Int),
    ("long", TypeWord::Long),
    ("__int128", TypeWord::Int128),
    ("_Bool", TypeWord::BoolWord),
];

/// The other reserved words.
const KEYWORDS: [Row<Keyword>; 14] = [
    ("__GIMPLE", Keyword::Gimple),
    ("void", Keyword::Void),
    ("__BB", Keyword::Block),
    ("__PHI", Keyword::Phi),
    ("goto", Keyword::Goto),
    ("if", Keyword::If),
    ("else", Keyword::Else),
    ("return", Keyword::Return),
    ("__MIN", Keyword::Min),
    ("__MAX", Keyword::Max),
    ("__ABS", Keyword::Abs),
    ("__ABSU", Keyword::Absu),
    ("_Literal", Keyword::Literal),
    ("D", Keyword::Default),
];

/// The word of a type.
fn type_word(word: &[u8]) -> Option<TypeWord>
    ensures { result ≡ type_word_of word.now }
{
    beside(&TYPE_WORDS, word)
}

/// A reserved word, but for those of types.
fn keyword(word: &[u8]) -> Option<Keyword>
    ensures { result ≡ keyword_of word.now }
{
    beside(&KEYWORDS, word)
}

/// The token of a word that is neither of a type nor a keyword.
fn plain_word(word: &[u8], span: Span) -> Token
    ensures { result ≡ plain_word word.now span }
{
    if is_block_word(word) {
        Token::BlockWord(span)
    } else if word == b"ssa".as_slice() {
        Token::Ssa(span)
    } else {
        Token::Identifier(span)
    }
}

/// The token of a word.
#[tactic(auto, unfolding(crate::specs::Words::word_token))]
pub(crate) fn word_token(word: &[u8], span: Span) -> Token
    ensures { result ≡ word_token word.now span }
{
    if let Some(found) = type_word(word) {
        return Token::TypeWord(found, span);
    }
    match keyword(word) {
        Some(found) => Token::Keyword(found, span),
        None => plain_word(word, span),
    }
}
