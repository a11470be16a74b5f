//! GIMPLE text between its bytes and its functions: tokens with their places, and trees of what is
//! written.
//!
//! The tokens are what the lexer gives (`token`), the trees what the grammar makes of them
//! (`tree`). Both keep places in the source, never bytes.
#![tactic(auto)]

mod fault;
mod limits;
mod literals;
mod meaning;
mod occurrence;
mod texts;
mod token;
mod tree;

pub use fault::{GimpleFault, GimpleKind, TokenFault, TokenStop};
pub use limits::{BLOCK_LIMIT, NAME_LIMIT, NUMBER_LIMIT};
pub use literals::{constant, literal};
pub use meaning::{block_word, identifier, keyword, mark, number, type_word};
pub use occurrence::{Occurrence, block_at, name_at, occurrences};
pub use texts::name_parts;
pub use token::{Keyword, Mark, NumberKind, Token, TypeWord};
pub use tree::{
    ArgText, BlockText, DeclText, EndText, FunctionText, ItemText, LiteralText, LiteralType,
    OperandText, RightForm, RightText,
};
