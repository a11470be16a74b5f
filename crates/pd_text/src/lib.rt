//! The words of pattern files between bytes and trees: what each token means to a grammar.
//!
//! A `Symbol` is a token's meaning with its place, never its bytes: the marks and the words that a grammar quotes are
//! told apart, all else keeps its kind alone. `meanings` gives those of a list of tokens.
#![tactic(auto)]

mod symbol;
mod terminals;
mod tokens;

pub use symbol::{Capture, Mark, Symbol, SymbolFault, SymbolStop, Word};
pub use terminals::{identifier, mark, number, plain_capture, word};
pub use tokens::{meaning, meanings};
