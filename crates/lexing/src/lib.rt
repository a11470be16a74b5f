//! What lexers of every file language stand on: kinds of bytes and runs of them, words, numbers, quoted texts,
//! separators, and tables of texts.
//!
//! `specs/Cuts` says what it is that a source is cut into separators and tokens, and `proofs/Cutting` that this goes in
//! one way; a language adds which of them begin at a place.
#![tactic(auto)]

mod bytes;
mod numbers;
mod pieces;
mod quoted;
mod separators;
mod tables;
mod words;

pub use bytes::{
    digits_len, is_digit, is_letter, is_space, is_suffix_letter, is_word_byte, line_len,
    suffix_len, word_len,
};
pub use numbers::{is_number_text, leading_digits, number_below, size};
pub use pieces::Piece;
pub use quoted::quoted_len;
pub use separators::{begins_with_space, comment_len};
pub use tables::{Row, beside, beside_in_any_case};
pub use words::is_word_text;
