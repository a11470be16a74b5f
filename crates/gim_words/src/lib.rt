//! Exact readers of single tokens, of what stands in parentheses and is dropped, and of the words of a type.
//!
//! `tokens` has marks, reserved words, names and numbers. `types` reads a type by the machine of `type_words`: what the
//! words so far say, and what a further word makes of them.
#![tactic(auto)]

mod parentheses;
mod tokens;
mod type_words;
mod types;

pub use parentheses::read_closing;
pub use tokens::{read_block_word, read_keyword, read_mark, read_name, read_plain_number};
pub use types::read_type;
