//! C parts of pattern files: conditions, `with` blocks and operands in braces.
#![tactic(auto)]

mod blocks;
mod declaration;
mod expression;
pub mod laws;
mod leaves;
mod making;
mod names;
mod operators;
mod parse;
mod part;
mod scope;
mod signatures;
mod tokens;
mod tree;
mod types;

pub use blocks::make_block;
pub use making::{make_brace, make_cond};
pub use names::{check_block_names, check_names};
pub use parse::{parse_block, parse_brace, parse_cond};
pub use part::{block_syntax, brace_syntax, cond_syntax, read_block, read_brace, read_expression};
pub use scope::{Declared, Local, Scope, Typed};
pub use signatures::{Arguments, binary_type, call_type, signature, unary_type};
pub use tree::{Arithmetic, Callee, DeclText, DeclWord, ExprText, FlaggedCall, ValueText};
