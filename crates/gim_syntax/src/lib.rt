//! Functions and files of GIMPLE text: from tokens to trees, exactly, and the fault of syntax.
//!
//! `file` reads a whole file, `fault` says what is refused and where. Below them stand `function` (one function),
//! `declarations` (parameters and locals) and `options` (the list after `__GIMPLE`).
#![tactic(auto)]

mod declarations;
mod fault;
mod file;
mod function;
mod options;

pub use fault::read_syntax;
pub use file::parse;
