//! Tests of the tokens of pattern text, and of what they mean to a grammar.
//!
//! Each row is a text and its answer in words, so that a test is one loop over data.
#![tactic(auto)]

#[cfg(test)]
mod symbols;
#[cfg(test)]
mod tokens;
