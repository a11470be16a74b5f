//! Tests of patterns, results and tails over text, and of what is too deep or too long.
//!
//! Each row is a text and its answer in words, so that a test is one loop over data.
#![tactic(auto)]

#[cfg(test)]
mod depth;
#[cfg(test)]
mod parts;
