//! Tests of C parts: how operators group, and where the first fault of each kind stands.
//!
//! Each row is a text and its answer in words, so that a test is one loop over data.
#![tactic(auto)]

#[cfg(test)]
mod operators;
#[cfg(test)]
mod parts;
