//! Tests of the values of C text, over one environment, and of the copies of the trees of pattern
//! files.
//!
//! Each row is a text and its answer in words, so that a test is one loop over data.
#![tactic(auto)]

#[cfg(test)]
mod environments;
#[cfg(test)]
mod trees;
#[cfg(test)]
mod values;
