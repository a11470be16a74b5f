//! Tests of readability, over functions read from text.
#![tactic(auto)]

#[cfg(test)]
mod readability;
