//! Tests of value numbering, over functions read from text.
#![tactic(auto)]

#[cfg(test)]
mod numbering;
