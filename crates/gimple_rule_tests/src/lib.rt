//! Tests of the rules on GIMPLE text: names, limits and types.
#![tactic(auto)]

#[cfg(test)]
mod limits;
#[cfg(test)]
mod names;
#[cfg(test)]
mod types;
