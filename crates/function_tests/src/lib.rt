//! Tests of functions and of what changes them.
#![tactic(auto)]

#[cfg(test)]
mod changes;
#[cfg(test)]
mod functions;
