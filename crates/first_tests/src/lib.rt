//! Tests of the first path: its pattern files, its functions and its rewriting.
#![tactic(auto)]

#[cfg(test)]
mod functions;
#[cfg(test)]
mod patterns;
#[cfg(test)]
mod rewriting;
