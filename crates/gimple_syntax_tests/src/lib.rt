//! Tests of GIMPLE text up to its trees: literals, tokens, the words of types, blocks and functions.
#![tactic(auto)]

#[cfg(test)]
mod blocks;
#[cfg(test)]
mod functions;
#[cfg(test)]
mod literals;
#[cfg(test)]
mod tokens;
#[cfg(test)]
mod words;
