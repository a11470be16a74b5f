//! Tests of whole pattern files: depth, syntax and names, over texts.
#![tactic(auto)]

#[cfg(test)]
mod names;
#[cfg(test)]
mod syntax;
#[cfg(test)]
mod texts;
