//! Tests of whole runs of the program, over inputs and sinks in memory.
#![tactic(auto)]

#[cfg(test)]
mod files;
#[cfg(test)]
mod simplifying;
