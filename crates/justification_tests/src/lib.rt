//! Tests of justification: rows of two terms each, read from texts, with the method that is to hold.
#![tactic(auto)]

#[cfg(test)]
mod judged;
#[cfg(test)]
mod limits;
#[cfg(test)]
mod rows;
#[cfg(test)]
mod terms;
