//! Tests of the crates that everything stands on: owners, operations, devices, places, lexing, words and terms.
#![tactic(auto)]

#[cfg(test)]
mod cutting;
#[cfg(test)]
mod devices;
#[cfg(test)]
mod items;
#[cfg(test)]
mod operations;
#[cfg(test)]
mod places;
#[cfg(test)]
mod terms;
#[cfg(test)]
mod wide_words;
