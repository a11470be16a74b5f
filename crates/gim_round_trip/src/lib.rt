//! What is printed is read again as the same functions.
//!
//! The law stands over the text of functions (`gim_ast`) and what the bytes of a file stand for
//! (`gim_reader`). `proofs/text` goes from the text of a function to its tokens and the tree that
//! they spell, `proofs/tree` from a tree that writes a function to what occurs in it and to the
//! function that it stands for, and `proofs/rules` to the rules that it keeps.
#![tactic(auto)]

pub mod laws;
