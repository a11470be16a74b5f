//! What stands inside a block of GIMPLE text, read exactly: operands, right sides, phis and statements, the end, and
//! the block itself.
//!
//! `read_block` accepts exactly what `specs/Grammar.antt` spells, as far as a block goes, and faults at the first token
//! with which the tokens so far begin no block. Each module reads the productions that its name says.
#![tactic(auto)]

/// What a reader read; a fault is passed on, as by `?`, which gets no proof where the value holds a type.
macro_rules! read {
    ($read:expr) => {
        match $read {
            Ok(read) => read,
            Err(fault) => return Err(fault.into()),
        }
    };
}

mod block;
mod end;
mod item;
mod operand;
mod right;
mod words;

pub use block::read_block;
