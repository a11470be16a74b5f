//! Why a function isn't valid.
ghost use Rattle.std.specs.Prelude.{◌≡◌};
ghost use Rattle.gim_ssa.specs.declared.fault.CheckFault.TheVariants.{Memory};

use pm_ops::OutOfMemory;
use std::alloc::{AllocError, AllocFailed};
use thiserror::Error;

/// Why the check gave no Ok.
#[derive(Clone, Copy, Debug, PartialEq, Eq, Error)]
pub enum CheckFault {
    /// A use that isn't readable, the first in program order: the number of the block where it stands, its phi,
    /// statement or end, counted from 1, and the name.
    #[error("the name {name} is not readable in item {item} of block {block}")]
    NotReadable { block: u32, item: u32, name: u32 },
    #[error("out of memory")]
    Memory,
}

impl From<OutOfMemory> for CheckFault {
    ghost from_gives = { λ _ e. e ≡ Memory };

    /// Want of memory, whatever wanted it.
    fn from(_error: OutOfMemory) -> CheckFault {
        CheckFault::Memory
    }
}
