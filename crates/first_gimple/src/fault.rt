ghost use Rattle.std.specs.Prelude.{◌≡◌};
ghost use Rattle.first_gimple.specs.declared.fault.FirstFault.TheVariants.{Memory};

use pm_ops::OutOfMemory;
use std::alloc::{AllocError, AllocFailed};
use thiserror::Error;

/// Why a text was not read.
#[derive(Clone, Copy, Debug, PartialEq, Eq, Error)]
pub enum FirstFault {
    /// It is not of the first form.
    #[error("not of the first form")]
    NotFirst,
    #[error("out of memory")]
    Memory,
}

impl From<OutOfMemory> for FirstFault {
    ghost from_gives = { λ _ e. e ≡ Memory };

    fn from(_error: OutOfMemory) -> FirstFault {
        FirstFault::Memory
    }
}

impl From<AllocError> for FirstFault {
    ghost from_gives = { λ _ e. e ≡ Memory };

    fn from(_error: AllocError) -> FirstFault {
        FirstFault::Memory
    }
}

impl<T: Drop> From<AllocFailed<T>> for FirstFault {
    ghost from_gives = { λ _ e. e ≡ Memory };

    fn from(_error: AllocFailed<T>) -> FirstFault {
        FirstFault::Memory
    }
}
