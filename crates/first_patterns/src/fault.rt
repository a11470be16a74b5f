ghost use Rattle.std.specs.Prelude.{◌≡◌};
ghost use Rattle.first_patterns.specs.declared.fault.ReadFault.TheVariants.{Memory};

use std::alloc::AllocError;
use thiserror::Error;

/// Why a pattern file could not be read.
#[derive(Clone, Copy, Debug, PartialEq, Eq, Error)]
pub enum ReadFault {
    /// The file is not of the first form.
    #[error("the patterns are not of the first form")]
    NotFirst,
    /// Memory ran out.
    #[error("out of memory")]
    Memory,
}

impl From<AllocError> for ReadFault {
    ghost from_gives = { λ _ fault. fault ≡ Memory };

    fn from(_error: AllocError) -> ReadFault {
        ReadFault::Memory
    }
}
