//! Why a history isn't saved.

use std::alloc::AllocError;
use thiserror::Error;

/// Why a history isn't saved.
#[derive(Clone, Copy, Debug, PartialEq, Eq, Error)]
pub enum SaveFault {
    /// The file would have so many bytes, which is more than 1,073,741,824.
    #[error("the file would have {0} bytes, which is too long")]
    TooLong(u64),
    /// Out of memory.
    #[error("out of memory")]
    Memory,
}

impl From<AllocError> for SaveFault {
    ghost use Rattle.std.specs.Prelude.{◌≡◌};
    ghost use Rattle.sporc_store.specs.declared.fault.SaveFault.TheVariants as faults;

    ghost from_gives = { λ _ e. e ≡ faults.Memory };

    fn from(_: AllocError) -> SaveFault {
        SaveFault::Memory
    }
}
