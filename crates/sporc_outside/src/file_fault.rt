//! Why calls on files don't succeed.

ghost use Rattle.std.specs.Prelude.{◌≡◌};
ghost use Rattle.sporc_outside.specs.declared.file_fault.FileFault.TheVariants as faults;

use crate::counted::Failed;
use std::alloc::AllocError;
use thiserror::Error;

/// The most bytes of a file that is read or saved.
pub const MAX_FILE: u64 = 1_073_741_824;

/// Why a call on a file didn't succeed.
#[derive(Clone, Copy, Debug, PartialEq, Eq, Error)]
pub enum FileFault {
    #[error("there is no such file")]
    Missing,
    #[error("the call failed")]
    Failed,
    /// The file has so many bytes, which is more than [`MAX_FILE`].
    #[error("the file has {0} bytes, which is too long")]
    TooLong(u64),
    #[error("the file is there already")]
    Exists,
    #[error("out of memory")]
    Memory,
}

impl From<AllocError> for FileFault {
    ghost from_gives = { λ _ fault. fault ≡ faults.Memory };

    fn from(_: AllocError) -> FileFault {
        FileFault::Memory
    }
}

impl From<Failed> for FileFault {
    ghost from_gives = { λ _ fault. fault ≡ faults.Failed };

    fn from(_: Failed) -> FileFault {
        FileFault::Failed
    }
}
