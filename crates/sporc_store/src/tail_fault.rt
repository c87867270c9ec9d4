//! Why the tail of a log is not opened.

use sporc_head::Refusal;
use sporc_outside::Failed;
use std::alloc::{AllocError, AllocFailed};
use thiserror::Error;

/// Why the tail of a log is not opened.
#[derive(Clone, Copy, Debug, PartialEq, Eq, Error)]
pub enum TailFault {
    /// A call on its file failed, which counts it.
    #[error("a call on the file failed")]
    Failed,
    /// It has so many bytes, which is more than a file may have, 1,073,741,824.
    #[error("the file has {0} bytes, which is too long")]
    TooLong(u64),
    /// At this place of the file: it is the tail of another document, or of no log that begins as
    /// this one does, or what stands there is no record of the position that is next.
    #[error("no record of the next position begins at {0}")]
    Malformed(usize),
    /// The entry at this position, which the log lacks, fails this check.
    #[error("the entry at position {0} is refused: {1}")]
    Refused(u32, Refusal),
    /// Out of memory.
    #[error("out of memory")]
    Memory,
}

impl From<AllocError> for TailFault {
    ghost use Rattle.std.specs.Prelude.{◌≡◌};
    ghost use Rattle.sporc_store.specs.declared.tail_fault.TailFault.TheVariants as faults;

    ghost from_gives = { λ _ e. e ≡ faults.Memory };

    fn from(_: AllocError) -> TailFault {
        TailFault::Memory
    }
}

impl<T: Drop> From<AllocFailed<T>> for TailFault {
    ghost use Rattle.std.specs.Prelude.{◌≡◌};
    ghost use Rattle.sporc_store.specs.declared.tail_fault.TailFault.TheVariants as faults;

    ghost from_gives = { λ _ e. e ≡ faults.Memory };

    fn from(_: AllocFailed<T>) -> TailFault {
        TailFault::Memory
    }
}

impl From<Failed> for TailFault {
    ghost use Rattle.std.specs.Prelude.{◌≡◌};
    ghost use Rattle.sporc_store.specs.declared.tail_fault.TailFault.TheVariants as faults;

    ghost from_gives = { λ _ e. e ≡ faults.Failed };

    fn from(_: Failed) -> TailFault {
        TailFault::Failed
    }
}
