//! What keeps bytes from being a delta.

use sporc_bytes::Short;
use std::alloc::{AllocError, AllocFailed};
use thiserror::Error;

/// What keeps bytes from being a delta, or from being read: the first fault from the left, and at
/// one part the first of this list, with a cut text behind a repeated kind.
#[derive(Clone, Copy, Debug, PartialEq, Eq, Error)]
pub enum DeltaFault {
    /// Fewer bytes are left than a part begins with, or than its text has.
    #[error("cut short")]
    Short,
    /// No kind of part has this byte.
    #[error("bad kind")]
    BadKind,
    /// The count is 0 or above 2^40.
    #[error("bad count")]
    BadCount,
    /// Two neighbours are of one kind.
    #[error("neighbours of one kind")]
    SameNeighbours,
    /// The text is not UTF-8.
    #[error("not UTF-8")]
    NotUtf8,
    /// Memory ran out.
    #[error("out of memory")]
    Memory,
}

impl From<AllocError> for DeltaFault {
    ghost use Rattle.std.specs.Prelude.{◌≡◌};
    ghost use Rattle.sporc_delta.specs.declared.fault.DeltaFault.TheVariants as faults;

    ghost from_gives = { λ _ e. e ≡ faults.Memory };

    fn from(_: AllocError) -> DeltaFault {
        DeltaFault::Memory
    }
}

impl<T: Drop> From<AllocFailed<T>> for DeltaFault {
    ghost use Rattle.std.specs.Prelude.{◌≡◌};
    ghost use Rattle.sporc_delta.specs.declared.fault.DeltaFault.TheVariants as faults;

    ghost from_gives = { λ _ e. e ≡ faults.Memory };

    fn from(_: AllocFailed<T>) -> DeltaFault {
        DeltaFault::Memory
    }
}

impl From<Short> for DeltaFault {
    ghost use Rattle.std.specs.Prelude.{◌≡◌};
    ghost use Rattle.sporc_delta.specs.declared.fault.DeltaFault.TheVariants as faults;

    ghost from_gives = { λ _ e. e ≡ faults.Short };

    fn from(_: Short) -> DeltaFault {
        DeltaFault::Short
    }
}
