//! Why bytes are no file, and why no words were drawn.

ghost use Rattle.sporc_keys.specs.declared.fault.DrawFault.TheVariants as draw_faults;
ghost use Rattle.sporc_keys.specs.declared.fault.RingFileFault.TheVariants as ring_faults;

use sporc_bytes::Short;
use sporc_outside::Failed;
use std::alloc::{AllocError, AllocFailed};
use thiserror::Error;

/// The first field that is cut short or has a forbidden value begins at this place; if bytes follow
/// the last field, it is that of the first of them.
#[derive(Clone, Copy, Debug, PartialEq, Eq, Error)]
#[error("malformed at {0}")]
pub struct Malformed(pub usize);

/// Why bytes are no ring file.
#[derive(Clone, Copy, Debug, PartialEq, Eq, Error)]
pub enum RingFileFault {
    /// The first field that is cut short or has a forbidden value begins at this place; if bytes
    /// follow the last field, it is that of the first of them.
    #[error("malformed at {0}")]
    Malformed(usize),
    /// Out of memory.
    #[error("out of memory")]
    Memory,
}

impl From<Short> for RingFileFault {
    ghost use Rattle.std.specs.Prelude.{◌≡◌};

    ghost from_gives = { λ short fault. fault ≡ ring_faults.Malformed short.0 };

    fn from(short: Short) -> RingFileFault {
        RingFileFault::Malformed(short.0)
    }
}

impl From<AllocError> for RingFileFault {
    ghost use Rattle.std.specs.Prelude.{◌≡◌};

    ghost from_gives = { λ _ fault. fault ≡ ring_faults.Memory };

    fn from(_: AllocError) -> RingFileFault {
        RingFileFault::Memory
    }
}

impl<T: Drop> From<AllocFailed<T>> for RingFileFault {
    ghost use Rattle.std.specs.Prelude.{◌≡◌};

    ghost from_gives = { λ _ fault. fault ≡ ring_faults.Memory };

    fn from(_: AllocFailed<T>) -> RingFileFault {
        RingFileFault::Memory
    }
}

/// Why nothing was made of random words.
#[derive(Clone, Copy, Debug, PartialEq, Eq, Error)]
pub enum DrawFault {
    /// The chance failed.
    #[error("the chance failed")]
    Chance,
    /// Out of memory.
    #[error("out of memory")]
    Memory,
}

impl From<Failed> for DrawFault {
    ghost use Rattle.std.specs.Prelude.{◌≡◌};

    ghost from_gives = { λ _ fault. fault ≡ draw_faults.Chance };

    fn from(_: Failed) -> DrawFault {
        DrawFault::Chance
    }
}

impl From<AllocError> for DrawFault {
    ghost use Rattle.std.specs.Prelude.{◌≡◌};

    ghost from_gives = { λ _ fault. fault ≡ draw_faults.Memory };

    fn from(_: AllocError) -> DrawFault {
        DrawFault::Memory
    }
}

impl<T: Drop> From<AllocFailed<T>> for DrawFault {
    ghost use Rattle.std.specs.Prelude.{◌≡◌};

    ghost from_gives = { λ _ fault. fault ≡ draw_faults.Memory };

    fn from(_: AllocFailed<T>) -> DrawFault {
        DrawFault::Memory
    }
}
