//! Why plays are not performed whole.

ghost use Rattle.std.specs.Prelude.{◌≡◌};
ghost use Rattle.sporc_play.specs.Playing.{line_fault, read_fault};
ghost use Rattle.sporc_play.specs.declared.fault.PlayFault.TheVariants as faults;

use sporc_outside::{Failed, ReadFault};
use sporc_script::LineFault;
use std::alloc::AllocError;
use thiserror::Error;

/// Why a play was not performed whole.
#[derive(Clone, Copy, Debug, PartialEq, Eq, Error)]
pub enum PlayFault {
    #[error("out of memory")]
    Memory,
    #[error("the script could not be read")]
    ReadFault,
    #[error("the report could not be written")]
    WriteFault,
    /// The first line outside the grammar, counted from 1.
    #[error("line {0} is outside the grammar")]
    LineFault(u32),
    #[error("the script is too long")]
    TooLong,
}

impl From<AllocError> for PlayFault {
    ghost from_gives = { λ _ fault. fault ≡ faults.Memory };

    fn from(_: AllocError) -> PlayFault {
        PlayFault::Memory
    }
}

/// A sink failed.
impl From<Failed> for PlayFault {
    ghost from_gives = { λ _ fault. fault ≡ faults.WriteFault };

    fn from(_: Failed) -> PlayFault {
        PlayFault::WriteFault
    }
}

impl From<ReadFault> for PlayFault {
    ghost from_gives = { λ cause fault. fault ≡ read_fault cause };

    fn from(cause: ReadFault) -> PlayFault {
        match cause {
            ReadFault::Memory => PlayFault::Memory,
            ReadFault::Failed => PlayFault::ReadFault,
            ReadFault::TooLong => PlayFault::TooLong,
        }
    }
}

impl From<LineFault> for PlayFault {
    ghost from_gives = { λ cause fault. fault ≡ line_fault cause };

    fn from(cause: LineFault) -> PlayFault {
        match cause {
            LineFault::Memory => PlayFault::Memory,
            LineFault::Line { line } => PlayFault::LineFault(line),
        }
    }
}
