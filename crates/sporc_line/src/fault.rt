//! Why a line can't be opened.

use std::alloc::AllocError;
use thiserror::Error;

/// Why a line can't be opened.
#[derive(Clone, Copy, Debug, PartialEq, Eq, Drop, Error)]
pub enum LineOpenFault {
    /// The ring has no key of epoch 0.
    #[error("no key of epoch 0")]
    NoKey,
    /// The key of epoch 0 doesn't meet the commitment of the genesis.
    #[error("the key of epoch 0 doesn't meet its commitment")]
    WrongKey,
    /// Out of memory.
    #[error("out of memory")]
    Memory,
}

impl From<AllocError> for LineOpenFault {
    ghost use Rattle.std.specs.Prelude.{◌≡◌};
    ghost use Rattle.sporc_line.specs.declared.fault.LineOpenFault.TheVariants as faults;

    ghost from_gives = { λ _ e. e ≡ faults.Memory };

    fn from(_: AllocError) -> LineOpenFault {
        LineOpenFault::Memory
    }
}
