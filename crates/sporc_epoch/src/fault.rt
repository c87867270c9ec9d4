//! Why keys are not sealed, and why those of earlier epochs are not found.

use std::alloc::AllocError;
use thiserror::Error;

/// Why a change is not sealed.
#[derive(Clone, Copy, Debug, PartialEq, Eq, Error)]
pub enum SealFault {
    /// The author has no pairwise key with this member, the least such.
    #[error("no pairwise key with member {0}")]
    NoPairKey(u16),
    /// Out of memory.
    #[error("out of memory")]
    Memory,
}

impl From<AllocError> for SealFault {
    ghost use Rattle.std.specs.Prelude.{◌≡◌};
    ghost use Rattle.sporc_epoch.specs.declared.fault.SealFault.TheVariants as faults;

    ghost from_gives = { λ _ e. e ≡ faults.Memory };

    fn from(_: AllocError) -> SealFault {
        SealFault::Memory
    }
}

/// Why the keys of earlier epochs are not found: the first cause of this list.
#[derive(Clone, Copy, Debug, PartialEq, Eq, Error)]
pub enum HintFault {
    /// No entry is a change that adds the member, with a key sealed for it.
    #[error("no change adds the member")]
    NotAdded,
    /// The member has no pairwise key with the author of that change.
    #[error("no pairwise key with member {0}")]
    NoPairKey(u16),
    /// The key that was opened for this epoch is not the one that the change which started it
    /// committed to.
    #[error("the key of epoch {0} is not the one committed to")]
    WrongKey(u32),
    /// Out of memory.
    #[error("out of memory")]
    Memory,
}

impl From<AllocError> for HintFault {
    ghost use Rattle.std.specs.Prelude.{◌≡◌};
    ghost use Rattle.sporc_epoch.specs.declared.fault.HintFault.TheVariants as faults;

    ghost from_gives = { λ _ e. e ≡ faults.Memory };

    fn from(_: AllocError) -> HintFault {
        HintFault::Memory
    }
}
