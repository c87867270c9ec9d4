//! What keeps an edit from being done.

use std::alloc::AllocError;
use thiserror::Error;

/// What keeps an edit from being done: the first of this list.
#[derive(Clone, Copy, Debug, PartialEq, Eq, Error)]
pub enum ScreenFault {
    /// The line that it names was never written, or is no longer known by its number.
    #[error("unknown line")]
    Seen,
    /// Its place or its count is out of bounds of the text that the editor has.
    #[error("out of bounds")]
    Outside,
    /// The texts before and after it are too long together: above 2^40 characters.
    #[error("too long")]
    TooLong,
    /// Memory ran out.
    #[error("out of memory")]
    Memory,
}

impl From<AllocError> for ScreenFault {
    ghost use Rattle.std.specs.Prelude.{◌≡◌};
    ghost use Rattle.sporc_screen.specs.declared.fault.ScreenFault.TheVariants as faults;

    ghost from_gives = { λ _ e. e ≡ faults.Memory };

    fn from(_: AllocError) -> ScreenFault {
        ScreenFault::Memory
    }
}
