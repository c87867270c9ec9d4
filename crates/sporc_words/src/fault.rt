//! Why words are no command.

use std::alloc::AllocError;
use thiserror::Error;

/// Why words are no command.
#[derive(Clone, Copy, Debug, PartialEq, Eq, Error)]
pub enum WordsFault {
    #[error("out of memory")]
    Memory,
    /// No command has these words, or a value is out of its range.
    #[error("no command has these words")]
    Words,
}

impl From<AllocError> for WordsFault {
    ghost use Rattle.std.specs.Prelude.{◌≡◌};
    ghost use Rattle.sporc_words.specs.declared.fault.WordsFault.TheVariants as faults;

    ghost from_gives = { λ _ fault. fault ≡ faults.Memory };

    fn from(_: AllocError) -> WordsFault {
        WordsFault::Memory
    }
}
