//! Why bytes are no stream of messages, or a message no frame.

use std::alloc::AllocError;
use thiserror::Error;

/// Why no message is read or written.
#[derive(Clone, Copy, Debug, PartialEq, Eq, Error)]
pub enum FrameFault {
    /// A frame's body is no message: the field of it that is cut short or forbidden begins at this
    /// place of the stream.
    #[error("a frame is no message, from place {0} of the stream on")]
    BadMessage(u64),
    /// A body of this many bytes is above the limit of 4,194,304.
    #[error("a body of {0} bytes is too long")]
    TooLong(u64),
    /// Out of memory.
    #[error("out of memory")]
    Memory,
}

impl From<AllocError> for FrameFault {
    ghost use Rattle.std.specs.Prelude.{◌≡◌};
    ghost use Rattle.sporc_wire.specs.declared.fault.FrameFault.TheVariants as faults;

    ghost from_gives = { λ _ e. e ≡ faults.Memory };

    fn from(_: AllocError) -> FrameFault {
        FrameFault::Memory
    }
}
