//! What both kinds of messages have in common.

ghost use Rattle.std.specs.Prelude.{◌≡◌, ℕ, List, Result};
ghost use Rattle.sporc_base.specs.Outcome.{GivesUnless};
ghost use Rattle.sporc_bytes.specs.Fields.{fault_as};

use sporc_bytes::Short;
use std::alloc::{AllocError, Global};
use thiserror::Error;

// Why the body of a frame gives no message.
#[derive(Clone, Copy, Debug, Error)]
pub(crate) enum BodyFault {
    // The field whose first byte has this place in the body is cut short or forbidden.
    #[error("the body is no message, from its place {0} on")]
    Bad(usize),
    #[error("out of memory")]
    Memory,
}

impl From<Short> for BodyFault {
    ghost use Rattle.std.specs.Prelude.{◌≡◌};
    ghost use Rattle.sporc_wire.specs.declared.message.BodyFault.TheVariants as faults;

    ghost from_gives = { λ short e. e ≡ faults.Bad short.0 };

    fn from(short: Short) -> BodyFault {
        BodyFault::Bad(short.0)
    }
}

impl From<AllocError> for BodyFault {
    ghost use Rattle.std.specs.Prelude.{◌≡◌};
    ghost use Rattle.sporc_wire.specs.declared.message.BodyFault.TheVariants as faults;

    ghost from_gives = { λ _ e. e ≡ faults.Memory };

    fn from(_: AllocError) -> BodyFault {
        BodyFault::Memory
    }
}

// A message that the body of a frame is.
pub(crate) trait Message: Sized {
    // The message, or the place in the body of the first field that is cut short or forbidden.
    ghost of: { List ℕ → Result Self ℕ };

    fn read(alloc: Global, body: &[u8]) -> Result<Self, BodyFault>
        ensures value { GivesUnless BodyFault.Memory (λ m. m) result
            (fault_as BodyFault.Bad (of body.now)) };
}
