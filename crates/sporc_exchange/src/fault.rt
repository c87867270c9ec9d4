//! Why exchanges fail.

use std::alloc::AllocError;
use thiserror::Error;

/// Why a message was not sent, or not answered.
#[derive(Clone, Copy, Debug, PartialEq, Eq, Error)]
pub enum ExchangeFault {
    /// A call of the link failed.
    #[error("the link failed")]
    LinkFault,
    /// What came is no answer, from this place of the stream on.
    #[error("no answer, from place {0} of the stream on")]
    BadMessage(u64),
    /// The link ended after so many bytes, before an answer was whole.
    #[error("the link ended after {0} bytes")]
    LinkEnded(u64),
    #[error("out of memory")]
    Memory,
}

impl From<AllocError> for ExchangeFault {
    ghost use Rattle.std.specs.Prelude.{◌≡◌};
    ghost use Rattle.sporc_exchange.specs.declared.fault.ExchangeFault.TheVariants as faults;

    ghost from_gives = { λ _ fault. fault ≡ faults.Memory };

    fn from(_: AllocError) -> ExchangeFault {
        ExchangeFault::Memory
    }
}
