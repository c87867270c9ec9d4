//! Why a round stops.

use sporc_client::AcceptFault;
use sporc_exchange::ExchangeFault;
use thiserror::Error;

/// Why a round stops.
#[derive(Clone, Copy, Debug, PartialEq, Eq, Error)]
pub enum RoundFault {
    /// An exchange failed.
    #[error("{0}")]
    Exchange(ExchangeFault),
    /// The client does not accept the entry that came for this position.
    #[error("at position {0}: {1}")]
    Accept(u32, AcceptFault),
}

impl From<ExchangeFault> for RoundFault {
    ghost use Rattle.std.specs.Prelude.{◌≡◌};
    ghost use Rattle.sporc_round.specs.declared.fault.RoundFault.TheVariants as faults;

    ghost from_gives = { λ cause fault. fault ≡ faults.Exchange cause };

    fn from(cause: ExchangeFault) -> RoundFault {
        RoundFault::Exchange(cause)
    }
}
