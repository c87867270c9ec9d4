//! Why a document is not taken, and why a server stopped, or didn't begin.

use sporc_serve::ServeFault;
use thiserror::Error;

/// Why an order is not added.
#[derive(Clone, Copy, Debug, PartialEq, Eq, Error)]
pub enum DocsFault {
    /// An order of that document is held.
    #[error("the document is held already")]
    Exists,
    /// As many are held as may be.
    #[error("as many documents are held as may be")]
    Full,
    /// Out of memory.
    #[error("out of memory")]
    Memory,
}

/// What a server of many documents answers where not all went well.
#[derive(Clone, Copy, Debug, PartialEq, Eq, Error)]
pub enum DocsServeFault {
    /// A call of the net failed, which counts it.
    #[error("the net failed")]
    ListenFault,
    /// This ticket of a document's lock is never drawn.
    #[error("ticket {0} is never drawn")]
    Worn(u64),
    /// Memory ran out, of the server or in a session.
    #[error("out of memory")]
    Memory,
    /// A tail did not keep an entry.
    #[error("an entry is not kept")]
    Unkept,
}

impl From<ServeFault> for DocsServeFault {
    ghost use Rattle.std.specs.Prelude.{◌≡◌, Err};
    ghost use Rattle.sporc_docs.specs.Served.{as_served};

    ghost from_gives = { λ fault e. as_served (Err e) ≡ Err fault };

    fn from(fault: ServeFault) -> DocsServeFault {
        match fault {
            ServeFault::ListenFault => DocsServeFault::ListenFault,
            ServeFault::Worn(ticket) => DocsServeFault::Worn(ticket),
            ServeFault::Memory => DocsServeFault::Memory,
            ServeFault::Unkept => DocsServeFault::Unkept,
        }
    }
}
