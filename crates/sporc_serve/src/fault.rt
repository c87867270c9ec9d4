//! Why a server stopped, or didn't begin.

use thiserror::Error;

/// What a server answers where not all went well.
#[derive(Clone, Copy, Debug, PartialEq, Eq, Error)]
pub enum ServeFault {
    /// A call of the net failed, which counts it.
    #[error("the net failed")]
    ListenFault,
    /// This ticket of the lock is never drawn.
    #[error("ticket {0} is never drawn")]
    Worn(u64),
    /// Memory ran out, of the server or in a session.
    #[error("out of memory")]
    Memory,
    /// The tail did not keep an entry.
    #[error("an entry is not kept")]
    Unkept,
}
