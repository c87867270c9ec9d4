//! Why no summary is made, and why bytes are no evidence.

ghost use Rattle.std.specs.Prelude.{◌≡◌};
ghost use Rattle.sporc_evidence.specs.declared.fault.EvidenceFault.TheVariants as evidence;
ghost use Rattle.sporc_evidence.specs.declared.fault.SummaryFault.TheVariants as summaries;

use lms_leaf::LeafFault;
use sporc_bytes::Short;
use std::alloc::{AllocError, AllocFailed};
use thiserror::Error;

/// Why no summary was made.
#[derive(Clone, Copy, Debug, PartialEq, Eq, Error)]
pub enum SummaryFault {
    #[error("all {0} leaves are drawn")]
    Exhausted(u32),
    #[error("the disk of the leaf file failed")]
    LeafFault,
    #[error("out of memory")]
    Memory,
}

impl From<LeafFault> for SummaryFault {
    ghost use Rattle.sporc_evidence.specs.Summarizing.{draw_fault};

    ghost from_gives = { λ leaf fault. fault ≡ draw_fault leaf };

    fn from(fault: LeafFault) -> SummaryFault {
        match fault {
            LeafFault::Exhausted(next) => SummaryFault::Exhausted(next),
            LeafFault::DiskFault => SummaryFault::LeafFault,
        }
    }
}

impl From<AllocError> for SummaryFault {
    ghost from_gives = { λ _ fault. fault ≡ summaries.Memory };

    fn from(_: AllocError) -> SummaryFault {
        SummaryFault::Memory
    }
}

/// Why bytes are no evidence for a document: the first cause of this list.
#[derive(Clone, Copy, Debug, PartialEq, Eq, Error)]
pub enum EvidenceFault {
    /// The first field that is cut short or has a forbidden value begins at this place; if bytes
    /// follow the last field, the first of them stands there.
    #[error("malformed at {0}")]
    Malformed(usize),
    /// It is of another document.
    #[error("of another document")]
    WrongDocument,
    /// Its history begins with another genesis.
    #[error("of another genesis")]
    WrongGenesis,
    /// Its author is no founder, or a further device of one.
    #[error("not by a founder's first device")]
    UnknownSigner,
    /// Its signature does not verify under the founder's key.
    #[error("the signature does not verify")]
    BadSignature,
    /// Out of memory.
    #[error("out of memory")]
    Memory,
}

impl From<Short> for EvidenceFault {
    ghost from_gives = { λ short fault. fault ≡ evidence.Malformed short.0 };

    fn from(short: Short) -> EvidenceFault {
        EvidenceFault::Malformed(short.0)
    }
}

impl From<AllocError> for EvidenceFault {
    ghost from_gives = { λ _ fault. fault ≡ evidence.Memory };

    fn from(_: AllocError) -> EvidenceFault {
        EvidenceFault::Memory
    }
}

impl<T: Drop> From<AllocFailed<T>> for EvidenceFault {
    ghost from_gives = { λ _ fault. fault ≡ evidence.Memory };

    fn from(_: AllocFailed<T>) -> EvidenceFault {
        EvidenceFault::Memory
    }
}
