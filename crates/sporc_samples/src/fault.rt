//! Why a sample can't be made.

use sporc_entry::GenesisFault;
use std::alloc::{AllocError, AllocFailed};
use thiserror::Error;

/// Why a sample can't be made.
#[derive(Clone, Copy, Debug, PartialEq, Eq, Error)]
pub enum SampleFault {
    #[error("no member of the cast has that number")]
    NoMember,
    #[error("no entry of that version can be by that device")]
    NoVersion,
    #[error("a body is too long")]
    TooLong,
    #[error("the cast can't found a document")]
    NoGenesis,
    #[error("out of memory")]
    Memory,
}

impl From<AllocError> for SampleFault {
    fn from(_: AllocError) -> SampleFault {
        SampleFault::Memory
    }
}

impl<T: Drop> From<AllocFailed<T>> for SampleFault {
    fn from(_: AllocFailed<T>) -> SampleFault {
        SampleFault::Memory
    }
}

impl From<GenesisFault> for SampleFault {
    fn from(fault: GenesisFault) -> SampleFault {
        match fault {
            GenesisFault::Memory => SampleFault::Memory,
            _ => SampleFault::NoGenesis,
        }
    }
}
