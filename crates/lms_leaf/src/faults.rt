//! Why no leaf is drawn, and why a leaf file is not opened.

ghost use Rattle.std.specs.Prelude.{◌≡◌};
ghost use Rattle.lms_leaf.specs.declared.faults.LeafOpenFault.TheVariants as open_faults;

use sporc_outside::Failed;
use std::alloc::AllocError;
use thiserror::Error;

/// Why a leaf file was not opened.
#[derive(Clone, Copy, Debug, PartialEq, Eq, Error)]
pub enum LeafOpenFault {
    #[error("the disk of the leaf file failed")]
    DiskFault,
    #[error("the leaf file has a wrong length of {0} bytes")]
    BadLength(u64),
    #[error("out of memory")]
    Memory,
}

impl From<AllocError> for LeafOpenFault {
    ghost from_gives = { λ _ fault. fault ≡ open_faults.Memory };

    fn from(_: AllocError) -> LeafOpenFault {
        LeafOpenFault::Memory
    }
}

impl From<Failed> for LeafOpenFault {
    ghost from_gives = { λ _ fault. fault ≡ open_faults.DiskFault };

    fn from(_: Failed) -> LeafOpenFault {
        LeafOpenFault::DiskFault
    }
}

/// Why no leaf was drawn.
#[derive(Clone, Copy, Debug, PartialEq, Eq, Error)]
pub enum LeafFault {
    #[error("all {0} leaves are drawn")]
    Exhausted(u32),
    #[error("the disk of the leaf file failed")]
    DiskFault,
}
