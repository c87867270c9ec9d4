//! Why bytes are no entry and no genesis.

use sporc_bytes::Short;
use std::alloc::{AllocError, AllocFailed};
use thiserror::Error;

/// Why bytes are no entry, or no change.
#[derive(Clone, Copy, Debug, PartialEq, Eq, Error)]
pub enum EntryFault {
    /// The first field that is cut short or has a forbidden value begins at this place; if bytes
    /// follow the last field, the first of them stands there.
    #[error("malformed at {0}")]
    Malformed(usize),
    /// Out of memory.
    #[error("out of memory")]
    Memory,
}

impl From<Short> for EntryFault {
    ghost use Rattle.std.specs.Prelude.{◌≡◌};
    ghost use Rattle.sporc_entry.specs.declared.fault.EntryFault.TheVariants as faults;

    ghost from_gives = { λ short e. e ≡ faults.Malformed short.0 };

    fn from(short: Short) -> EntryFault {
        EntryFault::Malformed(short.0)
    }
}

impl From<AllocError> for EntryFault {
    ghost use Rattle.std.specs.Prelude.{◌≡◌};
    ghost use Rattle.sporc_entry.specs.declared.fault.EntryFault.TheVariants as faults;

    ghost from_gives = { λ _ e. e ≡ faults.Memory };

    fn from(_: AllocError) -> EntryFault {
        EntryFault::Memory
    }
}

impl<T: Drop> From<AllocFailed<T>> for EntryFault {
    ghost use Rattle.std.specs.Prelude.{◌≡◌};
    ghost use Rattle.sporc_entry.specs.declared.fault.EntryFault.TheVariants as faults;

    ghost from_gives = { λ _ e. e ≡ faults.Memory };

    fn from(_: AllocFailed<T>) -> EntryFault {
        EntryFault::Memory
    }
}

/// Why bytes are no genesis: the first cause of this list.
#[derive(Clone, Copy, Debug, PartialEq, Eq, Error)]
pub enum GenesisFault {
    /// The first field that is cut short or has a forbidden value begins at this place; if bytes
    /// follow the last field, the first of them stands there.
    #[error("malformed at {0}")]
    Malformed(usize),
    /// No member is an admin.
    #[error("no admin")]
    NoAdmin,
    /// The key of this member, and of none before it, is of no known type.
    #[error("the key of member {0} is of no known type")]
    BadKey(u16),
    /// Out of memory.
    #[error("out of memory")]
    Memory,
}

impl From<Short> for GenesisFault {
    ghost use Rattle.std.specs.Prelude.{◌≡◌};
    ghost use Rattle.sporc_entry.specs.declared.fault.GenesisFault.TheVariants as faults;

    ghost from_gives = { λ short e. e ≡ faults.Malformed short.0 };

    fn from(short: Short) -> GenesisFault {
        GenesisFault::Malformed(short.0)
    }
}

impl From<AllocError> for GenesisFault {
    ghost use Rattle.std.specs.Prelude.{◌≡◌};
    ghost use Rattle.sporc_entry.specs.declared.fault.GenesisFault.TheVariants as faults;

    ghost from_gives = { λ _ e. e ≡ faults.Memory };

    fn from(_: AllocError) -> GenesisFault {
        GenesisFault::Memory
    }
}

impl<T: Drop> From<AllocFailed<T>> for GenesisFault {
    ghost use Rattle.std.specs.Prelude.{◌≡◌};
    ghost use Rattle.sporc_entry.specs.declared.fault.GenesisFault.TheVariants as faults;

    ghost from_gives = { λ _ e. e ≡ faults.Memory };

    fn from(_: AllocFailed<T>) -> GenesisFault {
        GenesisFault::Memory
    }
}
