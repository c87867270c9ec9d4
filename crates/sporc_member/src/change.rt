//! Changes of the members and their devices, and why one is refused.

ghost use Rattle.std.specs.Prelude.{◌≡◌};

use crate::role::Role;
use std::fmt::{self, Display, Formatter, Write};
use thiserror::Error;

/// A change of the members, of their devices, or of the document's version.
#[derive(Clone, Copy, PartialEq, Eq)]
pub enum Change {
    /// A new member, with its role and the 56 bytes of its public key.
    Add {
        member: u16,
        role: Role,
        key: [u8; 56],
    },
    /// A member leaves.
    Remove {
        member: u16,
    },
    /// A member gets another role.
    SetRole {
        member: u16,
        role: Role,
    },
    /// A member gets a further device, with the 56 bytes of its public key.
    AddDevice {
        member: u16,
        device: u8,
        key: [u8; 56],
    },
    /// A device of a member signs no more.
    DropDevice {
        member: u16,
        device: u8,
    },
    /// Members may have further devices from now on.
    Upgrade,
}

/// Why a change is refused.
#[derive(Clone, Copy, Debug, PartialEq, Eq, Error)]
pub enum ChangeFault {
    /// The number is 0 or was a member's before.
    NumberUsed,
    /// No member has that number.
    NotMember,
    /// The member has that role.
    SameRole,
    /// No admin would be left.
    LastAdmin,
    /// The roster is full.
    RosterFull,
    /// The key is of no known type.
    BadKey,
    /// The number was a device of the member before.
    DeviceUsed,
    /// No live device of the member has that number.
    NoDevice,
    /// The member would have no device.
    LastDevice,
    /// The member has as many devices as one can have.
    DevicesFull,
    /// The document is not upgraded.
    NotUpgraded,
    /// The document is upgraded.
    AlreadyUpgraded,
}

// By its name, in one step for all variants.
impl Display for ChangeFault {
    fn fmt<W: Write>(&self, f: &mut Formatter<W>) -> fmt::Result {
        f.write_str(self.name())
    }
}

impl ChangeFault {
    ghost use Rattle.sporc_member.specs.ChangeFault.{change_fault_name, change_fault_code_of};
    ghost use Rattle.sporc_member.specs.ChangeFault.{change_fault_with_code};

    /// The name that is printed.
    pub fn name(self) -> &'static str
        ensures value { result.now ≡ change_fault_name self }
    {
        match self {
            ChangeFault::NumberUsed => "number-used",
            ChangeFault::NotMember => "not-member",
            ChangeFault::SameRole => "same-role",
            ChangeFault::LastAdmin => "last-admin",
            ChangeFault::RosterFull => "roster-full",
            ChangeFault::BadKey => "bad-key",
            ChangeFault::DeviceUsed => "device-used",
            ChangeFault::NoDevice => "no-device",
            ChangeFault::LastDevice => "last-device",
            ChangeFault::DevicesFull => "devices-full",
            ChangeFault::NotUpgraded => "not-upgraded",
            ChangeFault::AlreadyUpgraded => "already-upgraded",
        }
    }

    /// The number that is sent, from 1 to 12.
    pub fn code(self) -> u8
        ensures value { result ≡ change_fault_code_of self }
    {
        match self {
            ChangeFault::NumberUsed => 1,
            ChangeFault::NotMember => 2,
            ChangeFault::SameRole => 3,
            ChangeFault::LastAdmin => 4,
            ChangeFault::RosterFull => 5,
            ChangeFault::BadKey => 6,
            ChangeFault::DeviceUsed => 7,
            ChangeFault::NoDevice => 8,
            ChangeFault::LastDevice => 9,
            ChangeFault::DevicesFull => 10,
            ChangeFault::NotUpgraded => 11,
            ChangeFault::AlreadyUpgraded => 12,
        }
    }

    /// The fault with that number.
    pub fn from_code(code: u32) -> Option<ChangeFault>
        ensures value { result ≡ change_fault_with_code code }
    {
        match code {
            1 => Some(ChangeFault::NumberUsed),
            2 => Some(ChangeFault::NotMember),
            3 => Some(ChangeFault::SameRole),
            4 => Some(ChangeFault::LastAdmin),
            5 => Some(ChangeFault::RosterFull),
            6 => Some(ChangeFault::BadKey),
            7 => Some(ChangeFault::DeviceUsed),
            8 => Some(ChangeFault::NoDevice),
            9 => Some(ChangeFault::LastDevice),
            10 => Some(ChangeFault::DevicesFull),
            11 => Some(ChangeFault::NotUpgraded),
            12 => Some(ChangeFault::AlreadyUpgraded),
            _ => None,
        }
    }
}
