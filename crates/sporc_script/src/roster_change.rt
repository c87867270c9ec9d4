//! Changes of the members.

use crate::member_role::MemberRole;
use sporc_member::Device;

/// A change of the members. The key of a new one, or of a further device, is the device's own.
#[derive(Clone, Copy)]
pub enum RosterChange {
    /// `add N ROLE`
    Add(MemberRole),
    /// `remove N`
    Remove(u16),
    /// `role N ROLE`
    SetRole(MemberRole),
    /// `device N D`
    AddDevice(Device),
    /// `drop-device N D`
    DropDevice(Device),
    /// `upgrade`
    Upgrade,
}

/// The first word of a change that has more.
#[derive(Clone, Copy)]
pub enum RosterWord {
    Add,
    Remove,
    Role,
    Device,
    DropDevice,
}
