//! Lines of editor scripts.

use crate::member_role::MemberRole;
use crate::text_edit::{Insertion, Removal};
use sporc_member::{Device, Founder, KeyedDevice};

/// The bytes of a public key (RFC 8554, section 5.3).
pub const KEY_BYTES: usize = 56;

/// A line of a script that is not skipped.
#[derive(Drop)]
pub struct EditorLine {
    /// Counted from 1, skipped lines counted too.
    pub number: u32,
    pub command: EditorCommand,
}

/// What a line of an editor script asks for.
#[derive(Drop)]
pub enum EditorCommand {
    /// `insert AT TEXT`
    Insert(Insertion),
    /// `remove AT COUNT`
    Remove(Removal),
    /// `add N ROLE HEX`, with the digits of the new member's key.
    Add(Founder),
    /// `drop N`
    Drop(u16),
    /// `role N ROLE`
    SetRole(MemberRole),
    /// `device N D HEX`, with the digits of the new device's key.
    AddDevice(KeyedDevice),
    /// `drop-device N D`
    DropDevice(Device),
    /// `upgrade`
    Upgrade,
}

/// The first word of a line that has more.
#[derive(Clone, Copy)]
pub enum EditorWord {
    Insert,
    Remove,
    Add,
    Drop,
    Role,
    Device,
    DropDevice,
}
