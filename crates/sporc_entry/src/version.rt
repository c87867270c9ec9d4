//! The versions of entries: what stands in one of each, and which kinds of change it has.

ghost use Rattle.std.specs.Prelude.{◌≡◌, ◌≤◌};
ghost use Rattle.sporc_entry.specs.Version.{version_of, names_device, fits_version, has_kind};
ghost use Rattle.sporc_entry.specs.Version.{body_place};

use sporc_member::FIRST_DEVICE;

/// The version of a document's entries up to its Upgrade: an entry names no device, and is by its
/// author's first.
pub const FIRST_VERSION: u8 = 1;

/// The version of a document's entries behind its Upgrade: an entry names its author's device.
pub const DEVICES_VERSION: u8 = 2;

// The kinds of changes.
pub(crate) const ADD: u8 = 1;

pub(crate) const REMOVE: u8 = 2;

pub(crate) const SET_ROLE: u8 = 3;

pub(crate) const ADD_DEVICE: u8 = 4;

pub(crate) const DROP_DEVICE: u8 = 5;

pub(crate) const UPGRADE: u8 = 6;

/// The version of an entry behind a history that holds an Upgrade, or none.
pub fn version_of(upgraded: bool) -> u8
    ensures value { result ≡ version_of upgraded }
{
    if upgraded {
        DEVICES_VERSION
    } else {
        FIRST_VERSION
    }
}

/// Whether there is this version, and an entry of it can be by this device of its author.
pub fn fits_version(version: u8, device: u8) -> bool
    ensures value { result ≡ fits_version version device }
{
    names_device(version) || version == FIRST_VERSION && device == FIRST_DEVICE
}

// Whether an entry of this version names its author's device.
pub(crate) fn names_device(version: u8) -> bool
    ensures { result ≡ names_device version }
{
    version == DEVICES_VERSION
}

// Whether an entry of this version may be a change of this kind.
pub(crate) fn has_kind(version: u8, kind: u8) -> bool
    ensures { result ≡ has_kind version kind }
{
    if names_device(version) {
        ADD <= kind && kind <= DROP_DEVICE
    } else {
        ADD <= kind && kind <= SET_ROLE || kind == UPGRADE
    }
}

/// The place of the first byte of the body of an entry of this version: its header has 68 bytes, or
/// 69 with a device, and the length of its body 4.
pub fn body_at(version: u8) -> usize
    ensures value { result ≡ body_place version }
    ensures within { result ≤ 73 }
{
    if names_device(version) { 73 } else { 72 }
}
