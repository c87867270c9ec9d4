//! What stands before an entry's body.

ghost use Rattle.std.specs.Prelude.{◌≡◌, ◌++◌, [], OnOk};
ghost use Rattle.sporc_bytes.specs.Fields.{Reads};
ghost use Rattle.sporc_entry.specs.Entry.{author_device, device_at, device_bytes, header_at};
ghost use Rattle.sporc_entry.specs.Entry.{header_bytes};

use crate::version::{DEVICES_VERSION, FIRST_VERSION, names_device};
use sporc_base::Memory;
use sporc_bytes::{Cursor, Out, Short};
use sporc_hash::Digest32;
use sporc_member::{Device, FIRST_DEVICE};

/// The kind of an edit.
pub const EDIT: u8 = 1;

/// The kind of a change of the members.
pub const CHANGE: u8 = 2;

/// What stands before an entry's body.
#[derive(Clone, Copy, PartialEq, Eq)]
pub struct Header {
    /// [`FIRST_VERSION`] or [`DEVICES_VERSION`].
    pub version: u8,
    /// The document that the entry is of.
    pub document: [u8; 16],
    /// The number of the member who made the entry.
    pub author: u16,
    /// The number of the author's device that signs it: [`FIRST_DEVICE`] in version 1.
    pub device: u8,
    /// The place of the entry among those of its author's device, from 1.
    pub number: u32,
    /// How many entries of the history the author had seen.
    pub base: u32,
    /// The value of the history's chain after them.
    pub base_hash: Digest32,
    /// The epoch whose key masks an edit or seals a change.
    pub epoch: u32,
    /// The number of the one-time key that signs the entry.
    pub leaf: u32,
    /// [`EDIT`] or [`CHANGE`].
    pub kind: u8,
}

impl Header {
    /// The device that signs the entry.
    pub fn author_device(&self) -> Device
        ensures value { result ≡ author_device self.now }
    {
        Device {
            member: self.author,
            number: self.device,
        }
    }
}

// The author's device, which stands next in an entry of a version that names it.
fn read_device(cursor: &mut Cursor<'_>, version: u8) -> Result<u8, Short>
    ensures { Reads (λ device. (device, cursor.new)) result (device_at version cursor.old) }
{
    if !names_device(version) {
        return Ok(FIRST_DEVICE);
    }
    let device = cursor.u8()?;
    Ok(device)
}

// The header that stands next.
#[tactic(auto, unfolding(crate::specs::Entry::header_at))]
pub(crate) fn read_header(cursor: &mut Cursor<'_>) -> Result<Header, Short>
    ensures { Reads (λ header. (header, cursor.new)) result (header_at cursor.old) }
{
    let version = cursor.u8_within(FIRST_VERSION, DEVICES_VERSION)?;
    let document = cursor.array()?;
    let author = cursor.u16()?;
    let device = read_device(cursor, version)?;
    let number = cursor.u32()?;
    let base = cursor.u32()?;
    let base_hash = cursor.array()?;
    let epoch = cursor.u32()?;
    let leaf = cursor.u32()?;
    let kind = cursor.u8_within(EDIT, CHANGE)?;
    Ok(Header {
        version,
        document,
        author,
        device,
        number,
        base,
        base_hash,
        epoch,
        leaf,
        kind,
    })
}

// Appends the author's device in an entry of a version that names it.
fn put_device(out: &mut Out, header: &Header) -> Result<(), Memory>
    ensures { OnOk result (out.new ≡ out.old ++ device_bytes header.now.version header.now.device) }
{
    if !names_device(header.version) {
        return Ok(());
    }
    out.put_u8(header.device)
}

// Appends a header.
#[tactic(auto, unfolding(crate::specs::Entry::header_bytes))]
pub(crate) fn put_header(out: &mut Out, header: &Header) -> Result<(), Memory>
    ensures { OnOk result (out.new ≡ out.old ++ header_bytes header.now []) }
{
    out.put_u8(header.version)?;
    out.put_bytes(&header.document)?;
    out.put_u16(header.author)?;
    put_device(out, header)?;
    out.put_u32(header.number)?;
    out.put_u32(header.base)?;
    out.put_bytes(&header.base_hash)?;
    out.put_u32(header.epoch)?;
    out.put_u32(header.leaf)?;
    out.put_u8(header.kind)?;
    Ok(())
}
