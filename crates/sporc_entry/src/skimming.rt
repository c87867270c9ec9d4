//! The header of an entry, read without memory: the sealed keys of a change are passed over.

ghost use Rattle.std.specs.Prelude.{◌≡◌, ◌≤◌, length};
ghost use Rattle.sporc_bytes.specs.Fields.{Reads, values_at};
ghost use Rattle.sporc_entry.specs.declared.limits.TheConstants.{MAX_EDIT_BODY};
ghost use Rattle.sporc_entry.specs.ChangeBody.{change_body_at, wrap_at};
ghost use Rattle.sporc_entry.specs.Entry.{body_read, entry_of};
ghost use Rattle.sporc_entry.specs.Skimming.{header_in, header_of, left_by};

use crate::change::{read_member_change, read_wrap};
use crate::header::{EDIT, Header, read_header};
use crate::limits::MAX_SIGNATURE;
use crate::version::body_at;
use crate::view::limit_of;
use sporc_bytes::{Cursor, Short};
use sporc_member::MAX_MEMBERS;

/// The header of the entry that these bytes spell. None if they spell none. It takes no memory.
#[tactic(auto, unfolding(crate::specs::Skimming::header_in))]
pub fn header_in(bytes: &[u8]) -> Option<Header>
    ensures value { result ≡ header_in bytes.now }
{
    match skim(bytes) {
        Ok(header) => Some(header),
        Err(_) => None,
    }
}

// The header of the entry that these bytes spell.
#[tactic(auto, unfolding(crate::specs::Entry::entry_of))]
fn skim(bytes: &[u8]) -> Result<Header, Short>
    ensures { Reads (λ header. header) result (header_of (entry_of bytes.now)) }
{
    let mut cursor = Cursor::new(bytes);
    let header = read_header(&mut cursor)?;
    let body = cursor.counted(limit_of(header.kind))?;
    skim_body(&header, body)?;
    cursor.counted(MAX_SIGNATURE)?;
    cursor.ended()?;
    Ok(header)
}

// Whether these bytes are the body behind this header.
fn skim_body(header: &Header, body: &[u8]) -> Result<(), Short>
    requires { length body.now ≤ MAX_EDIT_BODY }
    ensures { Reads (λ _. tt) result (body_read header.now body.now) }
{
    if header.kind == EDIT {
        return Ok(());
    }
    let mut cursor = Cursor::within(body, body_at(header.version));
    skim_change(&mut cursor, header.version)?;
    cursor.ended()
}

// Passes over the fields of a change's body, in an entry of this version.
#[tactic(auto, unfolding(crate::specs::ChangeBody::change_body_at))]
fn skim_change(cursor: &mut Cursor<'_>, version: u8) -> Result<(), Short>
    ensures { Reads (λ _. cursor.new) result (left_by (change_body_at version cursor.old)) }
{
    read_member_change(cursor, version)?;
    cursor.take(32)?;
    cursor.take(32)?;
    let count = cursor.u16_within(0, u32::from(MAX_MEMBERS))?;
    skim_wraps(cursor, count)
}

// Passes over sealed keys.
fn skim_wraps(cursor: &mut Cursor<'_>, count: u16) -> Result<(), Short>
    ensures { Reads (λ _. cursor.new) result (left_by (values_at wrap_at count cursor.old)) }
{
    for _ in 0..count {
        read_wrap(cursor)?;
    }
    Ok(())
}
