//! Messages to a client.

ghost use Rattle.std.specs.Prelude.{◌≡◌, ◌-◌, ◌≤◌, ◌^◌, length, map, IfOk};
ghost use Rattle.sporc_base.specs.Outcome.{GivesUnless};
ghost use Rattle.sporc_bytes.specs.Fields.{Reads, counted_at, fault_as, values_at};
ghost use Rattle.sporc_wire.specs.declared.to_client.ToClient.{ToClient};
ghost use Rattle.sporc_wire.specs.declared.to_client.TheConstants.{MAX_PULLED};
ghost use Rattle.sporc_wire.specs.Messages.{framed};
ghost use Rattle.sporc_wire.specs.Stream.{frame};
ghost use Rattle.sporc_wire.specs.ToClient.{ordered_at, rejected_at, entries_at, empty_at};
ghost use Rattle.sporc_wire.specs.ToClient.{to_client_bytes, IsToClient};

use crate::entries::Entries;
use crate::entry_frames::entries_frame;
use crate::fault::FrameFault;
use crate::message::{BodyFault, Message};
use crate::refusals::{detail_of, refusal_with};
use sporc_base::Memory;
use sporc_bytes::{Cursor, Out, Short};
use sporc_head::Refusal;
use std::alloc::Global;

// The first byte of each body.
const ORDERED: u8 = 1;

const REJECTED: u8 = 2;

pub(crate) const ENTRIES: u8 = 3;

const EMPTY: u8 = 4;

// The greatest number of a check.
const MAX_CODE: u8 = 23;

/// How many entries one answer holds at most.
pub const MAX_PULLED: u8 = 16;

/// A message to a client. Submit is answered by Ordered or Rejected, and Pull by Entries or Empty.
#[derive(Drop)]
pub enum ToClient {
    /// The entry has this position.
    Ordered { pos: u32 },
    /// The entry fails a check.
    Rejected { refusal: Refusal },
    /// Entries, the first of them at position `first`.
    Entries { first: u32, entries: Entries },
    /// There are no more entries.
    Empty,
}

impl Message for ToClient {
    ghost of = { Rattle.sporc_wire.specs.ToClient.to_client_of };

    #[tactic(auto, unfolding(crate::specs::ToClient::to_client_of))]
    fn read(alloc: Global, body: &[u8]) -> Result<ToClient, BodyFault> {
        let mut cursor = Cursor::new(body);
        match cursor.u8()? {
            ORDERED => Ok(read_ordered(&mut cursor)?),
            REJECTED => Ok(read_rejected(&mut cursor)?),
            ENTRIES => read_entries(alloc, &mut cursor),
            EMPTY => Ok(read_empty(&mut cursor)?),
            _ => Err(BodyFault::Bad(0)),
        }
    }
}

// The rest of an Ordered.
#[tactic(auto, unfolding(crate::specs::ToClient::ordered_at))]
fn read_ordered(cursor: &mut Cursor<'_>) -> Result<ToClient, Short>
    ensures { Reads (λ m. m) result (ordered_at cursor.old) }
{
    let pos = cursor.u32()?;
    cursor.ended()?;
    Ok(ToClient::Ordered { pos })
}

// The rest of a Rejected.
#[tactic(auto, unfolding(crate::specs::ToClient::rejected_at))]
fn read_rejected(cursor: &mut Cursor<'_>) -> Result<ToClient, Short>
    ensures { Reads (λ m. m) result (rejected_at cursor.old) }
{
    let code = cursor.u8_within(1, MAX_CODE)?;
    let at = cursor.at();
    let detail = cursor.u32()?;
    let Some(refusal) = refusal_with(code, detail) else {
        return Err(Short(at));
    };
    cursor.ended()?;
    Ok(ToClient::Rejected { refusal })
}

// The rest of an Entries.
#[tactic(auto, unfolding(crate::specs::ToClient::entries_at))]
fn read_entries(alloc: Global, cursor: &mut Cursor<'_>) -> Result<ToClient, BodyFault>
    ensures { GivesUnless BodyFault.Memory (λ m. m) result
        (fault_as BodyFault.Bad (entries_at cursor.old)) }
{
    let first = cursor.u32()?;
    let count = cursor.u8_within(1, MAX_PULLED)?;
    let entries = read_list(alloc, cursor, count)?;
    cursor.ended()?;
    Ok(ToClient::Entries { first, entries })
}

// The rest of an Empty.
#[tactic(auto, unfolding(crate::specs::ToClient::empty_at))]
fn read_empty(cursor: &mut Cursor<'_>) -> Result<ToClient, Short>
    ensures { Reads (λ m. m) result (empty_at cursor.old) }
{
    cursor.ended()?;
    Ok(ToClient::Empty)
}

// The counted entries that stand next.
fn read_list(alloc: Global, cursor: &mut Cursor<'_>, count: u8) -> Result<Entries, BodyFault>
    ensures { GivesUnless BodyFault.Memory (λ entries. (entries, cursor.new)) result
        (fault_as BodyFault.Bad (values_at (counted_at (2 ^ 32 - 1)) count cursor.old)) }
{
    let mut entries = Entries::with_capacity(alloc, usize::from(count))?;
    for _ in 0..count {
        let entry = cursor.counted(u32::MAX)?;
        let copy = Vec::from_slice(alloc, entry)?;
        entries.push(copy)?;
    }
    Ok(entries)
}

// The frame of an Ordered.
fn ordered_frame(alloc: Global, pos: u32) -> Result<Vec<u8>, Memory>
    ensures { IfOk result (λ v. v.items ≡ frame (to_client_bytes (ToClient.Ordered pos))) }
{
    let mut out = Out::new(alloc);
    out.put_u32(5)?;
    out.put_u8(ORDERED)?;
    out.put_u32(pos)?;
    Ok(out.into_bytes())
}

// The frame of a Rejected.
fn rejected_frame(alloc: Global, refusal: Refusal) -> Result<Vec<u8>, Memory>
    requires range { IsToClient (ToClient.Rejected refusal) }
    ensures { IfOk result (λ v. v.items ≡ frame (to_client_bytes (ToClient.Rejected refusal))) }
{
    let mut out = Out::new(alloc);
    out.put_u32(6)?;
    out.put_u8(REJECTED)?;
    out.put_u8(refusal.code())?;
    out.put_u32(detail_of(refusal))?;
    Ok(out.into_bytes())
}

// The frame of an Empty.
fn empty_frame(alloc: Global) -> Result<Vec<u8>, Memory>
    ensures { IfOk result (λ v. v.items ≡ frame (to_client_bytes ToClient.Empty)) }
{
    let mut out = Out::new(alloc);
    out.put_u32(1)?;
    out.put_u8(EMPTY)?;
    Ok(out.into_bytes())
}

/// The frame of a message. `TooLong` exactly if its body is above the limit.
pub fn write_to_client(alloc: Global, message: &ToClient) -> Result<Vec<u8>, FrameFault>
    requires { IsToClient message.now }
    ensures value { GivesUnless FrameFault.Memory (λ v. v.items) result
        (framed (to_client_bytes message.now)) }
{
    match message {
        ToClient::Ordered { pos } => Ok(ordered_frame(alloc, *pos)?),
        ToClient::Rejected { refusal } => Ok(rejected_frame(alloc, *refusal)?),
        ToClient::Entries { first, entries } => entries_frame(alloc, *first, entries.as_slice()),
        ToClient::Empty => Ok(empty_frame(alloc)?),
    }
}

/// The frame of an Entries whose entries stand elsewhere: each is copied once, into the frame.
/// `TooLong` exactly if its body is above the limit.
pub fn write_entries(alloc: Global, first: u32, entries: &[Vec<u8>]) -> Result<Vec<u8>, FrameFault>
    requires positive { 1 ≤ length entries.now }
    requires limit { length entries.now ≤ MAX_PULLED }
    ensures value { GivesUnless FrameFault.Memory (λ v. v.items) result
        (framed (to_client_bytes (ToClient.Entries first (map (λ v. v.items) entries.now)))) }
{
    entries_frame(alloc, first, entries)
}
