//! The frames of entries, which copy each entry once.

ghost use Rattle.std.specs.Prelude.{◌≡◌, ◌≤◌, ◌<◌, ◌^◌, ◌++◌, length, map, OnOk};
ghost use Rattle.std.specs.List.{flat_map};
ghost use Rattle.sporc_base.specs.Outcome.{GivesUnless};
ghost use Rattle.sporc_bytes.specs.Fields.{counted};
ghost use Rattle.sporc_wire.specs.declared.to_client.ToClient.{ToClient};
ghost use Rattle.sporc_wire.specs.declared.to_client.TheConstants.{MAX_PULLED};
ghost use Rattle.sporc_wire.specs.Messages.{framed, counted_to_end};
ghost use Rattle.sporc_wire.specs.ToClient.{to_client_bytes};

use crate::cutter::MAX_BODY;
use crate::fault::FrameFault;
use crate::to_client::ENTRIES;
use sporc_base::Memory;
use sporc_bytes::Out;
use std::alloc::Global;

// The frame of an Entries.
pub(crate) fn entries_frame(
    alloc: Global,
    first: u32,
    entries: &[Vec<u8>],
) -> Result<Vec<u8>, FrameFault>
    requires limit { length entries.now ≤ MAX_PULLED }
    ensures value { GivesUnless FrameFault.Memory (λ v. v.items) result
        (framed (to_client_bytes (ToClient.Entries first (map (λ v. v.items) entries.now)))) }
{
    let len = body_len(first, entries);
    if len > u64::from(MAX_BODY) {
        return Err(FrameFault::TooLong(len));
    }
    let mut out = Out::with_capacity(alloc, len as usize + 4)?;
    out.put_u32(len as u32)?;
    put_body(&mut out, first, entries)?;
    Ok(out.into_bytes())
}

// How many bytes the body has.
fn body_len(first: u32, entries: &[Vec<u8>]) -> u64
    ensures { result ≡ counted_to_end
        (length (to_client_bytes (ToClient.Entries first (map (λ v. v.items) entries.now)))) }
{
    counted_len(entries).saturating_add(6)
}

/// How many bytes entries have, each counted, up to `u64::MAX`.
pub fn counted_len(entries: &[Vec<u8>]) -> u64
    ensures { result ≡ counted_to_end (length (flat_map (λ e. counted e.items) entries.now)) }
{
    let mut len = 0u64;
    for entry in entries {
        len = len.saturating_add((entry.len() as u64).saturating_add(4));
    }
    len
}

// Appends the body.
fn put_body(out: &mut Out, first: u32, entries: &[Vec<u8>]) -> Result<(), Memory>
    requires limit { length entries.now ≤ MAX_PULLED }
    requires body_limit { length
        (to_client_bytes (ToClient.Entries first (map (λ v. v.items) entries.now))) < 2 ^ 32 }
    ensures { OnOk result (out.new
        ≡ out.old ++ to_client_bytes (ToClient.Entries first (map (λ v. v.items) entries.now))) }
{
    out.put_u8(ENTRIES)?;
    out.put_u32(first)?;
    out.put_u8(entries.len() as u8)?;
    put_entries(out, entries)
}

/// Appends entries, each counted.
pub fn put_entries(out: &mut Out, entries: &[Vec<u8>]) -> Result<(), Memory>
    requires { length (flat_map (λ e. counted e.items) entries.now) < 2 ^ 32 }
    ensures { OnOk result (out.new ≡ out.old ++ flat_map (λ e. counted e.items) entries.now) }
{
    for entry in entries {
        out.put_counted(entry.as_slice())?;
    }
    Ok(())
}
