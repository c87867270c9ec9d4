//! Bodies of entries.

use crate::cast::DOCUMENT;
use crate::fault::SampleFault;
use crate::keys::{epoch_key, pair_key};
use sporc_base::Memory;
use sporc_bytes::Out;
use sporc_cipher::mask;
use sporc_entry::{ChangeBody, Wrap, Wraps, write_change};
use sporc_hash::commit;
use sporc_member::{Change, Device};
use std::alloc::Global;

/// The bytes of the delta that keeps so many characters and inserts a text behind them.
pub fn insertion(alloc: Global, keep: u64, text: &[u8]) -> Result<Vec<u8>, Memory> {
    let mut out = Out::new(alloc);
    if keep > 0 {
        put_head(&mut out, 1, keep)?;
    }
    put_head(&mut out, 2, text.len() as u64)?;
    out.put_bytes(text)?;
    Ok(out.into_bytes())
}

// The kind of a part, and how many characters or bytes it has.
fn put_head(out: &mut Out, kind: u8, count: u64) -> Result<(), Memory> {
    out.put_u8(kind)?;
    out.put_u64(count)
}

/// The body of an edit: the bytes of a delta, masked under the key of its epoch.
pub fn edit_body(
    alloc: Global,
    device: Device,
    leaf: u32,
    epoch: u32,
    delta: &[u8],
) -> Result<Vec<u8>, Memory> {
    let mut body = Vec::from_slice(alloc, delta)?;
    mask(
        &epoch_key(epoch),
        entry_stream(device, leaf),
        body.as_mut_slice(),
    );
    Ok(body)
}

/// The body of a change that a device signs in an epoch, with the next key sealed for these
/// members.
pub fn change_body(
    alloc: Global,
    change: Change,
    device: Device,
    leaf: u32,
    epoch: u32,
    members: &[u16],
) -> Result<Vec<u8>, SampleFault> {
    let next = epoch.wrapping_add(1);
    let key = epoch_key(next);
    let mut previous = epoch_key(epoch);
    mask(&key, (1 << 60) + u64::from(next), &mut previous);
    let wraps = wraps_of(alloc, &key, device, leaf, members)?;
    if wraps.len() > 64 {
        return Err(SampleFault::TooLong);
    }
    let body = ChangeBody {
        change,
        commitment: commit(&DOCUMENT, next, &key),
        previous,
        wraps: Wraps::new(wraps),
    };
    Ok(write_change(alloc, &body)?)
}

// A key sealed for members.
fn wraps_of(
    alloc: Global,
    key: &[u8; 32],
    device: Device,
    leaf: u32,
    members: &[u16],
) -> Result<Vec<Wrap>, SampleFault> {
    let mut wraps = Vec::new(alloc);
    for member in members {
        wraps.push(wrap_of(key, device, leaf, *member))?;
    }
    Ok(wraps)
}

// A key sealed for a member.
fn wrap_of(key: &[u8; 32], device: Device, leaf: u32, member: u16) -> Wrap {
    let mut sealed = *key;
    mask(
        &pair_key(device.member, member),
        entry_stream(device, leaf),
        &mut sealed,
    );
    Wrap { member, sealed }
}

// The number of the stream that masks what an entry holds.
fn entry_stream(device: Device, leaf: u32) -> u64 {
    u64::from(device.member) * (1 << 40) + u64::from(device.number) * (1 << 32) + u64::from(leaf)
}
