//! The fields of a summary.

ghost use Rattle.std.specs.Prelude.{◌≡◌, ◌+◌, ◌≤◌, ◌++◌, length, IfOk, OnOk};
ghost use Rattle.std.specs.Int.{w32};
ghost use Rattle.std.specs.List.{flat_map};
ghost use Rattle.sporc_base.specs.Outcome.{GivesUnless};
ghost use Rattle.sporc_bytes.specs.Fields.{Reads, fault_as, number_within, values_at};
ghost use Rattle.sporc_evidence.specs.SummaryBytes.{hash_at, summary_at, summary_bytes};

use crate::fault::EvidenceFault;
use crate::summary::Summary;
use sporc_base::Memory;
use sporc_bytes::{Cursor, Out, Short};
use sporc_hash::Digest32;
use sporc_head::MAX_ENTRIES;
use std::alloc::Global;

// The four bytes `SPE1`, which name the format, as a number.
pub(crate) const FORMAT: u32 = 0x5350_4531;

// The next four bytes as a number, which is from `low` to `high`.
#[tactic(auto, unfolding(sporc_bytes::specs::Fields::number_within))]
fn read_within(cursor: &mut Cursor<'_>, low: u32, high: u32) -> Result<u32, Short>
    ensures value { Reads (λ n. (n, cursor.new)) result (number_within low high w32 cursor.old) }
    ensures within { IfOk result (λ n. (low ≤ n) × (n ≤ high)) }
{
    let at = cursor.at();
    let n = cursor.u32()?;
    if n < low || high < n {
        return Err(Short(at));
    }
    Ok(n)
}

// The value of a chain that stands next.
fn read_hash(cursor: &mut Cursor<'_>) -> Result<Digest32, Short>
    ensures { Reads (λ hash. (hash, cursor.new)) result (hash_at cursor.old) }
{
    let hash = cursor.array()?;
    Ok(hash)
}

// The values of a chain that stand next.
fn read_hashes(
    alloc: Global,
    cursor: &mut Cursor<'_>,
    count: u32,
) -> Result<Vec<Digest32>, EvidenceFault>
    ensures value { GivesUnless EvidenceFault.Memory (λ hashes. (hashes.items, cursor.new)) result
        (fault_as EvidenceFault.Malformed (values_at hash_at count cursor.old)) }
    ensures count { IfOk result (λ hashes. length hashes.items ≡ count) }
{
    let mut hashes = Vec::with_capacity(alloc, count as usize)?;
    for _ in 0..count {
        let hash = read_hash(cursor)?;
        hashes.push(hash)?;
    }
    Ok(hashes)
}

// The fields of a summary that stand next.
#[tactic(auto, unfolding(crate::specs::SummaryBytes::summary_at))]
pub(crate) fn read_fields(alloc: Global, cursor: &mut Cursor<'_>) -> Result<Summary, EvidenceFault>
    ensures { GivesUnless EvidenceFault.Memory (λ x. (x, cursor.new)) result
        (fault_as EvidenceFault.Malformed (summary_at cursor.old)) }
{
    read_within(cursor, FORMAT, FORMAT)?;
    let document = cursor.array()?;
    let author = cursor.u16()?;
    let device = cursor.u8()?;
    let count = read_within(cursor, 0, MAX_ENTRIES)?;
    let hashes = read_hashes(alloc, cursor, count + 1)?;
    Ok(Summary {
        document,
        author,
        device,
        hashes,
    })
}

// Appends the values of a chain.
fn put_hashes(out: &mut Out, hashes: &[Digest32]) -> Result<(), Memory>
    ensures { OnOk result (out.new ≡ out.old ++ flat_map (λ h. h) hashes.now) }
{
    for hash in hashes {
        out.put_bytes(hash)?;
    }
    Ok(())
}

// Appends a summary of so many entries, up to its signature.
#[tactic(auto, unfolding(crate::specs::SummaryBytes::summary_bytes))]
pub(crate) fn put_summary(
    out: &mut Out,
    document: &[u8; 16],
    author: u16,
    device: u8,
    count: u32,
    hashes: &[Digest32],
) -> Result<(), Memory>
    requires { count + 1 ≡ length hashes.now }
    ensures { OnOk result (out.new ≡ out.old ++ summary_bytes (record {
      document = document.now;
      author = author;
      device = device;
      hashes = hashes.now;
    })) }
{
    out.put_u32(FORMAT)?;
    out.put_bytes(document)?;
    out.put_u16(author)?;
    out.put_u8(device)?;
    out.put_u32(count)?;
    put_hashes(out, hashes)
}
