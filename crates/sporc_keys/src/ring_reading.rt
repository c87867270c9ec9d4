//! Ring files, read.

ghost use Rattle.std.specs.Prelude.{◌≡◌, IfOk};
ghost use Rattle.sporc_base.specs.Outcome.{GivesUnless};
ghost use Rattle.sporc_bytes.specs.Fields.{Reads, fault_as};
ghost use Rattle.sporc_keys.specs.Fields.{whole};
ghost use Rattle.sporc_keys.specs.RingFile.{IsRingFile, epoch_key_at, pair_at, pairs_at};
ghost use Rattle.sporc_keys.specs.RingFile.{ring_file_at, ring_file_bytes, ring_file_in};
ghost use Rattle.sporc_keys.specs.RingFile.{ring_file_of_member};

use crate::fault::RingFileFault;
use crate::format::read_format;
use crate::ring_file::{PairKey, PairKeys, RingFile};
use sporc_bytes::{Cursor, Short};
use sporc_entry::HIGHEST_MEMBER;
use std::alloc::Global;

// The key of epoch 0 that stands next, behind a byte that says whether it is there.
#[tactic(auto, unfolding(crate::specs::RingFile::epoch_key_at))]
fn read_epoch_key(cursor: &mut Cursor<'_>) -> Result<Option<[u8; 32]>, Short>
    ensures { Reads (λ key. (key, cursor.new)) result (epoch_key_at cursor.old) }
{
    let has = cursor.u8_within(0, 1)?;
    if has == 0 {
        return Ok(None);
    }
    let key = cursor.array()?;
    Ok(Some(key))
}

// A shared key that stands next, with a member whose number is at least `least`.
#[tactic(auto, unfolding(crate::specs::RingFile::pair_at))]
fn read_pair(cursor: &mut Cursor<'_>, least: u32) -> Result<PairKey, Short>
    ensures { Reads (λ pair. (pair, cursor.new)) result (pair_at least cursor.old) }
{
    let member = cursor.u16_within(least, HIGHEST_MEMBER)?;
    let key = cursor.array()?;
    Ok(PairKey { member, key })
}

// The shared keys that stand next.
fn read_pairs(
    alloc: Global,
    cursor: &mut Cursor<'_>,
    count: u16,
) -> Result<Vec<PairKey>, RingFileFault>
    ensures { GivesUnless RingFileFault.Memory (λ pairs. (pairs.items, cursor.new)) result
        (fault_as RingFileFault.Malformed (pairs_at count cursor.old)) }
{
    let mut pairs = Vec::new(alloc);
    let mut least = 0;
    for _ in 0..count {
        let pair = read_pair(cursor, least)?;
        least = u32::from(pair.member) + 1;
        pairs.push(pair)?;
    }
    Ok(pairs)
}

// The fields of a ring file that stand next, of a member from `low` to `high`.
#[tactic(auto, unfolding(crate::specs::RingFile::ring_file_at))]
fn read_fields(
    alloc: Global,
    cursor: &mut Cursor<'_>,
    low: u32,
    high: u32,
) -> Result<RingFile, RingFileFault>
    ensures { GivesUnless RingFileFault.Memory (λ file. (file, cursor.new)) result
        (fault_as RingFileFault.Malformed (ring_file_at low high cursor.old)) }
{
    read_format(cursor, b"SPR1")?;
    let member = cursor.u16_within(low, high)?;
    let epoch_key = read_epoch_key(cursor)?;
    let count = cursor.u16()?;
    let pairs = read_pairs(alloc, cursor, count)?;
    Ok(RingFile {
        member,
        epoch_key,
        pairs: PairKeys::new(pairs),
    })
}

// The ring file that these bytes spell, of a member from `low` to `high`.
fn read_all(alloc: Global, bytes: &[u8], low: u32, high: u32) -> Result<RingFile, RingFileFault>
    ensures { GivesUnless RingFileFault.Memory (λ file. file) result
        (fault_as RingFileFault.Malformed (whole (ring_file_at low high) bytes.now)) }
{
    let mut cursor = Cursor::new(bytes);
    let file = read_fields(alloc, &mut cursor, low, high)?;
    cursor.ended()?;
    Ok(file)
}

/// The ring file that these bytes spell, whoever's it is.
pub fn read_ring_file(alloc: Global, bytes: &[u8]) -> Result<RingFile, RingFileFault>
    // What is read is spelled so.
    ensures found { IfOk result (λ f. IsRingFile f × (bytes.now ≡ ring_file_bytes f)) }
    // Which place it is otherwise, unless memory runs out.
    ensures value { GivesUnless RingFileFault.Memory (λ f. f) result
        (fault_as RingFileFault.Malformed (ring_file_in bytes.now)) }
{
    read_all(alloc, bytes, 0, HIGHEST_MEMBER)
}

/// The ring file of this member that these bytes spell: that of another is malformed at its number,
/// which stands at 4.
pub fn ring_of_member(alloc: Global, bytes: &[u8], member: u16) -> Result<RingFile, RingFileFault>
    ensures found { IfOk result
        (λ f. IsRingFile f × (f.member ≡ member) × (bytes.now ≡ ring_file_bytes f)) }
    ensures value { GivesUnless RingFileFault.Memory (λ f. f) result
        (fault_as RingFileFault.Malformed (ring_file_of_member member bytes.now)) }
{
    read_all(alloc, bytes, u32::from(member), u32::from(member))
}
