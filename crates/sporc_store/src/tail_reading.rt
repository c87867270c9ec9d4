//! The tail of a log that is read, unchecked.

ghost use Rattle.std.specs.Prelude.{◌≡◌, ◌+◌, ◌≤◌, length, map, Ok, Err, IfOk, IfErr, OnOk, IsTrue};
ghost use Rattle.std.specs.Int.{w32};
ghost use Rattle.sporc_bytes.specs.Fields.{number_at};
ghost use Rattle.sporc_head.specs.declared.limits.TheConstants.{MAX_ENTRIES};
ghost use Rattle.sporc_outside.specs.declared.file_fault.TheConstants.{MAX_FILE};
ghost use Rattle.sporc_store.specs.declared.head.TheConstants.{HEAD_LEN};
ghost use Rattle.sporc_store.specs.TailBytes.{IsUnread, TakesOne, behind_head, record_at};
ghost use Rattle.sporc_store.specs.TailBytes.{records_behind, records_of, tail_behind, taken_from};
ghost use Rattle.sporc_store.specs.TailBytes.{taken_to};

use crate::head::{HEAD_LEN, head_of};
use crate::saved_entry::SavedEntry;
use crate::tail_fault::TailFault;
use sporc_base::is_same;
use sporc_bytes::Cursor;
use sporc_entry::MAX_ENTRY;
use std::alloc::Global;

// Why there is no record.
#[derive(Clone, Copy)]
pub(crate) enum RecordEnd {
    // The bytes end before it does.
    Cut,
    // What stands at this place does not fit.
    Misfit(usize),
}

// The entries of a tail that a log lacks, where they stand, and where the last whole record ends.
#[derive(Drop)]
pub(crate) struct TailEntries<'a> {
    pub(crate) entries: Vec<SavedEntry<'a>>,
    pub(crate) whole: usize,
}

// The entries that a log lacks of its document's tail.
#[tactic(auto, unfolding(crate::specs::TailBytes::tail_behind))]
pub(crate) fn read_tail<'a>(
    alloc: Global,
    log: &[Vec<u8>],
    document: &[u8; 16],
    bytes: &'a [u8],
) -> Result<TailEntries<'a>, TailFault>
    requires log_limit { length log.now ≤ MAX_ENTRIES }
    requires bytes_limit { length bytes.now ≤ MAX_FILE }
    ensures ok { IfOk result
        (λ tail. tail_behind (map (λ e. e.items) log.now) document.now bytes.entry.now
        ≡ Ok (taken_to tail.entries.items tail.whole)) }
    ensures err { IfErr result
        (IsUnread (tail_behind (map (λ e. e.items) log.now) document.now bytes.entry.now)) }
    ensures within { IfOk result (λ tail. tail.whole ≤ length bytes.entry.now) }
    ensures entries_within { IfOk result
        (λ tail. length tail.entries.items ≤ length bytes.entry.now) }
{
    let head = head_of(b"SPT1", document);
    if bytes.starts_with(&head) {
        return read_records(alloc, log, bytes);
    }
    if !head.starts_with(bytes) {
        return Err(TailFault::Malformed(0));
    }
    Ok(TailEntries {
        entries: Vec::new(alloc),
        whole: 0,
    })
}

// The entries that a log lacks of the records behind a head.
fn read_records<'a>(
    alloc: Global,
    log: &[Vec<u8>],
    bytes: &'a [u8],
) -> Result<TailEntries<'a>, TailFault>
    requires log_limit { length log.now ≤ MAX_ENTRIES }
    requires head { HEAD_LEN ≤ length bytes.now }
    requires bytes_limit { length bytes.now ≤ MAX_FILE }
    ensures ok { IfOk result (λ tail. records_of (map (λ e. e.items) log.now)
        (behind_head bytes.entry.now) (number_at w32 (behind_head bytes.entry.now))
        ≡ Ok (taken_to tail.entries.items tail.whole)) }
    ensures err { IfErr result (IsUnread (records_of (map (λ e. e.items) log.now)
        (behind_head bytes.entry.now) (number_at w32 (behind_head bytes.entry.now)))) }
    ensures within { IfOk result (λ tail. tail.whole ≤ length bytes.entry.now) }
    ensures entries_within { IfOk result
        (λ tail. length tail.entries.items ≤ length bytes.entry.now) }
{
    let records = &bytes[HEAD_LEN..];
    let mut start = Cursor::within(records, HEAD_LEN);
    match start.u32() {
        Ok(first) => {
            if first < 1 || first as usize > log.len() + 1 {
                return Err(TailFault::Malformed(HEAD_LEN));
            }
            let ahead = &log[first as usize - 1..];
            records_from(alloc, ahead, first, Cursor::within(records, HEAD_LEN))
        }
        Err(_) => Ok(TailEntries {
            entries: Vec::new(alloc),
            whole: HEAD_LEN,
        }),
    }
}

// The entries of records from a position on, behind those that a log has from there on.
fn records_from<'a>(
    alloc: Global,
    ahead: &[Vec<u8>],
    first: u32,
    cursor: Cursor<'a>,
) -> Result<TailEntries<'a>, TailFault>
    requires first_limit { first ≤ MAX_ENTRIES + 1 }
    requires bytes_limit { length cursor.rest ≤ MAX_FILE }
    ensures ok { IfOk result (λ tail. records_behind (length cursor.entry.rest) (map (λ e. e.items)
        ahead.now) first cursor.entry ≡ Ok (taken_to tail.entries.items tail.whole)) }
    ensures err { IfErr result (IsUnread (records_behind (length cursor.entry.rest)
        (map (λ e. e.items) ahead.now) first cursor.entry)) }
    ensures within { IfOk result (λ tail. tail.whole ≤ cursor.entry.at + length cursor.entry.rest) }
    ensures entries_within { IfOk result
        (λ tail. length tail.entries.items ≤ length cursor.entry.rest) }
{
    let mut cursor = cursor;
    let mut ahead = ahead;
    let mut tail = TailEntries {
        entries: Vec::new(alloc),
        whole: cursor.at(),
    };
    for n in 0..cursor.rest().len() {
        let goes = match take_record(&mut tail, &mut ahead, first + n as u32, &mut cursor) {
            Ok(goes) => goes,
            Err(fault) => return Err(fault),
        };
        if !goes {
            return Ok(tail);
        }
    }
    Ok(tail)
}

// Takes the record with this position, if the bytes don't end before it does.
#[tactic(auto, unfolding(crate::specs::TailBytes::records_behind))]
fn take_record<'a, 'b>(
    tail: &mut TailEntries<'a>,
    ahead: &mut &'b [Vec<u8>],
    position: u32,
    cursor: &mut Cursor<'a>,
) -> Result<bool, TailFault>
    requires whole { tail.old.whole ≡ cursor.old.at }
    ensures goes { TakesOne (taken_from tail.old.entries.items (map (λ e. e.items) ahead.old.now)
        position cursor.old) (taken_from tail.new.entries.items (map (λ e. e.items) ahead.new.now)
        (position + 1) cursor.new) (taken_to tail.new.entries.items tail.new.whole) result }
    ensures whole { IfOk result (λ goes. IsTrue goes → tail.new.whole ≡ cursor.new.at) }
    ensures end { IfOk result (λ goes. IsTrue goes
        → cursor.new.at + length cursor.new.rest ≡ cursor.old.at + length cursor.old.rest) }
    ensures within { OnOk result (tail.new.whole ≤ cursor.old.at + length cursor.old.rest) }
    ensures entries_within { OnOk result
        (length tail.new.entries.items ≤ length tail.old.entries.items + 1) }
{
    let entry = match read_record(cursor, position) {
        Ok(entry) => entry,
        Err(RecordEnd::Cut) => return Ok(false),
        Err(RecordEnd::Misfit(at)) => return Err(TailFault::Malformed(at)),
    };
    let end = cursor.at();
    match ahead.split_first() {
        Some((kept, others)) => {
            if !is_same(kept, entry) {
                return Err(TailFault::Malformed(tail.whole + 8));
            }
            *ahead = others;
        }
        None => tail.entries.push(SavedEntry::new(entry))?,
    }
    tail.whole = end;
    Ok(true)
}

// The entry of the record with this position that stands next.
#[tactic(auto, unfolding(crate::specs::TailBytes::record_at))]
fn read_record<'a>(cursor: &mut Cursor<'a>, position: u32) -> Result<&'a [u8], RecordEnd>
    ensures ok { IfOk result (λ entry. record_at position cursor.old ≡ Ok (entry.now, cursor.new)) }
    ensures err { IfErr result (λ end. record_at position cursor.old ≡ Err end) }
    ensures within { IfOk result
        (λ _. (cursor.new.at + length cursor.new.rest ≡ cursor.old.at + length cursor.old.rest)
        × (cursor.old.at + 8 ≤ cursor.new.at)) }
{
    let at = cursor.at();
    let Ok(found) = cursor.u32() else {
        return Err(RecordEnd::Cut);
    };
    if found != position {
        return Err(RecordEnd::Misfit(at));
    }
    let at = cursor.at();
    let Ok(len) = cursor.u32() else {
        return Err(RecordEnd::Cut);
    };
    if len > MAX_ENTRY {
        return Err(RecordEnd::Misfit(at));
    }
    match cursor.take(len as usize) {
        Ok(entry) => Ok(entry),
        Err(_) => Err(RecordEnd::Cut),
    }
}
