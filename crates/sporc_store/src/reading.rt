//! A saved history that is read, unchecked.

ghost use Rattle.std.specs.Prelude.{◌≡◌, ◌<◌, ◌^◌, IfOk, IfErr, vec_len};
ghost use Rattle.sporc_base.specs.Outcome.{Gives};
ghost use Rattle.sporc_bytes.specs.Fields.{Reads, end_at};
ghost use Rattle.sporc_store.specs.SavedFile.{IsUnchecked, count_at, entries_at, opened, read_to};
ghost use Rattle.sporc_store.specs.SavedFile.{saved_in, stop_behind};
ghost use Rattle.sporc_store.specs.Loading.{NamesCheck};

use crate::head::{HEAD_LEN, head_of};
use crate::saved_entry::SavedEntry;
use crate::stop::Stop;
use sporc_base::Memory;
use sporc_bytes::{Cursor, Short};
use sporc_head::MAX_ENTRIES;
use std::alloc::Global;

// How many entries a document's saved history has, and its bytes from the first of them on.
#[tactic(auto, unfolding(crate::specs::SavedFile::opened))]
pub(crate) fn open<'a>(document: &[u8; 16], bytes: &'a [u8]) -> Result<(u32, Cursor<'a>), Stop>
    ensures value { Gives (λ found. (found.0, found.1)) result
        (opened document.now bytes.entry.now) }
    ensures named { IfErr result NamesCheck }
{
    if !bytes.starts_with(&head_of(b"SPH1", document)) {
        return Err(Stop::Foreign);
    }
    let mut cursor = Cursor::within(&bytes[HEAD_LEN..], HEAD_LEN);
    match read_count(&mut cursor) {
        Ok(count) => Ok((count, cursor)),
        Err(Short(at)) => Err(Stop::Cut(at)),
    }
}

// The number of entries that stands next.
#[tactic(auto, unfolding(crate::specs::SavedFile::count_at))]
fn read_count(cursor: &mut Cursor<'_>) -> Result<u32, Short>
    ensures { Reads (λ count. (count, cursor.new)) result (count_at cursor.old) }
{
    let at = cursor.at();
    let count = cursor.u32()?;
    if count > MAX_ENTRIES {
        return Err(Short(at));
    }
    Ok(count)
}

// The entries of a document's saved history, where they stand, up to where its reading stops.
pub(crate) fn saved_entries<'a>(
    alloc: Global,
    document: &[u8; 16],
    bytes: &'a [u8],
) -> Result<(Vec<SavedEntry<'a>>, Stop), Memory>
    ensures ok { IfOk result
        (λ read. read_to read.0.items read.1 ≡ saved_in document.now bytes.entry.now) }
    ensures within { IfOk result (λ read. vec_len read.0 < 2 ^ 32) }
    ensures named { IfOk result (λ read. NamesCheck read.1) }
{
    match open(document, bytes) {
        Ok((count, mut cursor)) => counted_entries(alloc, &mut cursor, count),
        Err(stop) => Ok((Vec::new(alloc), stop)),
    }
}

// So many counted entries, which stand next, and where reading stops behind them.
fn counted_entries<'a>(
    alloc: Global,
    cursor: &mut Cursor<'a>,
    count: u32,
) -> Result<(Vec<SavedEntry<'a>>, Stop), Memory>
    ensures ok { IfOk result (λ read. read_to read.0.items read.1 ≡ entries_at count cursor.old) }
    ensures within { IfOk result (λ read. vec_len read.0 < 2 ^ 32) }
    ensures named { IfOk result (λ read. NamesCheck read.1) }
{
    let mut entries = Vec::new(alloc);
    for _ in 0..count {
        match cursor.counted(u32::MAX) {
            Ok(bytes) => entries.push(SavedEntry::new(bytes))?,
            Err(Short(at)) => return Ok((entries, Stop::Cut(at))),
        }
    }
    let stop = stop_at_end(cursor);
    Ok((entries, stop))
}

// Where reading stops behind so many counted entries, which stand next.
pub(crate) fn stop_of_entries(cursor: &mut Cursor<'_>, count: u32) -> Stop
    ensures value { result ≡ (entries_at count cursor.old).stop }
    ensures unchecked { IsUnchecked result }
{
    for _ in 0..count {
        match cursor.counted(u32::MAX) {
            Ok(_) => {}
            Err(Short(at)) => return Stop::Cut(at),
        }
    }
    stop_at_end(cursor)
}

// Where reading stops behind the last entry.
pub(crate) fn stop_at_end(cursor: &Cursor<'_>) -> Stop
    ensures value { result ≡ stop_behind (end_at cursor.now) }
    ensures unchecked { IsUnchecked result }
    ensures named { NamesCheck result }
{
    if cursor.end() {
        Stop::End
    } else {
        Stop::Cut(cursor.at())
    }
}
