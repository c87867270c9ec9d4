//! Histories that are saved.

ghost use Rattle.std.specs.Prelude.{◌≡◌, ◌≤◌, ◌+◌, length, map};
ghost use Rattle.std.specs.List.{flat_map};
ghost use Rattle.sporc_base.specs.Outcome.{GivesUnless};
ghost use Rattle.sporc_bytes.specs.Fields.{counted};
ghost use Rattle.sporc_head.specs.declared.limits.TheConstants.{MAX_ENTRIES};
ghost use Rattle.sporc_wire.specs.Messages.{counted_to_end};
ghost use Rattle.sporc_store.specs.SavedFile.{saved_file};

use crate::fault::SaveFault;
use crate::head::{HEAD_LEN, head_of};
use sporc_bytes::Out;
use sporc_outside::MAX_FILE;
use sporc_wire::{counted_len, put_entries};
use std::alloc::Global;

/// The file of a document's history: its entries, oldest first. `TooLong` exactly if the file would
/// have more bytes than a file may have, 1,073,741,824. Its memory is taken before anything is
/// written.
pub fn save(alloc: Global, document: &[u8; 16], entries: &[Vec<u8>]) -> Result<Vec<u8>, SaveFault>
    requires limit { length entries.now ≤ MAX_ENTRIES }
    ensures value { GivesUnless SaveFault.Memory (λ file. file.items) result
        (saved_file document.now (map (λ entry. entry.items) entries.now)) }
{
    let len = saved_len(entries);
    if len > MAX_FILE {
        return Err(SaveFault::TooLong(len));
    }
    let mut file = Out::with_capacity(alloc, len as usize)?;
    file.put_bytes(&head_of(b"SPH1", document))?;
    file.put_u32(entries.len() as u32)?;
    put_entries(&mut file, entries)?;
    Ok(file.into_bytes())
}

// How many bytes the file of these entries has.
fn saved_len(entries: &[Vec<u8>]) -> u64
    ensures { result
        ≡ counted_to_end (24 + length (flat_map (λ entry. counted entry.items) entries.now)) }
{
    counted_len(entries).saturating_add(HEAD_LEN as u64 + 4)
}
