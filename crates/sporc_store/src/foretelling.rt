//! Which key the author of each entry of a file is foretold to have.

ghost use Rattle.std.specs.Prelude.{◌≡◌};

use crate::saved_entry::SavedEntry;
use sporc_base::Memory;
use sporc_entry::{EntryFault, EntryView};
use sporc_member::{Change, Roster};
use std::alloc::{AllocError, Global};

// Foretells the key of each entry's author: that which it has once the changes before are made at
// this roster, of which nothing is checked but that the members may be changed so.
pub(crate) fn foretell(
    alloc: Global,
    roster: Roster,
    entries: &mut [SavedEntry<'_>],
) -> Result<(), Memory>
    ensures { entries.new ≡ entries.old }
{
    let mut roster = roster;
    for i in 0..entries.len() {
        let key = key_at(alloc, &mut roster, entries[i].bytes())?;
        entries[i].foretell(key);
    }
    Ok(())
}

// The key of the device of an entry's author, if it is a live one; the roster is then as the entry
// changes it.
fn key_at(alloc: Global, roster: &mut Roster, bytes: &[u8]) -> Result<Option<[u8; 56]>, Memory> {
    let view = match EntryView::read(alloc, bytes) {
        Ok(view) => view,
        Err(EntryFault::Memory) => return Err(AllocError),
        Err(EntryFault::Malformed(_)) => return Ok(None),
    };
    let header = view.header();
    let key = roster.key(header.author, header.device).copied();
    if let Some(body) = view.change() {
        follow(roster, &body.change)?;
    }
    Ok(key)
}

// Makes a change, if the members may be changed so.
fn follow(roster: &mut Roster, change: &Change) -> Result<(), Memory> {
    match roster.test(change) {
        Ok(()) => roster.make(change),
        Err(_) => Ok(()),
    }
}
