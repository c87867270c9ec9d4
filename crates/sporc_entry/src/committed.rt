//! Changes with the headers that they stand under.

ghost use Rattle.std.specs.Prelude.{◌≡◌, IfOk};
ghost use Rattle.sporc_entry.specs.Entry.{change_of};
ghost use Rattle.sporc_entry.specs.CommittedChanges.{change_in, committed_by};

use crate::change::ChangeBody;
use crate::fault::EntryFault;
use crate::header::Header;
use crate::view::EntryView;
use sporc_base::Memory;
use std::alloc::{AllocError, Global};

/// A change of a history, with the header that it stands under.
#[derive(Drop)]
pub struct CommittedChange {
    pub header: Header,
    pub body: ChangeBody,
}

/// The change that these bytes spell. None if they spell an edit, or no entry.
#[tactic(auto, unfolding(crate::specs::CommittedChanges::change_in))]
pub fn read_committed(alloc: Global, bytes: &[u8]) -> Result<Option<CommittedChange>, Memory>
    ensures ok { IfOk result (λ change. change ≡ change_in bytes.now) }
{
    match EntryView::read(alloc, bytes) {
        Ok(entry) => Ok(change_of(entry)),
        Err(EntryFault::Malformed(_)) => Ok(None),
        Err(EntryFault::Memory) => Err(AllocError),
    }
}

// The change that an entry is, if it is one.
fn change_of(entry: EntryView<'_>) -> Option<CommittedChange>
    ensures value { result ≡ committed_by entry.entry.entry (change_of entry.entry.entry) }
{
    let header = *entry.header();
    let body = entry.into_change()?;
    Some(CommittedChange { header, body })
}
