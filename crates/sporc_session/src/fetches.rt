//! All entries that a server has.

ghost use Rattle.std.specs.Prelude.{◌≡◌};
ghost use Rattle.sporc_session.specs.Fetches.{IsFetch};
ghost use Rattle.sporc_exchange.specs.Wires.{InboxModel, empty_inbox, link_at};

use crate::asking::{pull, send};
use crate::fault::SessionFault;
use sporc_exchange::{Inbox, hello_of};
use sporc_head::MAX_ENTRIES;
use sporc_outside::Link;
use sporc_wire::Entries;
use std::alloc::Global;

/// Fetches all entries of a document that a server has, for a member who has no client yet: says
/// Hello, and pulls from the first entry on, until the server has no more, or [`MAX_ENTRIES`] or
/// more came. The entries are unchecked.
///
/// The faults are those of a session's link: LinkFault only if a call of the link failed;
/// LinkEnded, with the number of bytes taken, if it ended before an answer was whole; BadMessage,
/// with the place of what is no message, or of a frame whose message is no answer to the pull; and
/// Memory.
pub fn fetch<L: Link>(
    alloc: Global,
    link: &mut L,
    document: &[u8; 16],
    member: u16,
) -> Result<Entries, SessionFault>
    ensures fetch { (inbox : InboxModel) × IsFetch (link_at (L.told link.old) empty_inbox)
        (link_at (L.told link.new) inbox) document.now member result }
    ensures shut { (L.told link.new).is_shut ≡ (L.told link.old).is_shut }
{
    let mut inbox = Inbox::new(alloc);
    send(alloc, link, &inbox, &hello_of(document, member))?;
    let mut entries = Entries::new(alloc);
    loop {
        let came = pull(alloc, link, &mut inbox, entries.len() as u32)?;
        let is_last = came.is_empty();
        entries.append(came)?;
        if is_last || entries.len() >= MAX_ENTRIES as usize {
            return Ok(entries);
        }
    }
}
