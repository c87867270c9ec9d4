//! Events of a journal.

use sporc_base::Bytes;
use sporc_delta::Delta;
use sporc_member::{Change, ChangeFault};

/// An event of a client's journal; `by` is the number of who made it.
#[derive(Drop)]
pub enum Event {
    /// An edit of the text that was shown after `seen` events.
    Edit { by: u32, seen: u64, delta: Delta },
    /// A change of the members.
    Change { by: u32, change: Change },
    /// An entry was made of the first pending item.
    Submit { by: u32, entry: Bytes },
    /// A change at the head of the pending items, which the members refuse, was taken off.
    Dropped { by: u32, fault: ChangeFault },
    /// The entry at this place of the history was accepted.
    Accept { by: u32, place: u32 },
    /// All pending items were given up.
    Discard { by: u32 },
}
