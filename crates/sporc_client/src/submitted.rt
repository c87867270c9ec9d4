//! What submissions come to.

use sporc_base::Bytes;
use sporc_member::ChangeFault;

/// What a submission comes to.
#[derive(Drop)]
pub enum Submitted {
    /// An entry is on its way.
    Waiting,
    /// Nothing is pending.
    Nothing,
    /// The first pending item is a change that the members refuse. It was taken off.
    Dropped(ChangeFault),
    /// The entry of the first pending item.
    Entry(Bytes),
}
