//! What a change seals.

use sporc_member::Change;

/// What the body of a change is made of, but for its author's pairwise keys. The numbers of the
/// members are those after the change, in their order; the stream is that of the change's entry.
/// The change ends `epoch`, whose key is `old`, and starts the next, whose key is `new`.
#[derive(Drop)]
pub struct Sealing<'a> {
    pub change: &'a Change,
    pub members: &'a [u16],
    pub document: &'a [u8; 16],
    pub stream: u64,
    pub epoch: u32,
    pub old: &'a [u8; 32],
    pub new: &'a [u8; 32],
}
