//! What serves the sessions of many documents.

use sporc_order::Tail;
use sporc_serve::Desk;
use sporc_turn::Turn;
use std::alloc::Global;

// What serves each session of a server of many documents: the runtime, memory, the documents with
// the lock round the order of each, and the gate.
#[derive(Drop)]
pub(crate) struct DocsService<'a, R, G, T: Tail> {
    pub(crate) rt: &'a R,
    pub(crate) alloc: Global,
    pub(crate) turns: &'a [Turn<Desk<T>>],
    pub(crate) documents: &'a [[u8; 16]],
    pub(crate) gate: &'a G,
}
