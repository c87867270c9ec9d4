//! What servers send.

use sporc_wire::{Frames, ToClient};
use std::alloc::Global;
use std::process::Abort;

/// An Ordered at position 1.
pub const ORDERED_FIRST: [u8; 9] = [0, 0, 0, 5, 1, 0, 0, 0, 1];

/// An Empty.
pub const EMPTY: [u8; 5] = [0, 0, 0, 1, 4];

/// How many answers of each kind stand in what a server sent.
#[derive(Clone, Copy)]
pub struct Counts {
    pub ordered: u32,
    pub rejected: u32,
    pub entries: u32,
    pub empty: u32,
}

/// Counts the answers in what a server sent, and at each position in `ordered` those that are
/// Ordered there.
pub fn count(rt: &impl Abort, alloc: Global, sent: &[u8], ordered: &mut [u32]) -> Counts {
    let mut counts = Counts {
        ordered: 0,
        rejected: 0,
        entries: 0,
        empty: 0,
    };
    let mut frames = Frames::new(alloc);
    frames.feed(sent).expect(rt, "frames");
    for _ in 0..sent.len() {
        if !count_next(rt, &mut frames, &mut counts, ordered) {
            return counts;
        }
    }
    counts
}

// Counts the next answer, if one is left.
fn count_next(
    rt: &impl Abort,
    frames: &mut Frames,
    counts: &mut Counts,
    ordered: &mut [u32],
) -> bool {
    match frames.next_to_client().expect(rt, "a message") {
        Some(reply) => {
            add(counts, &reply, ordered);
            true
        }
        None => false,
    }
}

fn add(counts: &mut Counts, reply: &ToClient, ordered: &mut [u32]) {
    match reply {
        ToClient::Ordered { pos } => {
            counts.ordered = counts.ordered.saturating_add(1);
            if let Some(times) = ordered.get_mut(*pos as usize) {
                *times = times.saturating_add(1);
            }
        }
        ToClient::Rejected { refusal: _ } => counts.rejected = counts.rejected.saturating_add(1),
        ToClient::Entries { .. } => counts.entries = counts.entries.saturating_add(1),
        ToClient::Empty => counts.empty = counts.empty.saturating_add(1),
    }
}

/// Whether an entry was ordered once in what a server sent, and entries were pulled once.
pub fn are_of_submit_and_pull(rt: &impl Abort, alloc: Global, sent: &[u8]) -> bool {
    let counts = count(rt, alloc, sent, &mut []);
    counts.ordered == 1 && counts.entries == 1
}
