use crate::checks::{check, check_at};
use crate::serve::notes::Notes;
use crate::serve::replies::are_of_submit_and_pull;
use crate::serve::server::{Outcome, Peers, served_kept};
use crate::serve::streams::{first_entry, hello_submit_and_pull};
use sporc_memory::MemoryLink;
use sporc_outside::OpenGate;
use sporc_samples::Cast;
use sporc_serve::ServeFault;
use std::alloc::Global;
use std::process::Abort;
use std::sync::Wait;
use std::sync::atomic::AtomicU64;
use std::thread::Threads;

// The members whose first entries are submitted, in a session each.
const AUTHORS: [u16; 3] = [1, 2, 4];

// What the clients send, one for each author: an entry, and a Pull behind it.
fn streams(rt: &impl Abort, alloc: Global, cast: &Cast) -> Vec<Vec<u8>> {
    let mut streams = Vec::new(alloc);
    for author in &AUTHORS {
        let entry = first_entry(rt, alloc, cast, *author);
        let stream = hello_submit_and_pull(rt, alloc, entry.as_slice());
        streams.push(stream).expect(rt, "memory");
    }
    streams
}

fn peers(rt: &impl Abort, alloc: Global, streams: &[Vec<u8>]) -> Peers {
    let mut peers = Peers::new(alloc);
    for stream in streams {
        peers.add(rt, alloc, stream.as_slice(), 100, &[]);
    }
    peers
}

// How many links were given nothing. The others have their two answers.
fn unanswered(rt: &impl Abort, alloc: Global, links: &[MemoryLink]) -> u32 {
    let mut none = 0u32;
    for link in links {
        if link.written().is_empty() {
            none = none.saturating_add(1);
        } else {
            let is_answered = are_of_submit_and_pull(rt, alloc, link.written());
            check(rt, "the other clients", is_answered);
        }
    }
    none
}

// Whether an entry was not kept, that is told, and no other is missing.
fn lacks_one(outcome: &Outcome) -> bool {
    outcome.answer == Err(ServeFault::Unkept) && outcome.order.len() == 2
}

// Serves the clients with a tail whose put with this number fails. There are three puts.
fn serve_failing<R: Threads + Wait + Sync + Abort>(
    rt: &R,
    alloc: Global,
    cast: &Cast,
    streams: &[Vec<u8>],
    failing: u32,
) {
    let kept = AtomicU64::new(0);
    let notes = Notes::new(alloc, &kept, failing);
    let peers = peers(rt, alloc, streams);
    let (outcome, notes) = served_kept(rt, alloc, cast, peers, notes, 3, &OpenGate);
    let none = unanswered(rt, alloc, outcome.net.returned());
    let is_told = match failing {
        1..=3 => lacks_one(&outcome) && none == 1,
        _ => outcome.went_well(3) && none == 0,
    };
    check_at(rt, "the server", u64::from(failing), is_told);
    let is_kept = outcome.has_entries(notes.entries());
    check_at(rt, "the tail", u64::from(failing), is_kept);
}

#[test]
fn an_entry_that_is_not_kept_is_not_ordered(rt: HostRuntime) {
    let cast = Cast::new(rt.alloc()).expect(&rt, "the cast");
    let streams = streams(&rt, rt.alloc(), &cast);
    for failing in 1..=4u32 {
        serve_failing(&rt, rt.alloc(), &cast, streams.as_slice(), failing);
    }
}
