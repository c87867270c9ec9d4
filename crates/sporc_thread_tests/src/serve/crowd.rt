use crate::checks::check;
use crate::objects::{append, empty_history, joined};
use crate::serve::replies::count;
use crate::serve::server::{Outcome, Peers, served};
use crate::serve::streams::{HELLO, submit};
use sporc_memory::MemoryLink;
use sporc_outside::OpenGate;
use sporc_samples::{Cast, History};
use std::alloc::Global;
use std::process::Abort;

const ENTRIES: u32 = 100;

const SESSIONS: u32 = 8;

// The members that take turns.
fn author(turn: u32) -> u16 {
    match turn % 4 {
        0 => 1,
        1 => 2,
        2 => 4,
        _ => 5,
    }
}

fn grow(rt: &impl Abort, alloc: Global, cast: &Cast, sample: &mut History) {
    for turn in 0..ENTRIES {
        sample
            .edit(alloc, cast, author(turn), b"")
            .expect(rt, "an entry");
    }
}

// A history of so many entries, by members 1, 2, 4 and 5 in turn.
fn history(rt: &impl Abort, alloc: Global, cast: &Cast) -> Box<History> {
    let mut sample = empty_history(rt, alloc, cast);
    grow(rt, alloc, cast, &mut sample);
    sample
}

// A client that submits all entries of a history, in order.
fn stream(rt: &impl Abort, alloc: Global, entries: &[Vec<u8>]) -> Vec<u8> {
    let mut stream = joined(rt, alloc, &[&HELLO]);
    for entry in entries {
        append_submit(rt, alloc, &mut stream, entry.as_slice());
    }
    stream
}

fn append_submit(rt: &impl Abort, alloc: Global, stream: &mut Vec<u8>, entry: &[u8]) {
    let submission = submit(rt, alloc, entry);
    append(rt, stream, submission.as_slice());
}

fn peers(rt: &impl Abort, alloc: Global, entries: &[Vec<u8>]) -> Peers {
    let stream = stream(rt, alloc, entries);
    let mut peers = Peers::new(alloc);
    for _ in 0..SESSIONS {
        peers.add(rt, alloc, stream.as_slice(), 1000, &[]);
    }
    peers
}

// Whether a session was answered as often as it submitted, by Ordered or Rejected. Those that are
// Ordered are counted by their positions.
fn is_answered(rt: &impl Abort, alloc: Global, link: &MemoryLink, times: &mut [u32]) -> bool {
    let counts = count(rt, alloc, link.written(), times);
    counts.ordered.saturating_add(counts.rejected) == ENTRIES
        && counts.entries.saturating_add(counts.empty) == 0
}

fn are_answered(rt: &impl Abort, alloc: Global, links: &[MemoryLink], times: &mut [u32]) {
    for link in links {
        check(rt, "as many answers", is_answered(rt, alloc, link, times));
    }
    check(rt, "how many links", links.len() == SESSIONS as usize);
}

// Each session had its answers, and each position was given once in all.
fn each_is_ordered_once(rt: &impl Abort, alloc: Global, links: &[MemoryLink]) {
    let mut times = vec![in alloc; 0u32; 101].expect(rt, "memory");
    are_answered(rt, alloc, links, times.as_mut_slice());
    check(rt, "each position once", are_once(times.as_slice()));
}

// Whether each position but 0, which is none, was given once.
fn are_once(times: &[u32]) -> bool {
    times.iter().skip(1).all(|n| *n == 1)
}

fn is_ordered(rt: &impl Abort, outcome: &Outcome, entries: &[Vec<u8>]) {
    check(rt, "the answer", outcome.answer.is_ok());
    check(rt, "the entries", outcome.has_entries(entries));
}

#[test]
fn eight_sessions_submit_a_hundred_entries(rt: HostRuntime) {
    let cast = Cast::new(rt.alloc()).expect(&rt, "the cast");
    let sample = history(&rt, rt.alloc(), &cast);
    let peers = peers(&rt, rt.alloc(), sample.entries());
    let outcome = served(&rt, rt.alloc(), &cast, peers, SESSIONS, &OpenGate);
    is_ordered(&rt, &outcome, sample.entries());
    each_is_ordered_once(&rt, rt.alloc(), outcome.net.returned());
}
