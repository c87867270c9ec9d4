use crate::checks::check;
use crate::serve::notes::Notes;
use crate::serve::replies::are_of_submit_and_pull;
use crate::serve::server::{Outcome, Peers, served_kept};
use crate::serve::streams::{first_entry, hello_submit_and_pull};
use sporc_outside::Gate;
use sporc_samples::Cast;
use std::alloc::Global;
use std::process::Abort;
use std::sync::Wait;
use std::sync::atomic::{AtomicU64, Ordering};
use std::thread::yield_now;

// How often a session that is held looks whether the other one has come as far.
const TURNS: u32 = 100_000_000;

// Of the first entry and of the second it was told once: a byte counts each number.
const BOTH: u64 = 0x01_01_00;

// Holds a session whose entry was examined until two were, and one whose entry was accepted until
// both were. Before an entry is answered it looks whether the tail keeps it.
#[derive(Drop)]
struct Pairing<'a> {
    // How many entries the tail keeps.
    kept: &'a AtomicU64,
    // How many entries were accepted that it did not keep.
    early: AtomicU64,
    examined: AtomicU64,
    // The sum of the positions at which the entries were to stand as they were examined.
    positions: AtomicU64,
    told: AtomicU64,
    given_up: AtomicU64,
}

impl<'a> Pairing<'a> {
    fn new(kept: &'a AtomicU64) -> Pairing<'a> {
        Pairing {
            kept,
            early: AtomicU64::new(0),
            examined: AtomicU64::new(0),
            positions: AtomicU64::new(0),
            told: AtomicU64::new(0),
            given_up: AtomicU64::new(0),
        }
    }

    // Counts a number of entries.
    fn tell(&self, entries: u32) {
        let one = 1u64.checked_shl(entries.saturating_mul(8)).unwrap_or(0);
        self.told.fetch_add(one, Ordering::SeqCst);
    }

    // Holds a session until a count has come so far.
    fn hold(&self, count: &AtomicU64, least: u64) {
        for _ in 0..TURNS {
            if count.load(Ordering::SeqCst) >= least {
                return;
            }
            yield_now();
        }
        self.given_up.fetch_add(1, Ordering::SeqCst);
    }

    // Whether both sessions examined their entries before either of these was ordered, each was
    // kept before it was answered, it was told of each once, and nobody waited in vain.
    fn went_well(&self) -> bool {
        self.positions.load(Ordering::SeqCst) == 2
            && self.early.load(Ordering::SeqCst) == 0
            && self.told.load(Ordering::SeqCst) == BOTH
            && self.given_up.load(Ordering::SeqCst) == 0
    }
}

impl<'a> Gate for Pairing<'a> {
    fn before_line<R: Wait>(&self, _rt: &R, _session: u32, position: u32) {
        self.positions
            .fetch_add(u64::from(position), Ordering::SeqCst);
        self.examined.fetch_add(1, Ordering::SeqCst);
        self.hold(&self.examined, 2);
    }

    fn after_accept<R: Wait>(&self, _rt: &R, entries: u32) {
        if self.kept.load(Ordering::SeqCst) < u64::from(entries) {
            self.early.fetch_add(1, Ordering::SeqCst);
        }
        self.tell(entries);
        self.hold(&self.told, BOTH);
    }
}

// A client that submits an author's first entry and then pulls.
fn add_peer(rt: &impl Abort, alloc: Global, cast: &Cast, peers: &mut Peers, author: u16) {
    let entry = first_entry(rt, alloc, cast, author);
    let stream = hello_submit_and_pull(rt, alloc, entry.as_slice());
    peers.add(rt, alloc, stream.as_slice(), 100, &[]);
}

// Two such clients.
fn peers(rt: &impl Abort, alloc: Global, cast: &Cast) -> Peers {
    let mut peers = Peers::new(alloc);
    add_peer(rt, alloc, cast, &mut peers, 2);
    add_peer(rt, alloc, cast, &mut peers, 4);
    peers
}

fn are_answered(rt: &impl Abort, alloc: Global, outcome: &Outcome) {
    check(rt, "the server", outcome.went_well(2));
    for link in outcome.net.returned() {
        let is_answered = are_of_submit_and_pull(rt, alloc, link.written());
        check(rt, "a client", is_answered);
    }
}

#[test]
fn a_session_goes_on_while_another_is_held(rt: HostRuntime) {
    let cast = Cast::new(rt.alloc()).expect(&rt, "the cast");
    let kept = AtomicU64::new(0);
    let gate = Pairing::new(&kept);
    let notes = Notes::new(rt.alloc(), &kept, 0);
    let peers = peers(&rt, rt.alloc(), &cast);
    let (outcome, notes) = served_kept(&rt, rt.alloc(), &cast, peers, notes, 2, &gate);
    check(&rt, "the gate", gate.went_well());
    check(&rt, "the tail", outcome.has_entries(notes.entries()));
    are_answered(&rt, rt.alloc(), &outcome);
}
