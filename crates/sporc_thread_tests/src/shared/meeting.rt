//! A session whose receiver and editor wait for one another.

use crate::checks::{check, check_text};
use crate::shared::scene::one_entry;
use crate::shared::staging::{FRESH, Outcome, Wanted, Work, held, scripts};
use sporc_outside::Gate;
use sporc_samples::{Cast, History};
use std::alloc::Global;
use std::process::Abort;
use std::sync::Wait;
use std::sync::atomic::{AtomicU64, Ordering};
use std::thread::{Threads, yield_now};

// How often one looks for the other.
const TURNS: u32 = 20_000_000;

// How many lines wait for an entry, and entries for a line.
const MEETINGS: u64 = 2;

// Holds the editor's first line until the first entry was accepted, and the return of that accept
// until the line has begun; and so the second line and the second accept. A session that runs the
// editor and the receiver one after the other, or in which one has the lock for all of its turns,
// waits in vain.
#[derive(Drop)]
struct Meeting {
    begun: AtomicU64,
    accepted: AtomicU64,
    given_up: AtomicU64,
}

impl Meeting {
    fn new() -> Meeting {
        Meeting {
            begun: AtomicU64::new(0),
            accepted: AtomicU64::new(0),
            given_up: AtomicU64::new(0),
        }
    }

    // Waits until a count has come to the number of a meeting.
    fn wait_for(&self, count: &AtomicU64, number: u64) {
        for _ in 0..TURNS {
            if count.load(Ordering::SeqCst) >= number.min(MEETINGS) {
                return;
            }
            yield_now();
        }
        self.given_up.fetch_add(1, Ordering::SeqCst);
    }

    // Whether it was told of both lines and of all four entries, and nobody waited in vain.
    fn went_well(&self) -> bool {
        self.begun.load(Ordering::SeqCst) == 2
            && self.accepted.load(Ordering::SeqCst) == 4
            && self.given_up.load(Ordering::SeqCst) == 0
    }
}

impl Gate for Meeting {
    fn before_line<R: Wait>(&self, _rt: &R, _editor: u32, line: u32) {
        self.begun.store(u64::from(line), Ordering::SeqCst);
        self.wait_for(&self.accepted, u64::from(line));
    }

    fn after_accept<R: Wait>(&self, _rt: &R, entries: u32) {
        self.accepted.store(u64::from(entries), Ordering::SeqCst);
        self.wait_for(&self.begun, u64::from(entries));
    }
}

// Two entries of another member.
fn two_entries(rt: &impl Abort, alloc: Global, cast: &Cast) -> Box<History> {
    let mut sample = one_entry(rt, alloc, cast, b"ab");
    sample
        .insert(alloc, cast, 2, 2, b"c")
        .expect(rt, "an entry");
    sample
}

// What a session leaves whose editor has two lines.
fn met<R: Abort + Threads + Wait + Sync>(
    rt: &R,
    alloc: Global,
    cast: &Cast,
    gate: &Meeting,
) -> Outcome {
    let sample = two_entries(rt, alloc, cast);
    let editors = scripts(rt, alloc, 1, "insert 0 \"x\"\ninsert 0 \"y\"\n");
    let work = Work {
        editors: editors.as_slice(),
        wanted: Wanted {
            rounds: 4,
            until: 4,
        },
        gate,
    };
    held(rt, alloc, cast, FRESH, &sample, &work)
}

fn goes_well<R: Abort + Threads + Wait + Sync>(rt: &R, alloc: Global, cast: &Cast) {
    let gate = Meeting::new();
    let outcome = met(rt, alloc, cast, &gate);
    check(rt, "the answer", outcome.answer.is_ok());
    check(rt, "the gate", gate.went_well());
    check_text(rt, outcome.text.as_str(), "yxabc");
}

#[test]
fn an_editor_and_the_receiver_wait_for_one_another(rt: HostRuntime) {
    let cast = Cast::new(rt.alloc()).expect(&rt, "the cast");
    goes_well(&rt, rt.alloc(), &cast);
}
