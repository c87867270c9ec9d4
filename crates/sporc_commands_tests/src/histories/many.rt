//! Files of signed entries, loaded by several workers.

ghost use Rattle.std.specs.Prelude.{◌≡◌, []};

use super::folder::{history_file, place_behind};
use crate::bytes::turn_bit;
use crate::checks::{check, check_at, check_stop};
use sporc_epoch::{Pairs, Ring};
use sporc_head::Refusal;
use sporc_line::Line;
use sporc_member::{Change, FIRST_DEVICE, Role};
use sporc_outside::{Gate, OpenGate};
use sporc_samples::{Cast, History, epoch_key, pair_key, short_history};
use sporc_store::{Stop, load_many};
use std::alloc::Global;
use std::process::Abort;
use std::sync::Wait;
use std::sync::atomic::{AtomicU64, Ordering};
use std::thread::{Threads, yield_now};

// How many workers load each file.
const COUNTS: [u32; 3] = [1, 2, 7];

// How often a worker that is held looks for the other.
const TURNS: u32 = 100_000_000;

// Holds the first worker's entries until the second has begun one.
#[derive(Drop)]
struct Holding {
    begun: AtomicU64,
    given_up: AtomicU64,
}

impl Gate for Holding {
    fn before_line<R: Wait>(&self, _rt: &R, worker: u32, _position: u32) {
        if worker != 1 {
            self.begun.store(1, Ordering::SeqCst);
            return;
        }
        for _ in 0..TURNS {
            if self.begun.load(Ordering::SeqCst) == 1 {
                return;
            }
            yield_now();
        }
        self.given_up.fetch_add(1, Ordering::SeqCst);
    }

    fn after_accept<R: Wait>(&self, _rt: &R, _entries: u32) {}
}

// A ring with the key of epoch 0.
fn founder_ring(rt: &impl Abort, alloc: Global) -> Ring {
    let mut ring = Ring::new(alloc);
    ring.put(0, epoch_key(0)).expect(rt, "memory");
    ring
}

// The empty line of a founder who shares a key with the admin, in a box: a function that owns a
// line itself is slow to prove.
fn founded(rt: &impl Abort, alloc: Global, cast: &Cast, me: u16) -> Box<Line>
    ensures { result.value.entries ≡ [] }
{
    let ring = founder_ring(rt, alloc);
    let mut pairs = Pairs::new(alloc);
    let inserted: Result<_, _> = pairs.insert(1, pair_key(me, 1));
    inserted.expect(rt, "memory");
    let genesis = cast.genesis(alloc).expect(rt, "a genesis");
    let line = Line::open(alloc, genesis, me, FIRST_DEVICE, ring, pairs).expect(rt, "a line");
    Box::new(alloc, line).expect(rt, "memory")
}

// Member 2's line takes so many entries of a file that so many workers load.
fn takes<R: Threads + Wait + Sync + Abort, G: Gate + Sync>(
    rt: &R,
    alloc: Global,
    cast: &Cast,
    file: &[u8],
    workers: u32,
    gate: &G,
    taken: (u32, Stop),
) {
    let line = Box::into_inner(founded(rt, alloc, cast, 2));
    let count = workers.clamp(1, 64);
    let (line, stop) = load_many(rt, alloc, file, line, count, gate)
        .ok()
        .expect(rt, "memory");
    let len = line.len();
    drop(line);
    check_stop(rt, "stop of workers", u64::from(workers), stop, taken.1);
    check_at(rt, "entries of workers", u64::from(workers), len == taken.0);
}

// However many workers load the file.
fn all_take<R: Threads + Wait + Sync + Abort>(
    rt: &R,
    alloc: Global,
    cast: &Cast,
    file: &[u8],
    taken: (u32, Stop),
) {
    for workers in &COUNTS {
        takes(rt, alloc, cast, file, *workers, &OpenGate, taken);
    }
}

// Three entries: without the last byte, and with a bit of the second signature turned.
fn spoilt<R: Threads + Wait + Sync + Abort>(rt: &R, alloc: Global, cast: &Cast, three: &[Vec<u8>]) {
    let two = three.get(..2).expect(rt, "two entries");
    let last = place_behind(two);
    let mut file = history_file(rt, alloc, three);
    turn_bit(file.as_mut_slice(), last.saturating_sub(1));
    let refused = Stop::Refused(2, Refusal::BadSignature);
    all_take(rt, alloc, cast, file.as_slice(), (1, refused));
    let mut file = history_file(rt, alloc, three);
    file.pop();
    let cut = Stop::Cut(last.saturating_add(4));
    all_take(rt, alloc, cast, file.as_slice(), (2, cut));
}

// Two workers examine at a time: the first waits for the second.
fn held<R: Threads + Wait + Sync + Abort>(rt: &R, alloc: Global, cast: &Cast, three: &[Vec<u8>]) {
    let file = history_file(rt, alloc, three);
    let gate = Holding {
        begun: AtomicU64::new(0),
        given_up: AtomicU64::new(0),
    };
    takes(rt, alloc, cast, file.as_slice(), 2, &gate, (3, Stop::End));
    let given_up = gate.given_up.load(Ordering::SeqCst);
    check(rt, "nobody gave up", given_up == 0);
}

// A member is removed and another added between the entries.
fn changed<R: Threads + Wait + Sync + Abort>(rt: &R, alloc: Global, cast: &Cast) {
    let mut sample = short_history(alloc, cast).expect(rt, "a history");
    let key = cast.member(5).expect(rt, "a member").founder().key;
    let add = Change::Add {
        member: 6,
        role: Role::Editor,
        key,
    };
    sample
        .change(alloc, cast, 1, add, &[1, 2, 3, 5, 6])
        .expect(rt, "a change");
    sample
        .insert(alloc, cast, 5, 4, b"e")
        .expect(rt, "an entry");
    let file = history_file(rt, alloc, sample.entries());
    drop(sample);
    all_take(rt, alloc, cast, file.as_slice(), (6, Stop::End));
}

/// A saved history is loaded as far as it goes, however many workers examine it.
pub fn histories_are_loaded_by_many<R: Threads + Wait + Sync + Abort>(
    rt: &R,
    alloc: Global,
    cast: &Cast,
    sample: &History,
) {
    let three = sample.entries().get(..3).expect(rt, "three entries");
    spoilt(rt, alloc, cast, three);
    held(rt, alloc, cast, three);
    changed(rt, alloc, cast);
}
