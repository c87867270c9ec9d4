//! Runs with a gate that holds a line of an editor and an accept until the other was come to, and
//! that keeps what it was told: of lines and their editors, of entries that are loaded or examined
//! and who does so, and of accepts.

use crate::checks::check;
use crate::document::{entries, history_file, of_member, of_server};
use crate::place::Place;
use sporc_memory::PipeNet;
use sporc_outside::Gate;
use sporc_samples::Cast;
use std::alloc::Global;
use std::process::Abort;
use std::sync::Wait;
use std::sync::atomic::{AtomicU64, Ordering};
use std::thread::{Threads, join, yield_now};

// How often one looks for the other.
const TURNS: u32 = 20_000_000;

// Which lines of which editors it was told, or positions of which workers or sessions, and which
// numbers of entries: a hexadecimal digit counts each number.
#[derive(Drop)]
struct Meeting {
    lines: AtomicU64,
    accepts: AtomicU64,
    in_vain: AtomicU64,
}

// Counts a number.
fn tell(told: &AtomicU64, number: u32) {
    let one = 1u64.checked_shl(number.saturating_mul(4)).unwrap_or(0);
    told.fetch_add(one, Ordering::SeqCst);
}

impl Meeting {
    // A meeting that is told of lines and of accepts, and for which so many of both were come to.
    fn behind(told: u64) -> Meeting {
        Meeting {
            lines: AtomicU64::new(told),
            accepts: AtomicU64::new(told),
            in_vain: AtomicU64::new(0),
        }
    }

    // Waits until something was told.
    fn wait_for(&self, told: &AtomicU64) {
        for _ in 0..TURNS {
            if told.load(Ordering::SeqCst) != 0 {
                return;
            }
            yield_now();
        }
        self.in_vain.fetch_add(1, Ordering::SeqCst);
    }

    // Whether exactly these were told, and nobody waited in vain.
    fn was_told(&self, lines: u64, accepts: u64) -> bool {
        self.lines.load(Ordering::SeqCst) == lines
            && self.accepts.load(Ordering::SeqCst) == accepts
            && self.in_vain.load(Ordering::SeqCst) == 0
    }
}

impl Gate for Meeting {
    fn before_line<R: Wait>(&self, _rt: &R, editor: u32, line: u32) {
        tell(&self.lines, line.saturating_mul(4).saturating_add(editor));
        self.wait_for(&self.accepts);
    }

    fn after_accept<R: Wait>(&self, _rt: &R, entries: u32) {
        tell(&self.accepts, entries);
        self.wait_for(&self.lines);
    }
}

// A run of the program over a net between threads, with a gate. Whether it ends well.
fn runs<R: Threads + Wait + Sync + Abort>(
    rt: &R,
    alloc: Global,
    place: &mut Place,
    net: &mut PipeNet<&R>,
    words: &str,
    gate: &Meeting,
) -> bool {
    let (status, _) = place.run_held(rt, alloc, net, words, gate);
    status == 0
}

// A member and a server work together, with gates of their own.
fn work<R: Threads + Wait + Sync + Abort>(
    rt: &R,
    alloc: Global,
    member: &mut Place,
    server: &mut Place,
    near: &Meeting,
    far: &Meeting,
) {
    let mut net = PipeNet::new(rt, alloc).expect(rt, "memory");
    let mut other = net.another().expect(rt, "memory");
    let serve = "serve D a --sessions 1";
    let client = "client D 2 a --rounds 3 --until 2 insert";
    let (served, worked) = join(
        rt,
        || runs(rt, alloc, server, &mut other, serve, far),
        || runs(rt, alloc, member, &mut net, client, near),
    );
    drop(net);
    drop(other);
    check(rt, "the server", served);
    check(rt, "the member", worked);
}

// The member's line waits for the entry that the server has, and the return of its accept for the
// line.
fn meet<R: Threads + Wait + Sync + Abort>(
    rt: &R,
    alloc: Global,
    member: &mut Place,
    server: &mut Place,
) {
    let near = Meeting::behind(0);
    let far = Meeting::behind(1);
    work(rt, alloc, member, server, &near, &far);
    // Line 1 of editor 1; entries 1 and 2.
    check(rt, "the member's gate", near.was_told(0x10_0000, 0x110));
    // Worker 4 at the entry of the log, and session 1 at the one behind it; entry 2 alone.
    let lines = 0x11_0000_0001;
    check(rt, "the server's gate", far.was_told(lines, 0x101));
}

// The member's files without an entry, and the server's with one.
fn places(rt: &impl Abort, alloc: Global, cast: &Cast) -> (Place, Place) {
    let sample = entries(rt, alloc, cast, 4, 1);
    let log = history_file(rt, alloc, sample.entries());
    let history = history_file(rt, alloc, &[]);
    drop(sample);
    let member = of_member(rt, alloc, cast, &[0; 8], history.as_slice());
    let server = of_server(rt, alloc, cast, log.as_slice());
    (Place::new(rt, alloc, member), Place::new(rt, alloc, server))
}

#[test]
fn runs_call_their_gate_and_wait_for_it(rt: HostRuntime) {
    let cast = Cast::new(rt.alloc()).expect(&rt, "a cast");
    let (mut member, mut server) = places(&rt, rt.alloc(), &cast);
    drop(cast);
    meet(&rt, rt.alloc(), &mut member, &mut server);
}
