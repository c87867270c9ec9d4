ghost use Rattle.std.specs.Prelude.{◌≤◌};
ghost use Rattle.sporc_wire.specs.declared.limits.TheConstants.{MAX_SESSIONS};

use crate::checks::{check, check_at};
use crate::serve::replies::ORDERED_FIRST;
use crate::serve::server::{Outcome, Peers, served};
use crate::serve::streams::{PULL, first_entry, hello_and_submit};
use sporc_outside::OpenGate;
use sporc_samples::Cast;
use sporc_serve::ServeFault;
use std::alloc::Global;
use std::process::Abort;
use std::sync::Wait;
use std::thread::Threads;

// What peers send that are no clients: nothing; a frame that is no message, a frame that never
// ends, a frame above the limit; another document's Hello; a Pull before a Hello, and a second
// Hello.
const STREAMS: [&[u8]; 7] = [
    &[],
    &[0, 0, 0, 1, 9, 0, 0, 0, 5, 3, 0, 0, 0, 0],
    &[0, 0x40, 0, 0, 2, 1, 1, 1],
    &[0xff, 0xff, 0xff, 0xff, 3, 0, 0, 0, 0],
    &[
        0, 0, 0, 19, 1, 8, 8, 8, 8, 8, 8, 8, 8, 8, 8, 8, 8, 8, 8, 8, 8, 0, 1, 0, 0, 0, 5, 3, 0, 0,
        0, 0,
    ],
    &PULL,
    &[
        0, 0, 0, 19, 1, 7, 7, 7, 7, 7, 7, 7, 7, 7, 7, 7, 7, 7, 7, 7, 7, 0, 1, 0, 0, 0, 19, 1, 7, 7,
        7, 7, 7, 7, 7, 7, 7, 7, 7, 7, 7, 7, 7, 7, 0, 1, 0, 0, 0, 5, 3, 0, 0, 0, 0,
    ],
];

// A client that submits an entry, among those peers.
fn peers(rt: &impl Abort, alloc: Global, cast: &Cast) -> Peers {
    let mut peers = Peers::new(alloc);
    let entry = first_entry(rt, alloc, cast, 2);
    let stream = hello_and_submit(rt, alloc, entry.as_slice());
    peers.add(rt, alloc, stream.as_slice(), 5, &[]);
    add_bad_peers(rt, alloc, &mut peers);
    peers
}

fn add_bad_peers(rt: &impl Abort, alloc: Global, peers: &mut Peers) {
    for stream in &STREAMS {
        peers.add(rt, alloc, *stream, 2, &[]);
    }
}

// The client's link was taken last, so it came back first.
fn only_the_client_is_answered(rt: &impl Abort, outcome: &Outcome) {
    check(rt, "the order", outcome.order.len() == 1);
    check(rt, "the client", outcome.is_written(0, &ORDERED_FIRST));
    for place in 1..8usize {
        check_at(rt, "peer", place as u64, outcome.is_written(place, &[]));
    }
}

// A server that is to take so many links answers so, and serves the client among the peers.
fn is_served<R: Threads + Wait + Sync + Abort>(
    rt: &R,
    alloc: Global,
    cast: &Cast,
    sessions: u32,
    answer: Result<(), ServeFault>,
)
    requires positive { 1 ≤ sessions }
    requires limit { sessions ≤ MAX_SESSIONS }
{
    let peers = peers(rt, alloc, cast);
    let outcome = served(rt, alloc, cast, peers, sessions, &OpenGate);
    check(rt, "the answer", outcome.answer == answer);
    only_the_client_is_answered(rt, &outcome);
}

// A server that is to take one link more than come tells that, and serves the client among the
// peers.
#[test]
fn bad_peers_end_their_own_sessions_alone(rt: HostRuntime) {
    let cast = Cast::new(rt.alloc()).expect(&rt, "the cast");
    is_served(&rt, rt.alloc(), &cast, 8, Ok(()));
    let missing = Err(ServeFault::ListenFault);
    is_served(&rt, rt.alloc(), &cast, 9, missing);
}
