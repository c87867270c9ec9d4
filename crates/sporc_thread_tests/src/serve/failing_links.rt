use crate::checks::check;
use crate::serve::replies::{are_of_submit_and_pull, count};
use crate::serve::server::{Outcome, Peers, served};
use crate::serve::streams::{first_entry, hello_submit_and_pull};
use sporc_memory::MemoryLink;
use sporc_order::Order;
use sporc_outside::{Counted, OpenGate};
use sporc_samples::Cast;
use std::alloc::Global;
use std::process::Abort;
use std::sync::Wait;
use std::thread::Threads;

// How many calls are made on a link that submits an entry and pulls, at the most.
const CALLS: u64 = 16;

// Two clients that each submit an entry and then pull. The second one's link fails at this call.
fn peers(rt: &impl Abort, alloc: Global, entries: &[Vec<u8>; 2], failing: u64) -> Peers {
    let [good, cut] = entries;
    let mut peers = Peers::new(alloc);
    add_peer(rt, alloc, &mut peers, good.as_slice(), &[]);
    add_peer(rt, alloc, &mut peers, cut.as_slice(), &[failing]);
    peers
}

fn add_peer(rt: &impl Abort, alloc: Global, peers: &mut Peers, entry: &[u8], failing: &[u64]) {
    let stream = hello_submit_and_pull(rt, alloc, entry);
    peers.add(rt, alloc, stream.as_slice(), 1000, failing);
}

// No entry is lost that was answered Ordered.
fn is_kept(rt: &impl Abort, alloc: Global, order: &Order, cut: &MemoryLink) -> bool {
    let counts = count(rt, alloc, cut.written(), &mut []);
    order.len() == 2 || counts.ordered == 0
}

// That holds, and the first client has its two answers. Whether the other one's link failed.
fn is_cut(rt: &impl Abort, alloc: Global, outcome: &Outcome) -> bool {
    let [good, cut] = outcome.net.returned() else {
        panic!(rt; "two links");
    };
    check(rt, "the answer", outcome.answer.is_ok());
    let is_answered = are_of_submit_and_pull(rt, alloc, good.written());
    check(rt, "the first client", is_answered);
    check(
        rt,
        "each entry is kept",
        is_kept(rt, alloc, &outcome.order, cut),
    );
    cut.faults() == 1
}

// Serves two clients, of which one has a link that fails at this call.
fn serve_both<R: Threads + Wait + Sync + Abort>(
    rt: &R,
    alloc: Global,
    cast: &Cast,
    entries: &[Vec<u8>; 2],
    failing: u64,
) -> bool {
    let peers = peers(rt, alloc, entries, failing);
    let outcome = served(rt, alloc, cast, peers, 2, &OpenGate);
    is_cut(rt, alloc, &outcome)
}

// On how many calls the link failed.
fn cuts<R: Threads + Wait + Sync + Abort>(
    rt: &R,
    alloc: Global,
    cast: &Cast,
    entries: &[Vec<u8>; 2],
) -> u32 {
    let mut cut = 0u32;
    for failing in 1..=CALLS {
        if serve_both(rt, alloc, cast, entries, failing) {
            cut = cut.saturating_add(1);
        }
    }
    cut
}

#[test]
fn a_link_may_fail_at_any_call(rt: HostRuntime) {
    let cast = Cast::new(rt.alloc()).expect(&rt, "the cast");
    let entries = [
        first_entry(&rt, rt.alloc(), &cast, 2),
        first_entry(&rt, rt.alloc(), &cast, 4),
    ];
    let cut = cuts(&rt, rt.alloc(), &cast, &entries);
    check(
        &rt,
        "how often it failed",
        cut >= 7 && u64::from(cut) < CALLS,
    );
}
