//! What the sessions of clients and of servers are made of.

ghost use Rattle.std.specs.Prelude.{◌≡◌, ◌<◌, false};

use sporc_memory::{Calls, MemoryLink};
use sporc_order::Order;
use sporc_samples::{Cast, History};
use std::alloc::Global;
use std::process::Abort;

/// Pieces of bytes, one after the other.
pub fn joined(rt: &impl Abort, alloc: Global, pieces: &[&[u8]]) -> Vec<u8> {
    let mut bytes = Vec::new(alloc);
    for piece in pieces {
        append(rt, &mut bytes, *piece);
    }
    bytes
}

/// Appends a piece.
pub fn append(rt: &impl Abort, bytes: &mut Vec<u8>, piece: &[u8]) {
    bytes.extend_from_slice(piece).expect(rt, "memory");
}

/// The history of the sample document, empty. It is in a box: a function that owns a history itself
/// is slow to prove.
pub fn empty_history(rt: &impl Abort, alloc: Global, cast: &Cast) -> Box<History> {
    let genesis = cast.genesis(alloc).expect(rt, "a genesis");
    let history = History::new(alloc, &genesis).expect(rt, "a history");
    Box::new(alloc, history).expect(rt, "memory")
}

/// The order of the sample document, empty, in a box for the same cause.
pub fn empty_order(rt: &impl Abort, alloc: Global, cast: &Cast) -> Box<Order> {
    let genesis = cast.genesis(alloc).expect(rt, "a genesis");
    let order = Order::open(alloc, genesis).expect(rt, "memory");
    Box::new(alloc, order).expect(rt, "memory")
}

/// An object's calls, of which those with these numbers fail.
pub fn calls(rt: &impl Abort, alloc: Global, failing: &[u64]) -> Calls
    ensures fresh { result.faults ≡ 0 }
{
    Calls::failing(Vec::from_slice(alloc, failing).expect(rt, "memory"))
}

/// A link whose other end sends these bytes, so many at once at most. The calls with these numbers
/// fail.
pub fn listed_link(
    rt: &impl Abort,
    alloc: Global,
    sent: &[u8],
    piece: usize,
    failing: &[u64],
) -> MemoryLink
    requires positive { 0 < piece }
    ensures fresh { result.calls.faults ≡ 0 }
    ensures not_shut { result.is_shut ≡ false }
{
    let calls = calls(rt, alloc, failing);
    let sent = Vec::from_slice(alloc, sent).expect(rt, "memory");
    MemoryLink::new(alloc, sent, piece, calls)
}
