//! A server over links in memory.

ghost use Rattle.std.specs.Prelude.{◌≤◌, ◌<◌, []};
ghost use Rattle.sporc_memory.specs.MemoryNetModel.{AreFresh};
ghost use Rattle.sporc_wire.specs.declared.limits.TheConstants.{MAX_SESSIONS};

use crate::objects::{calls, empty_order, listed_link};
use crate::serve::notes::Notes;
use sporc_base::is_same;
use sporc_memory::{MemoryLink, MemoryNet};
use sporc_order::Order;
use sporc_outside::Gate;
use sporc_samples::Cast;
use sporc_serve::{KeptOrder, ServeFault, serve, serve_kept};
use std::alloc::Global;
use std::process::Abort;
use std::sync::Wait;
use std::thread::Threads;

/// The links that a server is to take, the last one first.
#[derive(Drop)]
pub struct Peers {
    links: Vec<MemoryLink>,
    ghost fresh: { AreFresh links.items },
}

impl Peers {
    /// No links.
    pub fn new(alloc: Global) -> Peers {
        Peers {
            links: Vec::new(alloc),
        }
    }

    /// One link more, whose other end sends these bytes. At most `piece` bytes move in one call,
    /// and the calls with these numbers fail.
    pub fn add(
        &mut self,
        rt: &impl Abort,
        alloc: Global,
        stream: &[u8],
        piece: usize,
        failing: &[u64],
    )
        requires { 0 < piece }
    {
        let link = listed_link(rt, alloc, stream, piece, failing);
        self.links.push(link).expect(rt, "memory");
    }

    /// The net that these links come from.
    pub fn into_net(self, rt: &impl Abort, alloc: Global) -> MemoryNet {
        MemoryNet::new(alloc, self.links, calls(rt, alloc, &[]))
    }
}

/// What a server left. It is kept in a box: a function that owns an order or a net itself is slow
/// to prove.
#[derive(Drop)]
pub struct Outcome {
    pub order: Order,
    pub net: MemoryNet,
    pub answer: Result<(), ServeFault>,
}

impl Outcome {
    /// Whether the server went well, and its order has so many entries.
    pub fn went_well(&self, entries: u32) -> bool {
        self.answer.is_ok() && self.order.len() == entries
    }

    /// Whether the order has these entries alone.
    pub fn has_entries(&self, entries: &[Vec<u8>]) -> bool {
        let mut from = 0u32;
        for entry in entries {
            if !has_entry(&self.order, from, entry.as_slice()) {
                return false;
            }
            from = from.saturating_add(1);
        }
        self.order.len() == from
    }

    /// Whether this was written on the link that was taken as the last but so many.
    pub fn is_written(&self, place: usize, wanted: &[u8]) -> bool {
        match self.net.returned().get(place) {
            Some(link) => is_same(link.written(), wanted),
            None => false,
        }
    }
}

// Whether an order has this entry behind so many others.
fn has_entry(order: &Order, from: u32, entry: &[u8]) -> bool {
    match order.pull(from) {
        [first, ..] => is_same(first.as_slice(), entry),
        [] => false,
    }
}

/// Serves so many links from the empty order of the cast's document.
pub fn served<R: Threads + Wait + Sync + Abort, G: Gate + Sync>(
    rt: &R,
    alloc: Global,
    cast: &Cast,
    peers: Peers,
    sessions: u32,
    gate: &G,
) -> Box<Outcome>
    requires positive { 1 ≤ sessions }
    requires limit { sessions ≤ MAX_SESSIONS }
{
    let order = empty_order(rt, alloc, cast);
    served_order(rt, alloc, order, peers, sessions, gate)
}

/// Serves so many links from this order.
pub fn served_order<R: Threads + Wait + Sync + Abort, G: Gate + Sync>(
    rt: &R,
    alloc: Global,
    order: Box<Order>,
    peers: Peers,
    sessions: u32,
    gate: &G,
) -> Box<Outcome>
    requires positive { 1 ≤ sessions }
    requires limit { sessions ≤ MAX_SESSIONS }
{
    let order = Box::into_inner(order);
    let mut net = peers.into_net(rt, alloc);
    let (order, answer) = serve(rt, alloc, &mut net, "address", order, sessions, gate);
    Box::new(alloc, Outcome { order, net, answer }).expect(rt, "memory")
}

/// Serves so many links from the empty order of the cast's document, with this tail, which is
/// handed back.
pub fn served_kept<'a, R: Threads + Wait + Sync + Abort, G: Gate + Sync>(
    rt: &R,
    alloc: Global,
    cast: &Cast,
    peers: Peers,
    notes: Notes<'a>,
    sessions: u32,
    gate: &G,
) -> (Box<Outcome>, Notes<'a>)
    requires positive { 1 ≤ sessions }
    requires limit { sessions ≤ MAX_SESSIONS }
{
    let order = Box::into_inner(empty_order(rt, alloc, cast));
    let mut net = peers.into_net(rt, alloc);
    let kept = KeptOrder { order, tail: notes };
    let (kept, answer) = serve_kept(rt, alloc, &mut net, "address", kept, sessions, gate);
    let KeptOrder { order, tail: notes } = kept;
    let outcome = Outcome { order, net, answer };
    (Box::new(alloc, outcome).expect(rt, "memory"), notes)
}
