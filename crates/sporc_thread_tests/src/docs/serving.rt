//! A server of many documents, over links in memory.

ghost use Rattle.std.specs.Prelude.{◌≤◌};
ghost use Rattle.sporc_wire.specs.declared.limits.TheConstants.{MAX_SESSIONS};

use crate::docs::{adds, document};
use crate::objects::joined;
use crate::serve::server::{Outcome as Alone, Peers};
use crate::serve::streams::{PULL, submit};
use sporc_base::is_same;
use sporc_docs::{Docs, DocsServeFault, serve_docs};
use sporc_memory::MemoryNet;
use sporc_order::Order;
use sporc_outside::OpenGate;
use sporc_samples::{Cast, Draft, EDIT, History, edit_body};
use sporc_wire::{ToServer, write_to_server};
use std::alloc::Global;
use std::process::Abort;
use std::sync::Wait;
use std::thread::Threads;

/// What a server of many documents left. It is kept in a box: a function that owns orders or a net
/// itself is slow to prove.
#[derive(Drop)]
pub struct Outcome {
    orders: Vec<Order>,
    net: MemoryNet,
    answer: Result<(), DocsServeFault>,
}

impl Outcome {
    /// Whether the server went well.
    pub fn went_well(&self) -> bool {
        self.answer.is_ok()
    }

    /// Whether the order at a place has this entry alone.
    pub fn has_entry(&self, place: usize, entry: &[u8]) -> bool {
        match self.orders.get(place) {
            Some(order) => has_only(order, entry),
            None => false,
        }
    }

    /// Whether the order at a place, and what was written on the link that was taken as the last
    /// but so many, are those that a server of one document left after one entry in one session.
    pub fn is_as(&self, place: usize, alone: &Alone) -> bool {
        match alone.order.entries() {
            [only] => {
                self.has_entry(place, only.as_slice()) && alone.is_written(0, self.written(place))
            }
            _ => false,
        }
    }

    /// Whether the order at a place has no entry.
    pub fn is_empty(&self, place: usize) -> bool {
        match self.orders.get(place) {
            Some(order) => order.is_empty(),
            None => false,
        }
    }

    /// What was written on the link that was taken as the last but so many.
    pub fn written(&self, place: usize) -> &[u8] {
        match self.net.returned().get(place) {
            Some(link) => link.written(),
            None => &[],
        }
    }
}

// Whether an order has this entry alone.
fn has_only(order: &Order, entry: &[u8]) -> bool {
    match order.entries() {
        [only] => is_same(only.as_slice(), entry),
        _ => false,
    }
}

// The empty history of the document with this number. It is kept in a box for the same cause.
fn history_of(rt: &impl Abort, alloc: Global, cast: &Cast, number: u8) -> Box<History> {
    let mut genesis = cast.genesis(alloc).expect(rt, "a genesis");
    genesis.document = document(number);
    let history = History::new(alloc, &genesis).expect(rt, "a history");
    Box::new(alloc, history).expect(rt, "memory")
}

/// The first entry of the document with this number, by member 1.
pub fn entry_of(rt: &impl Abort, alloc: Global, cast: &Cast, number: u8) -> Vec<u8> {
    let mut header = history_of(rt, alloc, cast, number).header(1, EDIT);
    header.document = document(number);
    let signer = cast.member(1).expect(rt, "a member");
    let body = edit_body(alloc, signer.device(), header.leaf, header.epoch, b"");
    Draft::new(header)
        .signed(alloc, signer, body.expect(rt, "memory").as_slice())
        .expect(rt, "an entry")
}

/// A Hello with the document of this number.
pub fn hello(rt: &impl Abort, alloc: Global, number: u8) -> Vec<u8> {
    let hello = ToServer::Hello {
        document: [number; 16],
        member: 1,
    };
    write_to_server(alloc, &hello).expect(rt, "memory")
}

/// A Hello with the document of this number, and then a Submit.
pub fn hello_and_submit(rt: &impl Abort, alloc: Global, number: u8, entry: &[u8]) -> Vec<u8> {
    let hello = hello(rt, alloc, number);
    let submission = submit(rt, alloc, entry);
    joined(rt, alloc, &[hello.as_slice(), submission.as_slice()])
}

/// A Hello, a Submit, and then a Pull.
pub fn hello_submit_and_pull(rt: &impl Abort, alloc: Global, number: u8, entry: &[u8]) -> Vec<u8> {
    let hello = hello(rt, alloc, number);
    let submission = submit(rt, alloc, entry);
    joined(rt, alloc, &[hello.as_slice(), submission.as_slice(), &PULL])
}

// The empty orders of these documents.
fn docs_of(rt: &impl Abort, alloc: Global, cast: &Cast, numbers: &[u8]) -> Docs {
    let mut docs = Docs::new(alloc);
    for number in numbers {
        adds(rt, alloc, cast, &mut docs, *number);
    }
    docs
}

/// Serves so many links from the empty orders of these documents.
pub fn served<R: Threads + Wait + Sync + Abort>(
    rt: &R,
    alloc: Global,
    cast: &Cast,
    numbers: &[u8],
    peers: Peers,
    sessions: u32,
) -> Box<Outcome>
    requires positive { 1 ≤ sessions }
    requires limit { sessions ≤ MAX_SESSIONS }
{
    let docs = docs_of(rt, alloc, cast, numbers);
    let mut net = peers.into_net(rt, alloc);
    let (docs, answer) = serve_docs(rt, alloc, &mut net, "address", docs, sessions, &OpenGate);
    let orders = docs.into_orders();
    let outcome = Outcome {
        orders,
        net,
        answer,
    };
    Box::new(alloc, outcome).expect(rt, "memory")
}
