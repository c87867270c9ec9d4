//! Documents with a tail each.

ghost use Rattle.std.specs.Prelude.{◌≡◌, ◌+◌, length};

use crate::checks::{check, check_at};
use crate::docs::empty_order;
use crate::docs::serving::{entry_of, hello_and_submit};
use crate::serve::notes::Notes;
use crate::serve::server::Peers;
use sporc_base::is_same;
use sporc_docs::{Docs, KeptDocs, serve_docs_kept};
use sporc_order::Order;
use sporc_outside::OpenGate;
use sporc_samples::Cast;
use sporc_serve::ServeFault;
use std::alloc::Global;
use std::process::Abort;
use std::sync::Wait;
use std::sync::atomic::AtomicU64;
use std::thread::Threads;

// Adds the empty order of a document.
fn add(rt: &impl Abort, alloc: Global, cast: &Cast, docs: &mut Docs, number: u8)
    ensures { length docs.new ≡ length docs.old + 1 }
{
    let order = empty_order(rt, alloc, cast, number);
    let Ok(()) = docs.add(Box::into_inner(order)) else {
        panic!(rt; "a document");
    };
}

// The empty orders of documents 7 and 8.
fn two_docs(rt: &impl Abort, alloc: Global, cast: &Cast) -> Docs
    ensures { length result ≡ 2 }
{
    let mut docs = Docs::new(alloc);
    add(rt, alloc, cast, &mut docs, 7);
    add(rt, alloc, cast, &mut docs, 8);
    docs
}

// Their tails, of which the second fails at the put with this number.
fn two_tails<'a>(
    rt: &impl Abort,
    alloc: Global,
    kept: &'a AtomicU64,
    failing: u32,
) -> Vec<Notes<'a>>
    ensures { length result.items ≡ 2 }
{
    let first = Notes::new(alloc, kept, 0);
    let second = Notes::new(alloc, kept, failing);
    vec![in alloc; first, second].expect(rt, "memory")
}

// What a server of documents with tails left.
#[derive(Drop)]
struct Left<'a> {
    orders: Vec<Order>,
    tails: Vec<Notes<'a>>,
    answer: Result<(), ServeFault>,
}

impl<'a> Left<'a> {
    // Whether the order at a place, and its tail, have this entry alone.
    fn has_only(&self, place: usize, entry: &[u8]) -> bool {
        match (self.orders.get(place), self.tails.get(place)) {
            (Some(order), Some(tail)) => {
                is_only(order.entries(), entry) && is_only(tail.entries(), entry)
            }
            _ => false,
        }
    }

    // Whether they have none.
    fn has_none(&self, place: usize) -> bool {
        match (self.orders.get(place), self.tails.get(place)) {
            (Some(order), Some(tail)) => order.is_empty() && tail.entries().is_empty(),
            _ => false,
        }
    }
}

// Whether these are this entry alone.
fn is_only(entries: &[Vec<u8>], entry: &[u8]) -> bool {
    match entries {
        [only] => is_same(only.as_slice(), entry),
        _ => false,
    }
}

// Serves three links from these documents, with their tails in the same order.
fn served<'a, R: Threads + Wait + Sync + Abort>(
    rt: &R,
    alloc: Global,
    docs: Docs,
    tails: Vec<Notes<'a>>,
    peers: Peers,
) -> Box<Left<'a>>
    requires { length tails.items ≡ length docs }
{
    let mut net = peers.into_net(rt, alloc);
    let kept = KeptDocs { docs, tails };
    let (kept, answer) = serve_docs_kept(rt, alloc, &mut net, "address", kept, 3, &OpenGate);
    let KeptDocs { docs, tails } = kept;
    let orders = docs.into_orders();
    let left = Left {
        orders,
        tails,
        answer,
    };
    Box::new(alloc, left).expect(rt, "memory")
}

fn add_peer(rt: &impl Abort, alloc: Global, peers: &mut Peers, document: u8, entry: &[u8]) {
    let stream = hello_and_submit(rt, alloc, document, entry);
    peers.add(rt, alloc, stream.as_slice(), 512, &[]);
}

// A link to each of documents 7 and 8 with its entry, and one to document 8 with the entry of 7.
fn peers(rt: &impl Abort, alloc: Global, seventh: &[u8], eighth: &[u8]) -> Peers {
    let mut peers = Peers::new(alloc);
    add_peer(rt, alloc, &mut peers, 8, seventh);
    add_peer(rt, alloc, &mut peers, 8, eighth);
    add_peer(rt, alloc, &mut peers, 7, seventh);
    peers
}

// Whether document 8 has its entry, or none if its tail failed at once.
fn is_eighth(left: &Left<'_>, failing: u32, eighth: &[u8]) -> bool {
    match failing {
        1 => left.has_none(1) && left.answer == Err(ServeFault::Unkept),
        _ => left.has_only(1, eighth) && left.answer.is_ok(),
    }
}

// Serves documents 7 and 8 with these entries, where the tail of 8 fails at the put with this
// number.
fn serve_two<R: Threads + Wait + Sync + Abort>(
    rt: &R,
    alloc: Global,
    cast: &Cast,
    seventh: &[u8],
    eighth: &[u8],
    failing: u32,
) {
    let kept = AtomicU64::new(0);
    let docs = two_docs(rt, alloc, cast);
    let tails = two_tails(rt, alloc, &kept, failing);
    let peers = peers(rt, alloc, seventh, eighth);
    let left = served(rt, alloc, docs, tails, peers);
    check(rt, "document 7", left.has_only(0, seventh));
    let is_eighth = is_eighth(&left, failing, eighth);
    check_at(rt, "document 8", u64::from(failing), is_eighth);
}

#[test]
fn each_tail_keeps_its_document(rt: HostRuntime) {
    let alloc = rt.alloc();
    let cast = Cast::new(alloc).expect(&rt, "a cast");
    let seventh = entry_of(&rt, alloc, &cast, 7);
    let eighth = entry_of(&rt, alloc, &cast, 8);
    for failing in 0..=1u32 {
        serve_two(&rt, alloc, &cast, &seventh, &eighth, failing);
    }
}
