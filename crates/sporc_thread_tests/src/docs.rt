//! Documents that one server holds.

mod serving;
mod sessions;
mod tails;

use crate::checks::{check, check_at};
use sporc_docs::{Docs, DocsFault, MAX_DOCUMENTS};
use sporc_order::Order;
use sporc_samples::Cast;
use sporc_wire::ToServer;
use std::alloc::Global;
use std::process::Abort;

// The document with this number.
fn document(number: u8) -> [u8; 16] {
    [number; 16]
}

// Its empty order, in a box: a function that owns an order itself is slow to prove.
fn empty_order(rt: &impl Abort, alloc: Global, cast: &Cast, number: u8) -> Box<Order> {
    let mut genesis = cast.genesis(alloc).expect(rt, "a genesis");
    genesis.document = document(number);
    Box::new(alloc, Order::open(alloc, genesis).expect(rt, "memory")).expect(rt, "memory")
}

// Adds the empty order of a document, and answers why it isn't taken, if it isn't.
fn added(
    rt: &impl Abort,
    alloc: Global,
    cast: &Cast,
    docs: &mut Docs,
    number: u8,
) -> Option<DocsFault> {
    let order = empty_order(rt, alloc, cast, number);
    match docs.add(Box::into_inner(order)) {
        Ok(()) => None,
        Err((fault, _)) => Some(fault),
    }
}

// Adds it, which is taken.
fn adds(rt: &impl Abort, alloc: Global, cast: &Cast, docs: &mut Docs, number: u8) {
    let fault = added(rt, alloc, cast, docs, number);
    check_at(rt, "added", u64::from(number), fault.is_none());
}

// As many documents as may be, with the numbers from 0 on.
fn full(rt: &impl Abort, alloc: Global, cast: &Cast) -> Box<Docs> {
    let mut docs = Box::new(alloc, Docs::new(alloc)).expect(rt, "memory");
    for number in 0..64u8 {
        adds(rt, alloc, cast, &mut docs, number);
    }
    docs
}

// The place that a Hello with this document names.
fn place(docs: &Docs, number: u8) -> Option<u32> {
    docs.route(&ToServer::Hello {
        document: document(number),
        member: 1,
    })
}

// One that is held already, and one too many, are not taken.
fn no_more_are_taken(rt: &impl Abort, alloc: Global, cast: &Cast, docs: &mut Docs) {
    let held = added(rt, alloc, cast, docs, 63);
    check(rt, "held already", held == Some(DocsFault::Exists));
    let more = added(rt, alloc, cast, docs, 64);
    check(rt, "one too many", more == Some(DocsFault::Full));
}

fn have_their_places(rt: &impl Abort, docs: &Docs) {
    for number in 0..64u8 {
        let found = place(docs, number) == Some(u32::from(number));
        check_at(rt, "its place", u64::from(number), found);
    }
}

fn others_have_none(rt: &impl Abort, docs: &Docs) {
    check(rt, "not held", place(docs, 64).is_none());
    let pull = docs.route(&ToServer::Pull { from: 0 });
    check(rt, "no Hello", pull.is_none());
}

#[test]
fn sixty_four_documents(rt: HostRuntime) {
    let alloc = rt.alloc();
    let cast = Cast::new(alloc).expect(&rt, "a cast");
    let mut docs = full(&rt, alloc, &cast);
    no_more_are_taken(&rt, alloc, &cast, &mut docs);
    have_their_places(&rt, &docs);
    others_have_none(&rt, &docs);
    let orders = Box::into_inner(docs).into_orders();
    check(&rt, "all of them", orders.len() == MAX_DOCUMENTS);
}
