use crate::checks::check;
use crate::samples::empty_sample;
use sporc_base::Bytes;
use sporc_head::{Examined, Refusal};
use sporc_order::{Order, Reply, Session};
use sporc_samples::{Cast, DOCUMENT, History};
use sporc_wire::{ToClient, ToServer};
use std::alloc::Global;
use std::process::Abort;

// The empty order of the sample document, in a box: a function that owns an order itself is slow to
// prove.
fn opened(rt: &impl Abort, alloc: Global, cast: &Cast) -> Box<Order> {
    let genesis = cast.genesis(alloc).expect(rt, "a genesis");
    Box::new(alloc, Order::open(alloc, genesis).expect(rt, "memory")).expect(rt, "memory")
}

// What a frame carries. The body of an Entries begins with the byte 3, the position of the first,
// and how many there are.
fn heard_of(frame: &[u8]) -> &'static str {
    match frame {
        [_, _, _, _, 3, 0, 0, 0, 1, 1, ..] => "an entry from 1",
        _ => "another frame",
    }
}

// What a session answers.
fn heard_in(reply: &Reply) -> &'static str {
    match reply {
        Reply::Silent => "silent",
        Reply::Close => "close",
        Reply::Frame(frame) => heard_of(frame.as_slice()),
        Reply::Message(ToClient::Empty) => "empty",
        Reply::Message(ToClient::Ordered { pos: 1 }) => "ordered 1",
        Reply::Message(ToClient::Rejected { refusal }) => match refusal {
            Refusal::WrongNumber => "wrong number",
            _ => "another refusal",
        },
        _ => "something else",
    }
}

// Fails unless a session answers the message so.
fn answers(
    rt: &impl Abort,
    alloc: Global,
    session: &mut Session,
    order: &mut Order,
    message: &ToServer,
    wanted: &str,
) {
    let reply = session.step(alloc, order, message).expect(rt, "memory");
    check(rt, wanted, heard_in(&reply) == wanted);
}

fn greets(rt: &impl Abort, alloc: Global, session: &mut Session, order: &mut Order, wanted: &str) {
    let hello = ToServer::Hello {
        document: DOCUMENT,
        member: 1,
    };
    answers(rt, alloc, session, order, &hello, wanted);
}

fn pulls(rt: &impl Abort, alloc: Global, session: &mut Session, order: &mut Order, wanted: &str) {
    let pull = ToServer::Pull { from: 0 };
    answers(rt, alloc, session, order, &pull, wanted);
}

// A session that is not greeted, and one that is greeted twice.
fn is_greeted(rt: &impl Abort, alloc: Global, order: &mut Order) {
    let mut session = Session::new();
    pulls(rt, alloc, &mut session, order, "close");
    greets(rt, alloc, &mut session, order, "silent");
    pulls(rt, alloc, &mut session, order, "empty");
    greets(rt, alloc, &mut session, order, "close");
}

// A message that submits the first entry of a history.
fn submission(rt: &impl Abort, alloc: Global, sample: &History) -> ToServer {
    let first = match sample.entries() {
        [first, ..] => first.as_slice(),
        [] => b"",
    };
    let entry = Bytes::copy_of(alloc, first).expect(rt, "memory");
    ToServer::Submit { entry }
}

fn is_ordered(rt: &impl Abort, alloc: Global, order: &mut Order, message: &ToServer) {
    let mut session = Session::new();
    greets(rt, alloc, &mut session, order, "silent");
    answers(rt, alloc, &mut session, order, message, "ordered 1");
    answers(rt, alloc, &mut session, order, message, "wrong number");
    pulls(rt, alloc, &mut session, order, "an entry from 1");
}

// Submits the first entry of a history, to which this adds it.
fn is_submitted(
    rt: &impl Abort,
    alloc: Global,
    cast: &Cast,
    order: &mut Order,
    sample: &mut History,
) {
    sample.edit(alloc, cast, 1, b"").expect(rt, "an edit");
    let message = submission(rt, alloc, sample);
    is_ordered(rt, alloc, order, &message);
}

fn session_orders_once(rt: &impl Abort, alloc: Global, cast: &Cast) {
    let mut order = opened(rt, alloc, cast);
    is_greeted(rt, alloc, &mut order);
    let mut sample = empty_sample(rt, alloc, cast);
    is_submitted(rt, alloc, cast, &mut order, &mut sample);
}

// Examines an entry under a key.
fn examined(rt: &impl Abort, alloc: Global, key: &[u8; 56], entry: &[u8]) -> Examined {
    let entry = Vec::from_slice(alloc, entry).expect(rt, "memory");
    Examined::of(key, entry).ok().expect(rt, "memory")
}

// An entry that was examined under its author's key, and one that was examined under the key of
// another's author.
fn orders_examined(rt: &impl Abort, alloc: Global, order: &mut Order, entries: &[Vec<u8>]) {
    let first = entries.first().expect(rt, "an entry").as_slice();
    let second = entries.last().expect(rt, "an entry").as_slice();
    let key = order.key_for(first).expect(rt, "a key");
    let good = examined(rt, alloc, &key, first);
    let other = examined(rt, alloc, &key, second);
    check(rt, "verdicts", good.verdict() && !other.verdict());
    check(rt, "no key", order.key_for(b"").is_none());
    check(rt, "the first", order.submit_examined(&good) == Ok(1));
    check(rt, "the second", order.submit_examined(&other) == Ok(2));
}

fn examined_are_ordered(rt: &impl Abort, alloc: Global, cast: &Cast) {
    let mut order = opened(rt, alloc, cast);
    let mut sample = empty_sample(rt, alloc, cast);
    sample.edit(alloc, cast, 2, b"").expect(rt, "an edit");
    sample.edit(alloc, cast, 1, b"").expect(rt, "an edit");
    orders_examined(rt, alloc, &mut order, sample.entries());
}

// A session is greeted and orders an entry once, and entries that were examined are ordered.
#[test]
fn entries_are_ordered(rt: HostRuntime) {
    let cast = Cast::new(rt.alloc()).expect(&rt, "a cast");
    session_orders_once(&rt, rt.alloc(), &cast);
    examined_are_ordered(&rt, rt.alloc(), &cast);
}
