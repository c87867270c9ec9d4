//! Sessions of many documents on one server.

ghost use Rattle.std.specs.Prelude.{◌<◌};

use crate::checks::{check, check_at};
use crate::docs::empty_order;
use crate::docs::serving::{
    Outcome, entry_of, hello, hello_and_submit, hello_submit_and_pull, served,
};
use crate::objects::joined;
use crate::serve::replies::{EMPTY, ORDERED_FIRST, are_of_submit_and_pull};
use crate::serve::server::{Outcome as Alone, Peers, served_order};
use crate::serve::streams::{PULL, submit};
use sporc_base::is_same;
use sporc_outside::OpenGate;
use sporc_samples::Cast;
use std::alloc::Global;
use std::process::Abort;
use std::sync::Wait;
use std::thread::Threads;

// A Rejected of an entry of another document.
const WRONG_DOCUMENT: [u8; 10] = [0, 0, 0, 6, 2, 2, 0, 0, 0, 0];

// A Hello with this document, a Pull, and then a Submit.
fn hello_pull_and_submit(rt: &impl Abort, alloc: Global, number: u8, entry: &[u8]) -> Vec<u8> {
    let hello = hello(rt, alloc, number);
    let submission = submit(rt, alloc, entry);
    joined(rt, alloc, &[hello.as_slice(), &PULL, submission.as_slice()])
}

// Adds a link whose other end sends this, of which no call fails.
fn add(rt: &impl Abort, alloc: Global, peers: &mut Peers, stream: Vec<u8>, piece: usize)
    requires { 0 < piece }
{
    peers.add(rt, alloc, stream.as_slice(), piece, &[]);
}

// A link to document 7, one to document 8 with an entry of document 7, and one to a document that
// isn't held, the last one first.
fn three_peers(rt: &impl Abort, alloc: Global, entry: &[u8]) -> Peers {
    let mut peers = Peers::new(alloc);
    add(
        rt,
        alloc,
        &mut peers,
        hello_and_submit(rt, alloc, 9, entry),
        512,
    );
    add(
        rt,
        alloc,
        &mut peers,
        hello_pull_and_submit(rt, alloc, 8, entry),
        3,
    );
    add(
        rt,
        alloc,
        &mut peers,
        hello_and_submit(rt, alloc, 7, entry),
        512,
    );
    peers
}

// Whether a link was given these answers.
fn is_answered(
    rt: &impl Abort,
    alloc: Global,
    outcome: &Outcome,
    place: usize,
    answers: &[&[u8]],
) -> bool {
    let wanted = joined(rt, alloc, answers);
    is_same(outcome.written(place), wanted.as_slice())
}

fn check_three(rt: &impl Abort, alloc: Global, outcome: &Outcome, entry: &[u8]) {
    check(rt, "the server", outcome.went_well());
    let ordered = is_answered(rt, alloc, outcome, 2, &[&ORDERED_FIRST]);
    check(rt, "its own document", ordered);
    let refused = is_answered(rt, alloc, outcome, 1, &[&EMPTY, &WRONG_DOCUMENT]);
    check(rt, "another document", refused);
    let closed = is_answered(rt, alloc, outcome, 0, &[]);
    check(rt, "no document", closed);
    check(rt, "document 7", outcome.has_entry(0, entry));
    check(rt, "document 8", outcome.is_empty(1));
}

#[test]
fn each_session_has_its_document(rt: HostRuntime) {
    let alloc = rt.alloc();
    let cast = Cast::new(alloc).expect(&rt, "a cast");
    let entry = entry_of(&rt, alloc, &cast, 7);
    let peers = three_peers(&rt, alloc, entry.as_slice());
    let outcome = served(&rt, alloc, &cast, &[7, 8], peers, 3);
    check_three(&rt, alloc, &outcome, entry.as_slice());
}

// Adds a link to a document, with an entry of another.
fn add_crossed(
    rt: &impl Abort,
    alloc: Global,
    cast: &Cast,
    peers: &mut Peers,
    number: u8,
    other: u8,
) {
    let entry = entry_of(rt, alloc, cast, other);
    let stream = hello_and_submit(rt, alloc, number, entry.as_slice());
    add(rt, alloc, peers, stream, 512);
}

// A link to each of two documents, with an entry of the other.
fn crossed_peers(rt: &impl Abort, alloc: Global, cast: &Cast) -> Peers {
    let mut peers = Peers::new(alloc);
    add_crossed(rt, alloc, cast, &mut peers, 8, 7);
    add_crossed(rt, alloc, cast, &mut peers, 7, 8);
    peers
}

fn are_refused(rt: &impl Abort, alloc: Global, outcome: &Outcome) {
    for place in 0..2usize {
        let refused = is_answered(rt, alloc, outcome, place, &[&WRONG_DOCUMENT]);
        check_at(rt, "refused", place as u64, refused);
        check_at(rt, "no entry", place as u64, outcome.is_empty(place));
    }
}

#[test]
fn entries_of_the_other_document(rt: HostRuntime) {
    let alloc = rt.alloc();
    let cast = Cast::new(alloc).expect(&rt, "a cast");
    let peers = crossed_peers(&rt, alloc, &cast);
    let outcome = served(&rt, alloc, &cast, &[7, 8], peers, 2);
    are_refused(&rt, alloc, &outcome);
}

// A link to document 7 whose second call fails, and one to document 8.
fn failing_peers(rt: &impl Abort, alloc: Global, cast: &Cast, entry: &[u8]) -> Peers {
    let mut peers = Peers::new(alloc);
    add(
        rt,
        alloc,
        &mut peers,
        hello_submit_and_pull(rt, alloc, 8, entry),
        512,
    );
    add_failing(
        rt,
        alloc,
        &mut peers,
        entry_of(rt, alloc, cast, 7).as_slice(),
    );
    peers
}

fn add_failing(rt: &impl Abort, alloc: Global, peers: &mut Peers, entry: &[u8]) {
    let stream = hello_submit_and_pull(rt, alloc, 7, entry);
    peers.add(rt, alloc, stream.as_slice(), 3, &[2]);
}

// The second session has its answers, and its entry alone is taken.
fn check_other(rt: &impl Abort, alloc: Global, outcome: &Outcome, entry: &[u8]) {
    check(rt, "the server", outcome.went_well());
    check(rt, "document 7", outcome.is_empty(0));
    check(rt, "document 8", outcome.has_entry(1, entry));
    let answered = are_of_submit_and_pull(rt, alloc, outcome.written(0));
    check(rt, "its answers", answered);
}

#[test]
fn a_session_that_fails_beside_one_that_does_not(rt: HostRuntime) {
    let alloc = rt.alloc();
    let cast = Cast::new(alloc).expect(&rt, "a cast");
    let entry = entry_of(&rt, alloc, &cast, 8);
    let peers = failing_peers(&rt, alloc, &cast, entry.as_slice());
    let outcome = served(&rt, alloc, &cast, &[7, 8], peers, 2);
    check_other(&rt, alloc, &outcome, entry.as_slice());
}

// The numbers of as many documents as may be.
fn all_numbers(rt: &impl Abort, alloc: Global) -> Vec<u8> {
    let mut numbers = Vec::new(alloc);
    for number in 0..64u8 {
        numbers.push(number).expect(rt, "memory");
    }
    numbers
}

// The first entry of each of these documents.
fn entries_of(rt: &impl Abort, alloc: Global, cast: &Cast, numbers: &[u8]) -> Vec<Vec<u8>> {
    let mut entries = Vec::new(alloc);
    for number in numbers {
        let entry = entry_of(rt, alloc, cast, *number);
        entries.push(entry).expect(rt, "memory");
    }
    entries
}

// A link to each of these documents, with its entry.
fn peers_of(rt: &impl Abort, alloc: Global, numbers: &[u8], entries: &[Vec<u8>]) -> Peers {
    let mut peers = Peers::new(alloc);
    for (number, entry) in numbers.iter().zip(entries) {
        let stream = hello_submit_and_pull(rt, alloc, *number, entry.as_slice());
        peers.add(rt, alloc, stream.as_slice(), 512, &[]);
    }
    peers
}

// What a server of this document alone leaves after the same session.
fn served_alone<R: Threads + Wait + Sync + Abort>(
    rt: &R,
    alloc: Global,
    cast: &Cast,
    number: u8,
    entry: &[u8],
) -> Box<Alone> {
    let stream = hello_submit_and_pull(rt, alloc, number, entry);
    let mut peers = Peers::new(alloc);
    peers.add(rt, alloc, stream.as_slice(), 512, &[]);
    let order = empty_order(rt, alloc, cast, number);
    served_order(rt, alloc, order, peers, 1, &OpenGate)
}

// A document has its own entry alone, and its log and its answers are those of a server of it
// alone.
fn check_one<R: Threads + Wait + Sync + Abort>(
    rt: &R,
    alloc: Global,
    cast: &Cast,
    outcome: &Outcome,
    place: usize,
    number: u8,
    entry: &[u8],
) {
    let own = outcome.has_entry(place, entry);
    check_at(rt, "its own entry alone", place as u64, own);
    let alone = served_alone(rt, alloc, cast, number, entry);
    check_at(rt, "as alone", place as u64, outcome.is_as(place, &alone));
}

fn check_all<R: Threads + Wait + Sync + Abort>(
    rt: &R,
    alloc: Global,
    cast: &Cast,
    outcome: &Outcome,
    numbers: &[u8],
    entries: &[Vec<u8>],
) {
    check(rt, "the server", outcome.went_well());
    for (place, (number, entry)) in numbers.iter().zip(entries).enumerate() {
        check_one(rt, alloc, cast, outcome, place, *number, entry.as_slice());
    }
}

// Serves so many documents at once, each with its entry.
fn all_are_served<R: Threads + Wait + Sync + Abort>(
    rt: &R,
    alloc: Global,
    cast: &Cast,
    numbers: &[u8],
    entries: &[Vec<u8>],
) {
    let peers = peers_of(rt, alloc, numbers, entries);
    let outcome = served(rt, alloc, cast, numbers, peers, 64);
    check_all(rt, alloc, cast, &outcome, numbers, entries);
}

#[test]
fn sixty_four_documents_at_once(rt: HostRuntime) {
    let alloc = rt.alloc();
    let cast = Cast::new(alloc).expect(&rt, "a cast");
    let numbers = all_numbers(&rt, alloc);
    let entries = entries_of(&rt, alloc, &cast, numbers.as_slice());
    all_are_served(&rt, alloc, &cast, numbers.as_slice(), entries.as_slice());
}
