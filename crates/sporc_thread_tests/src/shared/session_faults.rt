//! Each fault of a session. Its objects are handed to it one by one, and how it ends if a call of
//! one fails is known exactly; what commands do with theirs stands in the tables of
//! `sporc_top_tests/src/failing.rt`.

use crate::checks::{check_at, check_end};
use crate::shared::scene::{LeafFile, Past};
use crate::shared::staging::{EDITED, FRESH, Start, TWO_ROUNDS, heard, written};
use lms_leaf::LeafFault;
use sporc_client::EditFault;
use sporc_head::Refusal;
use sporc_samples::{Cast, count_calls};
use sporc_session::SessionFault;
use std::alloc::Global;
use std::process::Abort;
use std::sync::Wait;
use std::thread::Threads;

// An object of a session.
#[derive(Clone, Copy)]
enum Object {
    Disk,
    Link,
    Chance,
}

// A client with one pending edit, where these calls of an object fail.
fn failing(object: Object, calls: &[u64]) -> Start<'_> {
    match object {
        Object::Disk => Start {
            file: LeafFile {
                byte: 0,
                failing: calls,
            },
            ..EDITED
        },
        Object::Link => Start {
            link: calls,
            ..EDITED
        },
        Object::Chance => Start {
            chance: calls,
            ..EDITED
        },
    }
}

// A session of two rounds with an order ends by this fault, or well if there is none, where so many
// editors have these lines.
fn ends_so<R: Abort + Threads + Wait + Sync>(
    rt: &R,
    alloc: Global,
    cast: &Cast,
    start: Start<'_>,
    editors: u32,
    lines: &str,
    fault: Option<SessionFault>,
) {
    let outcome = written(rt, alloc, cast, start, editors, lines, TWO_ROUNDS);
    check_end(rt, outcome.answer.err(), fault);
}

// An object, how many of its calls come before the session, how many the session makes, and how it
// ends if one of these fails.
type Row = (Object, u64, u64, SessionFault);

const CALLS: [Row; 3] = [
    // the leaf file is opened by three calls; a leaf's block is written and synced
    (Object::Disk, 3, 2, SessionFault::Leaf(LeafFault::DiskFault)),
    // Hello, two pulls and a submission are written, and three answers are read
    (Object::Link, 0, 7, SessionFault::LinkFault),
    // each of two submissions draws two words
    (Object::Chance, 0, 4, SessionFault::ChanceFault),
];

// Whether a session ends well where this call of an object is to fail, since it makes no such call.
// Else it ends as its row says.
fn ends_without<R: Abort + Threads + Wait + Sync>(
    rt: &R,
    alloc: Global,
    cast: &Cast,
    row: Row,
    call: u64,
) -> bool {
    let (object, before, _, fault) = row;
    let calls = [before.saturating_add(call)];
    let start = failing(object, &calls);
    let outcome = written(rt, alloc, cast, start, 0, "", TWO_ROUNDS);
    let end = outcome.answer.err();
    let is_well = end.is_none();
    check_at(rt, "call", call, is_well || end == Some(fault));
    is_well
}

// Each of an object's calls ends a session if it fails.
fn each_call_ends<R: Abort + Threads + Wait + Sync>(rt: &R, alloc: Global, cast: &Cast, row: Row) {
    let (_, _, calls, _) = row;
    let made = count_calls(|call| ends_without(rt, alloc, cast, row, call)).expect(rt, "an end");
    check_at(rt, "calls", made, made == calls);
}

// No entries come.
const EMPTY: &[u8] = b"\0\0\0\x01\x04";

// What a client did before its session, what a server sends, and how the session ends.
const SENT: [(Past, &[u8], SessionFault); 11] = [
    (Past::Edit, b"", SessionFault::LinkEnded(0)),
    (Past::Edit, b"\0\0\0\x01", SessionFault::LinkEnded(4)),
    // no entries, and then a part of an answer to the entry
    (
        Past::Edit,
        b"\0\0\0\x01\x04\0\0",
        SessionFault::LinkEnded(7),
    ),
    // an answer to an entry where one to a pull is due, and the other way round
    (
        Past::Edit,
        b"\0\0\0\x05\x01\0\0\0\x01",
        SessionFault::BadMessage(0),
    ),
    (
        Past::Edit,
        b"\0\0\0\x01\x04\0\0\0\x01\x04",
        SessionFault::BadMessage(5),
    ),
    // no message's number; a length above the limit
    (
        Past::Edit,
        b"\0\0\0\x01\x04\0\0\0\x01\x09",
        SessionFault::BadMessage(9),
    ),
    (
        Past::Edit,
        b"\0\0\0\x01\x04\x7f\0\0\x01",
        SessionFault::BadMessage(5),
    ),
    // the entry is rejected, and is still on its way after all entries came
    (
        Past::Edit,
        b"\0\0\0\x01\x04\0\0\0\x06\x02\x02\0\0\0\0\0\0\0\x01\x04",
        SessionFault::ServerRejected(Refusal::WrongDocument),
    ),
    // an entry of one byte comes
    (
        Past::Edit,
        b"\0\0\0\x0b\x03\0\0\0\x01\x01\0\0\0\x01\x05",
        SessionFault::Refused(1, Refusal::Malformed(0)),
    ),
    // a history and a journal that are full
    (Past::AllEntries, EMPTY, SessionFault::HistoryFull),
    (Past::AllEvents, EMPTY, SessionFault::JournalFull),
];

// A session ends so, where a server sends this.
fn ends_by<R: Abort + Threads + Wait + Sync>(
    rt: &R,
    alloc: Global,
    cast: &Cast,
    row: (Past, &[u8], SessionFault),
) {
    let (past, sent, fault) = row;
    let start = Start { past, ..FRESH };
    let answer = heard(rt, alloc, cast, start, sent);
    check_end(rt, answer.err(), Some(fault));
}

// No leaf of this file is left.
const USED: LeafFile<'static> = LeafFile {
    byte: 1,
    failing: &[],
};

const LINES: &str = "# none of these\n\ninsert 0 \"x\"\n";

// Calls that fail, servers, a file with no leaf, and the edit of a reader.
fn each_fault_ends_one<R: Abort + Threads + Wait + Sync>(rt: &R, alloc: Global, cast: &Cast) {
    for row in &CALLS {
        each_call_ends(rt, alloc, cast, *row);
    }
    for row in &SENT {
        ends_by(rt, alloc, cast, *row);
    }
    let last = Start {
        file: USED,
        ..EDITED
    };
    let fault = SessionFault::Leaf(LeafFault::Exhausted(32));
    ends_so(rt, alloc, cast, last, 0, "", Some(fault));
    let reader = Start { member: 3, ..FRESH };
    let fault = SessionFault::EditRefused(1, 3, EditFault::NoRight);
    ends_so(rt, alloc, cast, reader, 1, LINES, Some(fault));
}

#[test]
fn each_fault_ends_a_session(rt: HostRuntime) {
    let cast = Cast::new(rt.alloc()).expect(&rt, "the cast");
    each_fault_ends_one(&rt, rt.alloc(), &cast);
}
