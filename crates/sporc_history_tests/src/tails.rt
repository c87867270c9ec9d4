//! Tails of logs: bytes that are none, and a server that is stopped at each call of its tail's
//! file.

use crate::checks::{check, check_at};
use crate::samples::short_sample;
use sporc_base::is_same;
use sporc_head::Refusal;
use sporc_memory::{AppendRequest, Calls, MemoryAppendFile};
use sporc_order::{Order, Tail};
use sporc_outside::FileBytes;
use sporc_samples::Cast;
use sporc_store::{TailFault, TailFile};
use std::alloc::Global;
use std::process::Abort;

// A file with these bytes, no call of which fails.
fn file_of(rt: &impl Abort, alloc: Global, bytes: &[u8]) -> MemoryAppendFile {
    let name = FileBytes::new(Vec::new(alloc));
    let bytes = bytes.to_vec(alloc).expect(rt, "memory");
    MemoryAppendFile::new(alloc, name, bytes, Calls::failing(Vec::new(alloc))).expect(rt, "memory")
}

// An order that took the first few of these entries, in a box: a function that owns an order itself
// is slow to prove.
fn order_of(
    rt: &impl Abort,
    alloc: Global,
    cast: &Cast,
    entries: &[Vec<u8>],
    few: usize,
) -> Box<Order> {
    let genesis = cast.genesis(alloc).expect(rt, "a genesis");
    let mut order = Order::open(alloc, genesis).expect(rt, "memory");
    for entry in entries.iter().take(few) {
        check(rt, "an entry", order.submit(entry.as_slice()).is_ok());
    }
    Box::new(alloc, order).expect(rt, "memory")
}

// The tail of the document of sixteen bytes 7, with the entries "ab" and "c" behind one of the log.
const EXAMPLE: &str = "\
    5350543107070707070707070707070707070707000000020000000261620000000300000001\
    63";

// What opening answers to the first bytes of the example, so many of them, once those from a place
// on are these: the tail of a log of one entry.
struct Row {
    len: usize,
    at: usize,
    bytes: &'static [u8],
    fault: Option<TailFault>,
}

const ROWS: [Row; 21] = [
    // Cut: nothing, parts of the head, the head, and parts of the first record; then "ab" is taken,
    // which is no entry.
    Row {
        len: 0,
        at: 0,
        bytes: b"",
        fault: None,
    },
    Row {
        len: 3,
        at: 0,
        bytes: b"",
        fault: None,
    },
    Row {
        len: 19,
        at: 0,
        bytes: b"",
        fault: None,
    },
    Row {
        len: 20,
        at: 0,
        bytes: b"",
        fault: None,
    },
    Row {
        len: 23,
        at: 0,
        bytes: b"",
        fault: None,
    },
    Row {
        len: 27,
        at: 0,
        bytes: b"",
        fault: None,
    },
    Row {
        len: 29,
        at: 0,
        bytes: b"",
        fault: None,
    },
    Row {
        len: 30,
        at: 0,
        bytes: b"",
        fault: Some(TailFault::Refused(2, Refusal::Malformed(0))),
    },
    Row {
        len: 38,
        at: 0,
        bytes: b"",
        fault: Some(TailFault::Refused(2, Refusal::Malformed(0))),
    },
    Row {
        len: 39,
        at: 0,
        bytes: b"",
        fault: Some(TailFault::Refused(2, Refusal::Malformed(0))),
    },
    // Another format, another document, and a part of another head.
    Row {
        len: 39,
        at: 3,
        bytes: b"2",
        fault: Some(TailFault::Malformed(0)),
    },
    Row {
        len: 39,
        at: 19,
        bytes: b"\x08",
        fault: Some(TailFault::Malformed(0)),
    },
    Row {
        len: 3,
        at: 2,
        bytes: b"H",
        fault: Some(TailFault::Malformed(0)),
    },
    // A first position of 0, one of the log with another entry, and one behind a gap.
    Row {
        len: 39,
        at: 23,
        bytes: b"\x00",
        fault: Some(TailFault::Malformed(20)),
    },
    Row {
        len: 39,
        at: 23,
        bytes: b"\x01",
        fault: Some(TailFault::Malformed(28)),
    },
    Row {
        len: 39,
        at: 23,
        bytes: b"\x03",
        fault: Some(TailFault::Malformed(20)),
    },
    // An entry of the greatest length, which is cut, and one more; a record twice, one behind a
    // gap, and one too long behind another.
    Row {
        len: 39,
        at: 24,
        bytes: b"\x00\x10\x24\xb9",
        fault: None,
    },
    Row {
        len: 39,
        at: 24,
        bytes: b"\x00\x10\x24\xba",
        fault: Some(TailFault::Malformed(24)),
    },
    Row {
        len: 39,
        at: 33,
        bytes: b"\x02",
        fault: Some(TailFault::Malformed(30)),
    },
    Row {
        len: 39,
        at: 33,
        bytes: b"\x04",
        fault: Some(TailFault::Malformed(30)),
    },
    Row {
        len: 39,
        at: 34,
        bytes: b"\x01",
        fault: Some(TailFault::Malformed(34)),
    },
];

// The bytes of a row.
fn bytes_of(rt: &impl Abort, alloc: Global, row: &Row) -> Vec<u8> {
    let mut bytes = hex::decode(alloc, EXAMPLE).expect(rt, "hex digits");
    for (place, byte) in row.bytes.iter().enumerate() {
        if let Some(old) = bytes.get_mut(row.at.wrapping_add(place)) {
            *old = *byte;
        }
    }
    bytes.truncate(row.len);
    bytes
}

// What opening answers.
fn opened(rt: &impl Abort, alloc: Global, order: &mut Order, bytes: &[u8]) -> Option<TailFault> {
    match TailFile::open(alloc, file_of(rt, alloc, bytes), order) {
        Ok(_) => None,
        Err((fault, _)) => Some(fault),
    }
}

#[test]
fn tails_are_malformed(rt: HostRuntime) {
    let cast = Cast::new(rt.alloc()).expect(&rt, "a cast");
    let sample = short_sample(&rt, rt.alloc(), &cast);
    let mut order = order_of(&rt, rt.alloc(), &cast, sample.entries(), 1);
    for (number, row) in ROWS.iter().enumerate() {
        let bytes = bytes_of(&rt, rt.alloc(), row);
        let fault = opened(&rt, rt.alloc(), &mut order, bytes.as_slice());
        check_at(&rt, "row", number as u64, fault == row.fault);
    }
}

// Whether an order has at least so many of these entries, and no others.
fn has(order: &Order, least: usize, entries: &[Vec<u8>]) -> bool {
    let found = order.entries();
    least <= found.len()
        && found.len() <= entries.len()
        && found
            .iter()
            .zip(entries)
            .all(|(a, b)| is_same(a.as_slice(), b.as_slice()))
}

// Opens what a stop left behind a log, and finds at least so many entries.
fn finds(
    rt: &impl Abort,
    alloc: Global,
    cast: &Cast,
    bytes: &[u8],
    least: usize,
    entries: &[Vec<u8>],
) {
    let mut order = order_of(rt, alloc, cast, entries, 0);
    let fault = opened(rt, alloc, &mut order, bytes);
    check_at(rt, "opened", bytes.len() as u64, fault.is_none());
    check_at(rt, "found", bytes.len() as u64, has(&order, least, entries));
}

// The file of a tail that was put these entries, all of them.
fn put_all(rt: &impl Abort, alloc: Global, cast: &Cast, entries: &[Vec<u8>]) -> MemoryAppendFile {
    let mut order = order_of(rt, alloc, cast, entries, 0);
    let Ok(mut tail) = TailFile::open(alloc, file_of(rt, alloc, b""), &mut order) else {
        panic!(rt; "a tail");
    };
    let mut position: u32 = 0;
    for entry in entries {
        position = position.wrapping_add(1);
        check(rt, "put", tail.put(position, entry.as_slice()).is_ok());
    }
    tail.close()
}

// Stops in the middle of an append, each of which leaves these bytes and a part of those behind
// them.
fn stops_in(
    rt: &impl Abort,
    alloc: Global,
    cast: &Cast,
    bytes: &[u8],
    more: &[u8],
    least: usize,
    entries: &[Vec<u8>],
) {
    for len in 0..=more.len() {
        if len < 10 || len % 401 == 0 || len == more.len() {
            let mut image = bytes.to_vec(alloc).expect(rt, "memory");
            image.extend_from_slice(&more[..len]).expect(rt, "memory");
            finds(rt, alloc, cast, image.as_slice(), least, entries);
        }
    }
}

#[test]
fn nothing_is_lost_at_a_stop(rt: HostRuntime) {
    let cast = Cast::new(rt.alloc()).expect(&rt, "a cast");
    let sample = short_sample(&rt, rt.alloc(), &cast);
    let file = put_all(&rt, rt.alloc(), &cast, sample.entries());
    let mut bytes = Vec::new(rt.alloc());
    let mut appends: usize = 0;
    for call in file.log() {
        if let AppendRequest::Append { bytes: more } = &call.request {
            stops_in(
                &rt,
                rt.alloc(),
                &cast,
                bytes.as_slice(),
                more.as_slice(),
                appends.saturating_sub(1),
                sample.entries(),
            );
            bytes
                .extend_from_slice(more.as_slice())
                .expect(&rt, "memory");
            appends = appends.wrapping_add(1);
        }
    }
}
