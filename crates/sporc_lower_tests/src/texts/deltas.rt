use crate::checks::check;
use sporc_base::is_same;
use sporc_delta::{Delta, DeltaFault, Part};
use std::alloc::Global;
use std::process::Abort;

// A part: K3 keeps, R3 removes, and I"abc" inserts.
fn shown_part(rt: &impl Abort, alloc: Global, part: &Part) -> String {
    match part {
        Part::Keep(count) => format!(in alloc; "K{count} ").expect(rt, "memory"),
        Part::Insert(text) => format!(in alloc; "I{:?} ", text.as_str()).expect(rt, "memory"),
        Part::Remove(count) => format!(in alloc; "R{count} ").expect(rt, "memory"),
    }
}

// A delta in one line.
fn shown(rt: &impl Abort, alloc: Global, delta: &Delta) -> String {
    let mut line = String::new(alloc);
    for part in delta.parts() {
        let part = shown_part(rt, alloc, part);
        line.push_str(part.as_str()).expect(rt, "memory");
    }
    line
}

/// Fails unless this is the delta's line.
pub(crate) fn is_shown(rt: &impl Abort, alloc: Global, delta: &Delta, line: &str) {
    let found = shown(rt, alloc, delta);
    check(rt, found.as_str(), found.as_str() == line);
}

// The example of the format's description.
const INSERTION: &[u8] = b"\x01\0\0\0\0\0\0\0\x03\x02\0\0\0\0\0\0\0\x01d";

fn is_spelled(rt: &impl Abort, delta: &Delta, bytes: &[u8]) {
    let encoded = delta.encode().expect(rt, "memory");
    check(rt, "the bytes", is_same(&encoded, bytes));
}

fn an_insertion_is_spelled_in_19_bytes(rt: &impl Abort, alloc: Global) {
    let delta = Delta::insert_at(alloc, 3, 3, "d").expect(rt, "memory");
    check(rt, "the number of bytes", delta.encoded_len() == 19);
    is_spelled(rt, &delta, INSERTION);
}

// Each fault alone, and two together, where the first in the format's order is answered.
const FAULTS: [(&str, DeltaFault); 10] = [
    (
        "010000000000000001010000000000000001",
        DeltaFault::SameNeighbours,
    ),
    ("05", DeltaFault::Short),
    ("040000000000000001", DeltaFault::BadKind),
    ("010000000000000000", DeltaFault::BadCount),
    ("010000010000000001", DeltaFault::BadCount),
    ("020000000000000001ff", DeltaFault::NotUtf8),
    ("02000000000000000261", DeltaFault::Short),
    ("040000000000000000", DeltaFault::BadKind),
    ("010000000000000001010000000000000000", DeltaFault::BadCount),
    (
        "0200000000000000016102000000000000000561",
        DeltaFault::SameNeighbours,
    ),
];

// Whether bytes are refused for this fault.
fn is_refused(rt: &impl Abort, alloc: Global, text: &str, fault: DeltaFault) -> bool {
    let bytes = hex::decode(alloc, text).expect(rt, "hex digits");
    bytes.len() < 100 && Delta::decode(alloc, bytes.as_slice()).err() == Some(fault)
}

fn faults_are_the_first_from_the_left(rt: &impl Abort, alloc: Global) {
    for (text, fault) in &FAULTS {
        check(rt, *text, is_refused(rt, alloc, *text, *fault));
    }
}

// Fails unless bytes spell the delta of this line.
fn is_read(rt: &impl Abort, alloc: Global, bytes: &[u8], line: &str) {
    assert!(rt; bytes.len() < 100);
    let delta = Delta::decode(alloc, bytes).expect(rt, "a delta");
    is_shown(rt, alloc, &delta, line);
}

#[test]
fn deltas_are_spelled_and_read(rt: HostRuntime) {
    an_insertion_is_spelled_in_19_bytes(&rt, rt.alloc());
    is_read(&rt, rt.alloc(), INSERTION, "K3 I\"d\" ");
    is_read(&rt, rt.alloc(), &[], "");
    faults_are_the_first_from_the_left(&rt, rt.alloc());
}
