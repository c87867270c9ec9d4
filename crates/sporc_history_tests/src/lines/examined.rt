//! Entries whose signature is examined before a line takes them.

use crate::checks::{check, check_at, check_bytes};
use crate::lines::scene::{founded, insert};
use crate::samples::empty_sample;
use sporc_head::{Examined, Refusal};
use sporc_line::Line;
use sporc_samples::Cast;
use std::alloc::Global;
use std::process::Abort;

// The bytes of an entry, without so many at its end, examined under a key.
fn examined(
    rt: &impl Abort,
    alloc: Global,
    key: &[u8; 56],
    entry: &[u8],
    cut: usize,
) -> Box<Examined> {
    let mut bytes = Vec::from_slice(alloc, entry).expect(rt, "memory");
    bytes.truncate(entry.len().wrapping_sub(cut));
    let examined = Examined::of(key, bytes).ok().expect(rt, "memory");
    Box::new(alloc, examined).expect(rt, "memory")
}

fn key_of(rt: &impl Abort, cast: &Cast, member: u16) -> [u8; 56] {
    cast.member(member).expect(rt, "a member").founder().key
}

// Whose key examines entry 1, how many bytes it is cut by, the verdict, and the place from which on
// it is malformed.
const ROWS: [(u16, usize, bool, Option<usize>); 4] = [
    (1, 0, true, None),
    (2, 0, false, None),
    (1, 1, false, Some(88)),
    (2, 1, false, Some(88)),
];

// Whether a line answers so: prepared or accepted.
fn answers(found: Option<Refusal>, malformed: Option<usize>) -> bool {
    found == malformed.map(Refusal::Malformed)
}

// Gives an empty line the examined entry twice, and looks whether it has taken it.
fn takes_examined(line: &mut Line, examined: &Examined, malformed: Option<usize>) -> bool {
    answers(line.prepare_examined(1, examined).err(), malformed)
        && line.is_empty()
        && answers(line.accept_examined(1, examined).err(), malformed)
        && line.is_empty() == malformed.is_some()
}

fn tries_row(
    rt: &impl Abort,
    alloc: Global,
    cast: &Cast,
    entry: &[u8],
    number: u64,
    row: &(u16, usize, bool, Option<usize>),
) {
    let (member, cut, verdict, malformed) = *row;
    let mut line = founded(rt, alloc, cast, 2);
    let key = key_of(rt, cast, member);
    let examined = examined(rt, alloc, &key, entry, cut);
    check_at(rt, "verdict", number, examined.verdict() == verdict);
    check_bytes(rt, "key", examined.key(), &key);
    let found = line.key_for(examined.entry());
    check_at(
        rt,
        "key for",
        number,
        found.is_none() == malformed.is_some(),
    );
    check_at(
        rt,
        "taken",
        number,
        takes_examined(&mut line, &examined, malformed),
    );
}

// Entry 1, an edit by 1 that inserts "abc", has 2,436 bytes.
fn first_entry(rt: &impl Abort, alloc: Global, cast: &Cast, entry: &[u8]) {
    check(rt, "size", entry.len() == 2_436);
    let mut number = 0u64;
    for row in &ROWS {
        tries_row(rt, alloc, cast, entry, number, row);
        number = number.wrapping_add(1);
    }
}

#[test]
fn an_entry_is_examined_under_any_key(rt: HostRuntime) {
    let cast = Cast::new(rt.alloc()).expect(&rt, "a cast");
    let mut sample = empty_sample(&rt, rt.alloc(), &cast);
    insert(&rt, rt.alloc(), &cast, &mut sample, 1, 0, b"abc");
    for entry in sample.entries() {
        first_entry(&rt, rt.alloc(), &cast, entry.as_slice());
    }
}
