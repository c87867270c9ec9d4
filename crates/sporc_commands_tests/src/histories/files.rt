//! The file of three entries, worked by hand, and what is read of it whole, cut and changed.

use super::folder::history_file;
use crate::bytes::{bytes_of, first_of, put, spelled};
use crate::checks::{check_at, check_same, check_stop};
use sporc_base::{is_same, put_at};
use sporc_samples::DOCUMENT;
use sporc_store::{Stop, read_saved};
use std::alloc::Global;
use std::process::Abort;

// The entries of the file below.
const ENTRIES: [&[u8]; 3] = [b"ab", b"c", b"def"];

// The file: the format, the document, the number of entries, and each entry behind its length.
const FILE: &str =
    "535048310707070707070707070707070707070700000003000000026162000000016300000003646566";

// Bytes that are changed: the place of one, and what it is then; how many entries are taken, and
// where reading stops.
type Change = (usize, u8, usize, Stop);

const CHANGES: [Change; 7] = [
    (0, 0x52, 0, Stop::Foreign),
    (3, 0x32, 0, Stop::Foreign),
    (4, 8, 0, Stop::Foreign),
    (19, 8, 0, Stop::Foreign),
    (24, 1, 0, Stop::Cut(28)),
    (33, 12, 1, Stop::Cut(34)),
    (38, 4, 2, Stop::Cut(39)),
];

// So many bytes of the file, from one number up to another; how many entries are taken of them, and
// where reading stops.
type Cut = (usize, usize, usize, Stop);

const CUTS: [Cut; 9] = [
    (0, 20, 0, Stop::Foreign),
    (20, 24, 0, Stop::Cut(20)),
    (24, 28, 0, Stop::Cut(24)),
    (28, 30, 0, Stop::Cut(28)),
    (30, 34, 1, Stop::Cut(30)),
    (34, 35, 1, Stop::Cut(34)),
    (35, 39, 2, Stop::Cut(35)),
    (39, 42, 2, Stop::Cut(39)),
    (42, 43, 3, Stop::End),
];

// Numbers of entries that the file states; how many are taken, and where reading stops.
type Count = (u32, usize, Stop);

const COUNTS: [Count; 7] = [
    (0, 0, Stop::Cut(24)),
    (1, 1, Stop::Cut(30)),
    (2, 2, Stop::Cut(35)),
    (4, 3, Stop::Cut(42)),
    (16_384, 3, Stop::Cut(42)),
    (16_385, 0, Stop::Cut(20)),
    (u32::MAX, 0, Stop::Cut(20)),
];

// Whether the entries are the first of the three.
fn are_first(entries: &[Vec<u8>]) -> bool {
    for (entry, wanted) in entries.iter().zip(&ENTRIES) {
        if !is_same(entry.as_slice(), wanted) {
            return false;
        }
    }
    entries.len() <= ENTRIES.len()
}

// What is read of a file with this number: so many of the three entries, and where reading stops.
fn reads(rt: &impl Abort, alloc: Global, number: u64, file: &[u8], len: usize, stop: Stop) {
    let (entries, found) = read_saved(alloc, &DOCUMENT, file).expect(rt, "memory");
    check_stop(rt, "stop", number, found, stop);
    check_at(rt, "number of entries", number, entries.len() == len);
    check_at(rt, "entries", number, are_first(entries.as_slice()));
}

fn three_entries(rt: &impl Abort, alloc: Global) -> Vec<Vec<u8>> {
    let mut entries = Vec::new(alloc);
    for entry in &ENTRIES {
        push_entry(rt, alloc, &mut entries, entry);
    }
    entries
}

fn push_entry(rt: &impl Abort, alloc: Global, entries: &mut Vec<Vec<u8>>, entry: &[u8]) {
    entries
        .push(bytes_of(rt, alloc, entry))
        .expect(rt, "memory");
}

fn is_saved(rt: &impl Abort, alloc: Global, entries: &[Vec<u8>], file: &[u8]) {
    let saved = history_file(rt, alloc, entries);
    check_same(rt, "saved", saved.as_slice(), file);
}

fn three_are_saved(rt: &impl Abort, alloc: Global, file: &[u8]) {
    let entries = three_entries(rt, alloc);
    is_saved(rt, alloc, entries.as_slice(), file);
}

fn is_cut(rt: &impl Abort, alloc: Global, file: &[u8], row: &Cut) {
    let (from, to, entries, stop) = *row;
    for len in from..to {
        let part = first_of(rt, file, len);
        reads(rt, alloc, len as u64, part, entries, stop);
    }
}

// It is cut at each byte, and then one follows.
fn has_another_length(rt: &impl Abort, alloc: Global, file: &mut Vec<u8>) {
    for row in &CUTS {
        is_cut(rt, alloc, file.as_slice(), row);
    }
    file.push(0).expect(rt, "memory");
    reads(rt, alloc, 43, file.as_slice(), 3, Stop::Cut(42));
}

// A byte is changed.
fn has_another_byte(rt: &impl Abort, alloc: Global, row: &Change) {
    let (place, byte, entries, stop) = *row;
    let mut file = spelled(rt, alloc, FILE);
    put(file.as_mut_slice(), place, byte);
    reads(rt, alloc, place as u64, file.as_slice(), entries, stop);
}

// Another number of entries is stated.
fn has_another_count(rt: &impl Abort, alloc: Global, row: &Count) {
    let (count, entries, stop) = *row;
    let mut file = spelled(rt, alloc, FILE);
    put_count(rt, file.as_mut_slice(), count);
    reads(rt, alloc, u64::from(count), file.as_slice(), entries, stop);
}

fn put_count(rt: &impl Abort, file: &mut [u8], count: u32) {
    assert!(rt; file.len() >= 24);
    put_at(file, 20, &count.to_be_bytes());
}

fn has_changed_fields(rt: &impl Abort, alloc: Global) {
    for row in &CHANGES {
        has_another_byte(rt, alloc, row);
    }
    for row in &COUNTS {
        has_another_count(rt, alloc, row);
    }
}

#[test]
fn a_file_is_saved_and_read(rt: HostRuntime) {
    has_changed_fields(&rt, rt.alloc());
    let mut file = spelled(&rt, rt.alloc(), FILE);
    three_are_saved(&rt, rt.alloc(), file.as_slice());
    has_another_length(&rt, rt.alloc(), &mut file);
}
