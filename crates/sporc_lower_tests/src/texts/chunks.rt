//! Texts in chunks.

use crate::checks::check;
use sporc_delta::Delta;
use sporc_text::Doc;
use std::alloc::Global;
use std::process::Abort;

// Edits at and around the borders of chunks, one after the other: from a place on, so many
// characters go, and so many copies of another come.
const EDITS: [(usize, usize, usize, char); 22] = [
    (0, 0, 1, 'a'),
    (1, 0, 510, 'é'),
    (511, 0, 1, '€'),
    (512, 0, 1, '😀'),
    (513, 0, 510, 'b'),
    (1_023, 0, 1, 'ß'),
    (1_024, 0, 1, 'c'),
    (1_025, 0, 1, 'd'),
    (1_024, 1, 0, ' '),
    (1_023, 1, 0, ' '),
    (1_024, 0, 5_000, '日'),
    (1_023, 0, 1, 'f'),
    (1_025, 0, 1, 'g'),
    (513, 1, 0, ' '),
    (512, 1, 0, ' '),
    (511, 1, 0, ' '),
    (1, 1, 0, ' '),
    (0, 1, 0, ' '),
    (500, 2_600, 0, ' '),
    (1_024, 1_025, 1_025, 'h'),
    (1, 3_000, 0, ' '),
    (0, 421, 0, ' '),
];

// How many characters the long text has.
const LONG: usize = 100_000;

// Applies a delta.
fn applies(rt: &impl Abort, doc: &mut Doc, delta: &Delta) {
    assert!(rt; delta.base_len() == doc.len());
    doc.apply(delta).expect(rt, "memory");
}

// Inserts copies of a character, in a document and in a plain list.
fn inserts(
    rt: &impl Abort,
    alloc: Global,
    doc: &mut Doc,
    plain: &mut Vec<char>,
    at: usize,
    count: usize,
    c: char,
) {
    let mut text = String::new(alloc);
    for _ in 0..count {
        assert!(rt; at <= plain.len());
        plain.insert(at, c).expect(rt, "memory");
        text.push(c).expect(rt, "memory");
    }
    let len = doc.len();
    assert!(rt; len <= 1_000_000 && at as u64 <= len && text.len() <= 100_000);
    let delta = Delta::insert_at(alloc, len, at as u64, text.as_str()).expect(rt, "memory");
    applies(rt, doc, &delta);
}

// Removes characters, from both.
fn removes(
    rt: &impl Abort,
    alloc: Global,
    doc: &mut Doc,
    plain: &mut Vec<char>,
    at: usize,
    count: usize,
) {
    for _ in 0..count {
        assert!(rt; at < plain.len());
        plain.remove(at);
    }
    let len = doc.len();
    assert!(rt; len <= 1_000_000 && at as u64 <= len && count as u64 <= len - at as u64);
    let delta = Delta::remove_at(alloc, len, at as u64, count as u64).expect(rt, "memory");
    applies(rt, doc, &delta);
}

// The document has the characters of the plain list.
fn is_plain(rt: &impl Abort, alloc: Global, doc: &Doc, plain: &[char], what: &str) {
    let mut expected = String::new(alloc);
    for c in plain {
        expected.push(*c).expect(rt, "memory");
    }
    let text = doc.text().expect(rt, "memory");
    check(rt, what, text.as_str() == expected.as_str());
    check(rt, what, doc.len() == plain.len() as u64);
}

fn edits_at_borders(rt: &impl Abort, alloc: Global, doc: &mut Doc, plain: &mut Vec<char>) {
    for (at, removed, added, c) in &EDITS {
        removes(rt, alloc, doc, plain, *at, *removed);
        inserts(rt, alloc, doc, plain, *at, *added, *c);
        is_plain(
            rt,
            alloc,
            doc,
            plain.as_slice(),
            "an edit at the border of a chunk",
        );
    }
}

#[test]
fn edits_by_chunks(rt: HostRuntime) {
    let alloc = rt.alloc();
    let mut doc = Doc::new(alloc);
    edits_at_borders(&rt, alloc, &mut doc, &mut Vec::new(alloc));
    check(
        &rt,
        "all is removed",
        doc.is_empty() && doc.chunk_count() == 0,
    );
}

fn next(seed: u64) -> u64 {
    seed.wrapping_mul(6_364_136_223_846_793_005).wrapping_add(1)
}

// A place in a long text.
fn place(seed: u64) -> usize {
    (seed >> 33) as usize % LONG
}

fn appends(rt: &impl Abort, alloc: Global, doc: &mut Doc, plain: &mut Vec<char>) {
    for i in 0..LONG {
        inserts(rt, alloc, doc, plain, i, 1, 'a');
    }
}

// Pairs of an insertion and a removal of as many characters, at random places.
fn edits_at_random(rt: &impl Abort, alloc: Global, doc: &mut Doc, plain: &mut Vec<char>) {
    let mut seed = 1;
    for i in 0..5_000 {
        seed = next(seed);
        inserts(rt, alloc, doc, plain, place(seed), i % 3 + 1, '€');
        seed = next(seed);
        removes(rt, alloc, doc, plain, place(seed), i % 3 + 1);
    }
}

fn has_few_chunks(rt: &impl Abort, doc: &Doc, what: &str) {
    check(rt, what, doc.len() == LONG as u64);
    let count = doc.chunk_count();
    check(rt, what, count >= 98 && count <= 391);
}

#[test]
fn a_long_text_has_few_chunks(rt: HostRuntime) {
    let alloc = rt.alloc();
    let mut doc = Doc::new(alloc);
    let mut plain = Vec::new(alloc);
    appends(&rt, alloc, &mut doc, &mut plain);
    has_few_chunks(&rt, &doc, "after appending");
    edits_at_random(&rt, alloc, &mut doc, &mut plain);
    has_few_chunks(&rt, &doc, "after random edits");
    is_plain(&rt, alloc, &doc, plain.as_slice(), "after random edits");
}
