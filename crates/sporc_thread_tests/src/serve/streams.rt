//! What clients send.

use crate::objects::{empty_history, joined};
use sporc_samples::Cast;
use sporc_wire::write_submit;
use std::alloc::Global;
use std::process::Abort;

/// A Hello with the sample document, by member 1.
pub const HELLO: [u8; 23] = [
    0, 0, 0, 19, 1, 7, 7, 7, 7, 7, 7, 7, 7, 7, 7, 7, 7, 7, 7, 7, 7, 0, 1,
];

/// A Pull of all entries.
pub const PULL: [u8; 9] = [0, 0, 0, 5, 3, 0, 0, 0, 0];

/// The frame of a Submit.
pub fn submit(rt: &impl Abort, alloc: Global, entry: &[u8]) -> Vec<u8> {
    write_submit(alloc, entry).expect(rt, "memory")
}

/// A Hello, and then a Submit.
pub fn hello_and_submit(rt: &impl Abort, alloc: Global, entry: &[u8]) -> Vec<u8> {
    let submission = submit(rt, alloc, entry);
    joined(rt, alloc, &[&HELLO, submission.as_slice()])
}

/// A Hello, a Submit, and then a Pull.
pub fn hello_submit_and_pull(rt: &impl Abort, alloc: Global, entry: &[u8]) -> Vec<u8> {
    let submission = submit(rt, alloc, entry);
    joined(rt, alloc, &[&HELLO, submission.as_slice(), &PULL])
}

/// An author's first entry, which any history takes that has none of its.
pub fn first_entry(rt: &impl Abort, alloc: Global, cast: &Cast, author: u16) -> Vec<u8> {
    let mut sample = empty_history(rt, alloc, cast);
    sample.edit(alloc, cast, author, b"").expect(rt, "an entry");
    let first = sample.entries().first().expect(rt, "an entry");
    Vec::from_slice(alloc, first.as_slice()).expect(rt, "memory")
}
