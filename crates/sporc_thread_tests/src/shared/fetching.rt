//! Entries that are fetched from a server.

use crate::checks::check;
use crate::objects::{append, listed_link};
use sporc_base::is_same;
use sporc_session::fetch;
use sporc_wire::Entries;
use std::alloc::Global;
use std::process::Abort;

const DOCUMENT: [u8; 16] = [b'D'; 16];

// Two entries, then one, and then no more.
const SENT: &[u8] =
    b"\0\0\0\x11\x03\0\0\0\x01\x02\0\0\0\x01a\0\0\0\x02bc\0\0\0\x0b\x03\0\0\0\x03\x01\0\0\0\x01d\0\0\0\x01\x04";

// Hello, and pulls from 0, 2 and 3.
const WRITTEN: &[u8] =
    b"\0\0\0\x13\x01DDDDDDDDDDDDDDDD\0\x04\0\0\0\x05\x03\0\0\0\0\0\0\0\x05\x03\0\0\0\x02\0\0\0\x05\x03\0\0\0\x03";

// Entries one after the other.
fn in_a_row(rt: &impl Abort, alloc: Global, entries: &Entries) -> Vec<u8> {
    let mut bytes = Vec::new(alloc);
    for entry in entries.as_slice() {
        append(rt, &mut bytes, entry.as_slice());
        append(rt, &mut bytes, b";");
    }
    bytes
}

fn are_all(rt: &impl Abort, alloc: Global, entries: &Entries) {
    let bytes = in_a_row(rt, alloc, entries);
    check(rt, "how many entries", entries.len() == 3);
    check(rt, "the entries", is_same(bytes.as_slice(), b"a;bc;d;"));
}

fn all_entries_come(rt: &impl Abort, alloc: Global) {
    let mut link = listed_link(rt, alloc, SENT, 64, &[]);
    let entries = fetch(alloc, &mut link, &DOCUMENT, 4).expect(rt, "entries");
    are_all(rt, alloc, &entries);
    check(rt, "the messages", is_same(link.written(), WRITTEN));
}

#[test]
fn entries_are_fetched(rt: HostRuntime) {
    all_entries_come(&rt, rt.alloc());
}
