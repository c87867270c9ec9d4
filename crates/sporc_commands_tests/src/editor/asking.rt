//! What lines of an editor ask for.

use crate::bytes::{append, bytes_of, first_of};
use crate::checks::check_at;
use sporc_base::is_same;
use sporc_editor::{Asked, MAX_LINE, read_asked};
use sporc_member::{Change, Role};
use sporc_script::{Insertion, Removal};
use std::alloc::Global;
use std::process::Abort;

// What a line asks for.
#[derive(Clone, Copy)]
enum Asks {
    Insert(u64, u64, &'static str),
    Remove(u64, u64, u64),
    Change(Change),
    Pull,
    Sync,
    Text,
    Save,
}

// Lines of the grammar.
const INSIDE: [(&[u8], Asks); 15] = [
    (b"insert 0 0 \"\"", Asks::Insert(0, 0, "")),
    (
        b"insert 18446744073709551615 18446744073709551615 \"a\"",
        Asks::Insert(u64::MAX, u64::MAX, "a"),
    ),
    (
        b"insert 7 3 \"a \\\\ \\\" \\n\"",
        Asks::Insert(7, 3, "a \\ \" \n"),
    ),
    (b"insert 1 2 \"\r\0\t#\"", Asks::Insert(1, 2, "\r\0\t#")),
    (
        b"insert 1 2 \"a\xc3\xa9\xe2\x82\xac\xf0\x9f\x98\x80\"",
        Asks::Insert(1, 2, "aé€😀"),
    ),
    (b"remove 0 3 2", Asks::Remove(0, 3, 2)),
    (
        b"remove 18446744073709551615 0 18446744073709551615",
        Asks::Remove(u64::MAX, 0, u64::MAX),
    ),
    (
        b"drop 65535",
        Asks::Change(Change::Remove { member: 65535 }),
    ),
    (
        b"role 2 admin",
        Asks::Change(Change::SetRole {
            member: 2,
            role: Role::Admin,
        }),
    ),
    (
        b"drop-device 2 0",
        Asks::Change(Change::DropDevice {
            member: 2,
            device: 0,
        }),
    ),
    (b"upgrade", Asks::Change(Change::Upgrade)),
    (b"pull", Asks::Pull),
    (b"sync", Asks::Sync),
    (b"text", Asks::Text),
    (b"save", Asks::Save),
];

// Lines outside the grammar. Those that are skipped are the caller's, and an edit as scripts have it
// names no line.
const OUTSIDE: [&[u8]; 41] = [
    b"",
    b"# pull",
    b" pull",
    b"pull ",
    b"pull\r",
    b"Pull",
    b"pull 1",
    b"syncs",
    b"text \"\"",
    b"save 1",
    b"insert 0 \"a\"",
    b"insert 0 0",
    b"insert  0 0 \"a\"",
    b"insert 0  0 \"a\"",
    b"insert 0 0 \"a\" ",
    b"insert 00 0 \"a\"",
    b"insert 0 01 \"a\"",
    b"insert +0 0 \"a\"",
    b"insert 0 -1 \"a\"",
    b"insert 18446744073709551616 0 \"a\"",
    b"insert 0 18446744073709551616 \"a\"",
    b"insert 0 0 a",
    b"insert 0 0 \"\"\"",
    b"insert 0 0 \"\\\"",
    b"insert 0 0 \"\\t\"",
    b"insert 0 0 \"\n\"",
    b"insert 0 0 \"\xff\"",
    b"insert 0 0 \"\xc0\x80\"",
    b"insert 0 0 \"\xed\xa0\x80\"",
    b"insert 0 0 \"\xf0\x9f\x98\"",
    b"remove 3 2",
    b"remove 0 3 2 1",
    b"remove 0 3 \"a\"",
    b"remove 0 3 18446744073709551616",
    b"drop 0",
    b"drop 65536",
    b"role 2 owner",
    b"drop-device 2 256",
    b"add 3 reader abab",
    b"device 2 1 abab",
    b"upgrade 2",
];

// Lines of which nothing before the end asks for anything.
const WHOLE: [&[u8]; 9] = [
    b"insert 12 10 \"a\\n\\\"\xf0\x9f\x98\x80 b\"",
    b"remove 12 10 3",
    b"drop 7",
    b"role 2 reader",
    b"drop-device 12 1",
    b"upgrade",
    b"pull",
    b"sync",
    b"text",
];

// Lines with the digits of a key behind them.
const KEYED: [(&[u8], Change); 2] = [
    (
        b"add 3 reader ",
        Change::Add {
            member: 3,
            role: Role::Reader,
            key: [0xab; 56],
        },
    ),
    (
        b"device 2 255 ",
        Change::AddDevice {
            member: 2,
            device: 255,
            key: [0xab; 56],
        },
    ),
];

fn inserts(seen: u64, insertion: &Insertion, asks: Asks) -> bool {
    match asks {
        Asks::Insert(line, at, text) => {
            seen == line
                && insertion.at == at
                && is_same(insertion.text.as_str().as_bytes(), text.as_bytes())
        }
        _ => false,
    }
}

fn removes(seen: u64, removal: &Removal, asks: Asks) -> bool {
    match asks {
        Asks::Remove(line, at, count) => {
            seen == line && removal.at == at && removal.count == count
        }
        _ => false,
    }
}

fn is_asked(asked: &Asked, asks: Asks) -> bool {
    match asked {
        Asked::Insert { seen, insertion } => inserts(*seen, insertion, asks),
        Asked::Remove { seen, removal } => removes(*seen, removal, asks),
        Asked::Change(change) => matches!(asks, Asks::Change(other) if other == *change),
        Asked::Pull => matches!(asks, Asks::Pull),
        Asked::Sync => matches!(asks, Asks::Sync),
        Asked::Text => matches!(asks, Asks::Text),
        Asked::Save => matches!(asks, Asks::Save),
    }
}

fn asks_for(rt: &impl Abort, alloc: Global, line: &[u8], asks: Asks) -> bool {
    match read_asked(alloc, line).expect(rt, "memory") {
        Some(asked) => is_asked(&asked, asks),
        None => false,
    }
}

fn asks_nothing(rt: &impl Abort, alloc: Global, line: &[u8]) -> bool {
    read_asked(alloc, line).expect(rt, "memory").is_none()
}

#[test]
fn lines_ask_for_what_they_spell(rt: HostRuntime) {
    let alloc = rt.alloc();
    for (i, row) in INSIDE.iter().enumerate() {
        check_at(&rt, "asks", i as u64, asks_for(&rt, alloc, row.0, row.1));
    }
}

#[test]
fn other_lines_ask_for_nothing(rt: HostRuntime) {
    let alloc = rt.alloc();
    for (i, line) in OUTSIDE.iter().enumerate() {
        check_at(
            &rt,
            "asks for nothing",
            i as u64,
            asks_nothing(&rt, alloc, line),
        );
    }
}

fn is_whole(rt: &impl Abort, alloc: Global, line: &[u8]) {
    for end in 0..line.len() {
        let cut = first_of(rt, line, end);
        check_at(
            rt,
            "a line cut at",
            end as u64,
            asks_nothing(rt, alloc, cut),
        );
    }
    check_at(
        rt,
        "a whole line of",
        line.len() as u64,
        !asks_nothing(rt, alloc, line),
    );
}

#[test]
fn a_line_that_is_cut_asks_for_nothing(rt: HostRuntime) {
    for line in &WHOLE {
        is_whole(&rt, rt.alloc(), line);
    }
}

// A line with the digits of a key, and with one byte more or less.
fn has_a_key(rt: &impl Abort, alloc: Global, row: &(&[u8], Change)) {
    let mut line = bytes_of(rt, alloc, row.0);
    for _ in 0..56 {
        append(rt, &mut line, b"ab");
    }
    let asks = asks_for(rt, alloc, line.as_slice(), Asks::Change(row.1));
    check_at(rt, "a key", line.len() as u64, asks);
    is_whole(rt, alloc, line.as_slice());
    append(rt, &mut line, b"ab");
    let nothing = asks_nothing(rt, alloc, line.as_slice());
    check_at(rt, "too long a key", line.len() as u64, nothing);
}

#[test]
fn keys_are_read(rt: HostRuntime) {
    for row in &KEYED {
        has_a_key(&rt, rt.alloc(), row);
    }
}

// How many characters a line inserts.
fn inserted_len(rt: &impl Abort, alloc: Global, line: &[u8]) -> u64 {
    match read_asked(alloc, line).expect(rt, "memory") {
        Some(Asked::Insert { insertion, .. }) => insertion.text.len(),
        _ => 0,
    }
}

// A paste of a mebibyte fits a line.
#[test]
fn a_paste_is_read(rt: HostRuntime) {
    let alloc = rt.alloc();
    let mut line = bytes_of(&rt, alloc, b"insert 0 0 \"");
    for _ in 0..65_536 {
        append(&rt, &mut line, b"sixteen letters.");
    }
    append(&rt, &mut line, b"\"");
    let len = line.len();
    let inserted = inserted_len(&rt, alloc, line.as_slice());
    check_at(
        &rt,
        "a paste",
        len as u64,
        len <= MAX_LINE && inserted == 1 << 20,
    );
}
