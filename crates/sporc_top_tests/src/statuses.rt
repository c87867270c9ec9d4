//! The statuses that sessions end with, over links whose bytes are listed.

use crate::checks::check_at;
use crate::document::with_entries;
use crate::nets::run_listed;
use crate::place::{NONE, Place, copied};
use sporc_head::MAX_ENTRIES;
use sporc_outside::NamedFile;
use std::alloc::Global;
use std::process::Abort;
use std::sync::Wait;
use std::thread::Threads;

// What member 2 runs, what the server sends it, and the status with the fault's line.
struct Row {
    words: &'static str,
    sent: &'static [u8],
    status: u8,
    line: &'static [u8],
}

// No entries come, four times.
const NOTHING: &[u8] = b"\0\0\0\x01\x04\0\0\0\x01\x04\0\0\0\x01\x04\0\0\0\x01\x04";

// Of a member without entries, whose key has no leaf left.
const ROWS: [Row; 7] = [
    // an entry of one byte comes
    Row {
        words: "client D 2 a",
        sent: b"\0\0\0\x0b\x03\0\0\0\x01\x01\0\0\0\x01\x05",
        status: 4,
        line: b"\nfault refused 1 malformed 0\n",
    },
    Row {
        words: "client D 2 a --rounds 0 insert",
        sent: b"",
        status: 5,
        line: b"\nfault unsettled 1 0\n",
    },
    // a part of an answer
    Row {
        words: "client D 2 a",
        sent: b"\0\0\0\x01",
        status: 6,
        line: b"\nfault link ended 4\n",
    },
    Row {
        words: "client D 2 a --rounds 1 insert",
        sent: NOTHING,
        status: 7,
        line: b"\nfault leaf 32\n",
    },
    // no message's number; a length above the limit
    Row {
        words: "client D 2 a",
        sent: b"\0\0\0\x01\x04\0\0\0\x01\x09",
        status: 9,
        line: b"\nfault message 9\n",
    },
    Row {
        words: "client D 2 a",
        sent: b"\x7f\0\0\x01",
        status: 9,
        line: b"\nfault message 0\n",
    },
    // an editor removes a member
    Row {
        words: "client D 2 a --rounds 2 drop",
        sent: NOTHING,
        status: 10,
        line: b"\nfault edit 1 1 no-right\n",
    },
];

// Of a member with as many entries as a history may have, whose key has leaves.
const FULL: Row = Row {
    words: "client D 2 a --rounds 2 insert",
    sent: NOTHING,
    status: 8,
    line: b"\nfault full history\n",
};

// Whether a session of a member with these files ends so.
fn ends_so<R: Threads + Wait + Sync + Abort>(
    rt: &R,
    alloc: Global,
    files: Vec<NamedFile>,
    row: &Row,
) -> bool {
    let mut place = Place::new(rt, alloc, files);
    let ((status, written), _) = run_listed(rt, alloc, &mut place, row.words, row.sent, NONE);
    drop(place);
    status == row.status && written.as_slice().ends_with(row.line)
}

// It does.
fn ends_as_row_says<R: Threads + Wait + Sync + Abort>(
    rt: &R,
    alloc: Global,
    files: Vec<NamedFile>,
    row: &Row,
) {
    let ends_so = ends_so(rt, alloc, files, row);
    check_at(rt, "status", u64::from(row.status), ends_so);
}

// The sessions of the rows, of a member with these files.
fn end_as_rows_say<R: Threads + Wait + Sync + Abort>(rt: &R, alloc: Global, files: &[NamedFile]) {
    for row in &ROWS {
        let files = copied(rt, alloc, files);
        ends_as_row_says(rt, alloc, files, row);
    }
}

#[test]
fn sessions_have_their_statuses(rt: HostRuntime) {
    let files = with_entries(&rt, rt.alloc(), &[1; 8], 0);
    end_as_rows_say(&rt, rt.alloc(), files.as_slice());
    drop(files);
    let full = with_entries(&rt, rt.alloc(), &[0; 8], MAX_ENTRIES);
    ends_as_row_says(&rt, rt.alloc(), full, &FULL);
}
