//! What an editor is told.

use crate::checks::check_same;
use sporc_client::EditFault;
use sporc_delta::{Delta, Text, TextSlice};
use sporc_editor::{Authors, Cause, Said, push_said};
use sporc_member::{ChangeFault, Device};
use sporc_screen::{Numbers, ScreenFault, Written};
use std::alloc::Global;
use std::process::Abort;

// The devices of the authors of edits as they came, by member and number, and a line that names
// them.
const AUTHORS: [(&[(u16, u8)], &[u8]); 6] = [
    (&[], b"shown 7 2 - k1 i\"!\\n\"\n"),
    (&[(2, 0)], b"shown 7 2 2 k1 i\"!\\n\"\n"),
    (
        &[(3, 255), (2, 0), (3, 255)],
        b"shown 7 2 3.255,2 k1 i\"!\\n\"\n",
    ),
    (
        &[(2, 0), (3, 1), (4, 0), (65535, 0)],
        b"shown 7 2 2,3.1,4,65535 k1 i\"!\\n\"\n",
    ),
    (
        &[(2, 0), (2, 1), (3, 0), (4, 0), (5, 0)],
        b"shown 7 2 2,2.1,3,4,.. k1 i\"!\\n\"\n",
    ),
    (
        &[(9, 0), (8, 0), (7, 0), (6, 0), (5, 0), (4, 0), (9, 0)],
        b"shown 7 2 9,8,7,6,.. k1 i\"!\\n\"\n",
    ),
];

const CAUSES: [(Cause, &[u8]); 8] = [
    (Cause::Client(EditFault::Removed), b"refused 3 removed\n"),
    (Cause::Client(EditFault::NoRight), b"refused 3 no-right\n"),
    (
        Cause::Client(EditFault::TooLong(4_194_305)),
        b"refused 3 too-long\n",
    ),
    (
        Cause::Client(EditFault::PendingFull),
        b"refused 3 pending-full\n",
    ),
    (
        Cause::Client(EditFault::JournalFull),
        b"refused 3 journal-full\n",
    ),
    (Cause::Screen(ScreenFault::Seen), b"refused 3 seen\n"),
    (Cause::Screen(ScreenFault::Outside), b"refused 3 outside\n"),
    (Cause::Screen(ScreenFault::TooLong), b"refused 3 too-long\n"),
];

fn is_told(rt: &impl Abort, alloc: Global, said: &Said, line: &[u8]) {
    let mut out = String::new(alloc);
    push_said(&mut out, said).expect(rt, "memory");
    check_same(rt, "a line", out.as_str().as_bytes(), line);
}

fn delta(rt: &impl Abort, alloc: Global) -> Delta {
    let mut delta = Delta::new(alloc);
    delta.push_keep(1).expect(rt, "memory");
    delta
        .push_insert(&TextSlice::new("!\n"))
        .expect(rt, "memory");
    delta
}

fn authors_of(devices: &[(u16, u8)]) -> Authors {
    let mut authors = Authors::new();
    for (member, number) in devices {
        authors.add(Device {
            member: *member,
            number: *number,
        });
    }
    authors
}

fn shows(rt: &impl Abort, alloc: Global, devices: &[(u16, u8)], line: &[u8]) {
    let written = Written {
        numbers: Numbers { line: 7, own: 2 },
        delta: delta(rt, alloc),
    };
    let authors = authors_of(devices);
    is_told(rt, alloc, &Said::Shown { written, authors }, line);
}

#[test]
fn authors_are_named(rt: HostRuntime) {
    for (devices, line) in &AUTHORS {
        shows(&rt, rt.alloc(), devices, line);
    }
}

#[test]
fn refusals_are_named(rt: HostRuntime) {
    for (cause, line) in &CAUSES {
        let refused = Said::Refused {
            line: 3,
            cause: *cause,
        };
        is_told(&rt, rt.alloc(), &refused, line);
    }
}

#[test]
fn a_text_is_told(rt: HostRuntime) {
    let alloc = rt.alloc();
    let text = String::from_str(alloc, "a\\\"\n\r\0é😀").expect(&rt, "memory");
    let said = Said::Text {
        numbers: Numbers {
            line: u64::MAX,
            own: 0,
        },
        text: Text::from_string(text),
    };
    let line = "text 18446744073709551615 0 \"a\\\\\\\"\\n\r\0é😀\"\n";
    is_told(&rt, alloc, &said, line.as_bytes());
}

fn places_are_told(rt: &impl Abort, alloc: Global) {
    let none = Said::At {
        entries: 0,
        pending: 0,
    };
    is_told(rt, alloc, &none, b"at 0 pending 0\n");
    let most = Said::At {
        entries: 300,
        pending: u64::MAX,
    };
    is_told(rt, alloc, &most, b"at 300 pending 18446744073709551615\n");
}

#[test]
fn states_are_told(rt: HostRuntime) {
    let alloc = rt.alloc();
    places_are_told(&rt, alloc);
    is_told(
        &rt,
        alloc,
        &Said::Dropped(ChangeFault::SameRole),
        b"dropped same-role\n",
    );
    is_told(&rt, alloc, &Said::Away, b"away\n");
    is_told(&rt, alloc, &Said::Removed, b"removed\n");
    is_told(&rt, alloc, &Said::Saved { entries: 300 }, b"saved 300\n");
}
