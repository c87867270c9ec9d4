//! Members whose saved history or leaf file is at fault: `client` tells it before it opens a link.

use crate::bytes::bytes_of;
use crate::checks::{check, check_answer};
use crate::document::with_entries;
use crate::place::{Answer, NONE, Place, calls_of, copied_without, file_in, named};
use sporc_memory::MemoryNet;
use sporc_outside::NamedFile;
use std::alloc::Global;
use std::process::Abort;
use std::sync::Wait;
use std::thread::Threads;

// What is wrong with the files of a member that has one entry.
#[derive(Clone, Copy)]
enum Wrong {
    /// The history lacks its last byte.
    Cut,
    /// The history is one of another document.
    Foreign,
    /// A bit of the entry's signature is changed.
    Refused,
    /// There is no leaf file.
    NoLeaf,
}

// What is wrong, the status, and how a session ends.
type Row = (Wrong, u8, &'static [u8]);

const ROWS: [Row; 4] = [
    (Wrong::Cut, 3, b"fault malformed D.2.history 28\n"),
    (Wrong::Foreign, 3, b"fault malformed D.2.history 0\n"),
    (Wrong::Refused, 4, b"fault refused 1 bad-signature\n"),
    (Wrong::NoLeaf, 3, b"fault missing D.2.leaf\n"),
];

// Changes a bit of the byte at a place, if there is one.
fn change(bytes: &mut [u8], place: usize) {
    if let Some(byte) = bytes.get_mut(place) {
        *byte ^= 1;
    }
}

// Changes a history.
fn spoil(history: &mut Vec<u8>, wrong: Wrong) {
    let last = history.len().saturating_sub(1);
    match wrong {
        Wrong::Cut => history.truncate(last),
        Wrong::Foreign => change(history.as_mut_slice(), 4),
        Wrong::Refused => change(history.as_mut_slice(), last),
        Wrong::NoLeaf => {}
    }
}

// The history among these files, changed.
fn spoilt(rt: &impl Abort, alloc: Global, files: &[NamedFile], wrong: Wrong) -> NamedFile {
    let history = file_in(files, "D.2.history").expect(rt, "a history");
    let mut history = bytes_of(rt, alloc, history);
    spoil(&mut history, wrong);
    named(rt, alloc, "D.2.history", history.as_slice())
}

// A copy of these files, with what is wrong.
fn changed(rt: &impl Abort, alloc: Global, files: &[NamedFile], wrong: Wrong) -> Vec<NamedFile> {
    if let Wrong::NoLeaf = wrong {
        return copied_without(rt, alloc, files, "D.2.leaf");
    }
    let mut rest = copied_without(rt, alloc, files, "D.2.history");
    rest.push(spoilt(rt, alloc, files, wrong))
        .expect(rt, "memory");
    rest
}

// What a session answers over these files and a net without links, and whether it asked for none.
fn answer<R: Threads + Wait + Sync + Abort>(
    rt: &R,
    alloc: Global,
    files: Vec<NamedFile>,
) -> (Answer, bool) {
    let mut place = Place::new(rt, alloc, files);
    let mut net = MemoryNet::new(alloc, Vec::new(alloc), calls_of(rt, alloc, NONE.net));
    let answer = place.run(rt, alloc, &mut net, "client D 2 a");
    let is_quiet = net.asked().is_empty();
    drop(net);
    drop(place);
    (answer, is_quiet)
}

// A session over files that are wrong in this way ends so.
fn is_told<R: Threads + Wait + Sync + Abort>(
    rt: &R,
    alloc: Global,
    files: &[NamedFile],
    row: &Row,
) {
    let (wrong, status, line) = *row;
    let files = changed(rt, alloc, files, wrong);
    let ((got, written), is_quiet) = answer(rt, alloc, files);
    check_answer(rt, "wrong files", (got, written.as_slice()), status, line);
    check(rt, "no link", is_quiet);
}

#[test]
fn wrong_files_of_a_member_are_told_before_a_link_is_opened(rt: HostRuntime) {
    let files = with_entries(&rt, rt.alloc(), &[1, 0, 0, 0, 0, 0, 0, 0], 1);
    for row in &ROWS {
        is_told(&rt, rt.alloc(), files.as_slice(), row);
    }
}
