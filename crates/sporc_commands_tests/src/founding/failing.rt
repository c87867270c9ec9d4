//! A folder, a chance and a sink of which one call fails.

use super::files::{FIRST_KEY, SECOND_KEY};
use super::room::{Failing, Room};
use crate::bytes::spelled;
use crate::checks::check_answer;
use crate::memory::add_file;
use sporc_files::Fault;
use sporc_member::Device;
use sporc_outside::NamedFile;
use std::alloc::Global;
use std::process::Abort;
use std::thread::Threads;

// The files that `found` reads.
const KEY_FILES: [(&str, &str); 2] = [("D.1.key", FIRST_KEY), ("D.2.key", SECOND_KEY)];

fn key_files(rt: &impl Abort, alloc: Global) -> Vec<NamedFile> {
    let mut files = Vec::new(alloc);
    for (name, bytes) in &KEY_FILES {
        add_file(rt, alloc, &mut files, name, spelled(rt, alloc, bytes));
    }
    files
}

fn keygen_answers<R: Abort + Threads + Sync>(
    rt: &R,
    alloc: Global,
    failing: Failing,
    answer: Result<(), Fault>,
) {
    let mut room = Room::new(rt, alloc, Vec::new(alloc), failing);
    let found = room.make_key(rt, alloc, Device::first(1));
    check_answer(rt, "keygen", found, answer);
}

fn found_answers<R: Abort + Threads + Sync>(
    rt: &R,
    alloc: Global,
    failing: Failing,
    answer: Result<(), Fault>,
) {
    let mut room = Room::new(rt, alloc, key_files(rt, alloc), failing);
    let found = room.make_document(rt, alloc);
    check_answer(rt, "found", found, answer);
}

// It writes two files, takes two words, and writes its line in two pieces.
fn each_call_of_keygen_fails<R: Abort + Threads + Sync>(rt: &R, alloc: Global) {
    for call in 1..=2 {
        keygen_answers(rt, alloc, [call, 0, 0], Err(Fault::Outside));
        keygen_answers(rt, alloc, [0, call, 0], Err(Fault::Outside));
        keygen_answers(rt, alloc, [0, 0, call], Err(Fault::Outside));
    }
}

// It reads two files and writes four, and takes a word for the document, one for the key, and one
// for each of six pairs.
fn each_call_of_found_fails<R: Abort + Threads + Sync>(rt: &R, alloc: Global) {
    for call in 1..=6 {
        found_answers(rt, alloc, [call, 0, 0], Err(Fault::Outside));
    }
    for call in 1..=8 {
        found_answers(rt, alloc, [0, call, 0], Err(Fault::Outside));
    }
}

// The calls behind these are not made, and `found` writes no line.
fn no_further_call_is_made<R: Abort + Threads + Sync>(rt: &R, alloc: Global) {
    keygen_answers(rt, alloc, [3, 3, 3], Ok(()));
    found_answers(rt, alloc, [7, 9, 1], Ok(()));
}

#[test]
fn each_call_fails(rt: HostRuntime) {
    each_call_of_keygen_fails(&rt, rt.alloc());
    each_call_of_found_fails(&rt, rt.alloc());
    no_further_call_is_made(&rt, rt.alloc());
}
