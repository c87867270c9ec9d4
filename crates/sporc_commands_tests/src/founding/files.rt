//! Two keys and a document, of words that are listed, and a key that is there already.

use super::room::{NONE, Room};
use crate::bytes::spelled;
use crate::checks::{check, check_answer, check_same};
use crate::memory::empty_sink;
use sporc_files::{Fault, File, Names};
use sporc_member::Device;
use sporc_outside::{FileBytes, NamedFile};
use std::alloc::Global;
use std::process::Abort;
use std::thread::Threads;

/// The key file of member 1.
pub const FIRST_KEY: &str =
    "53504b310001000000050000000305a7ca4e14a784c0e0daa5e6dd970959ea27ffea029dc2328007e05d3a1d\
        fd83f357b2404bcc4061c787f0d0a3ed91df";

/// The key file of member 2.
pub const SECOND_KEY: &str =
    "53504b3100020000000500000003333333333333333333333333333333334444444444444444444444444444\
        444444444444444444444444444444444444";

// The key file of member 1's device 7, of the same words as that of its first.
const FURTHER_KEY: &str =
    "53504b32000107000000050000000305a7ca4e14a784c0e0daa5e6dd970959ea27ffea029dc2328007e05d3a\
        1dfd83f357b2404bcc4061c787f0d0a3ed91df";

const FURTHER_FILES: [(&str, &str); 2] = [
    ("D.1.7.key", FURTHER_KEY),
    ("D.1.7.leaf", "0000000000000000"),
];

// What is printed of either.
const FIRST_LINE: &str =
    "key 000000050000000305a7ca4e14a784c0e0daa5e6dd9709592f29e7467c09c25915bbfd16beab83d48525fc049982054d4ab9a5e6f98e8a9c\n";

// The lines that are printed of the keys.
const LINES: &str =
    "key 000000050000000305a7ca4e14a784c0e0daa5e6dd9709592f29e7467c09c25915bbfd16beab83d48525fc049982054d4ab9a5e6f98e8a9c\nkey 000000050000000333333333333333333333333333333333f8ff71d00d692b6a3d3e893cea49118af2d0b0b7edd61a706bb46f0e643377fa\n";

// The files, in the order in which they are written.
const FILES: [(&str, &str); 8] = [
    ("D.1.key", FIRST_KEY),
    ("D.1.leaf", "0000000000000000"),
    ("D.2.key", SECOND_KEY),
    ("D.2.leaf", "0000000000000000"),
    (
        "D.genesis",
        "010101010101010101010101010101010117f212f8e9fbed8818e8505f3ed771e5e71e0961381553c68556a6\
            1963365d2c0002000103000000050000000305a7ca4e14a784c0e0daa5e6dd9709592f29e7467c09\
            c25915bbfd16beab83d48525fc049982054d4ab9a5e6f98e8a9c0002020000000500000003333333\
            33333333333333333333333333f8ff71d00d692b6a3d3e893cea49118af2d0b0b7edd61a706bb46f\
            0e643377fa",
    ),
    (
        "D.1.ring",
        "5350523100010102020202020202020202020202020202020202020202020202020202020202020003000103\
            03030303030303030303030303030303030303030303030303030303030303000204040404040404\
            04040404040404040404040404040404040404040404040404000305050505050505050505050505\
            05050505050505050505050505050505050505",
    ),
    (
        "D.2.ring",
        "5350523100020102020202020202020202020202020202020202020202020202020202020202020003000104\
            04040404040404040404040404040404040404040404040404040404040404000206060606060606\
            06060606060606060606060606060606060606060606060606000307070707070707070707070707\
            07070707070707070707070707070707070707",
    ),
    (
        "D.3.ring",
        "5350523100030000030001050505050505050505050505050505050505050505050505050505050505050500\
            02070707070707070707070707070707070707070707070707070707070707070700030808080808\
            080808080808080808080808080808080808080808080808080808",
    ),
];

// The names that are asked for, in this order: by two keys, and then by the document, which reads
// its founders' keys as the words name them.
const ASKED: [&str; 10] = [
    "D.1.key",
    "D.1.leaf",
    "D.2.key",
    "D.2.leaf",
    "D.2.key",
    "D.1.key",
    "D.genesis",
    "D.1.ring",
    "D.2.ring",
    "D.3.ring",
];

fn is_the_file(rt: &impl Abort, alloc: Global, file: &NamedFile, name: &str, bytes: &str) {
    let bytes = spelled(rt, alloc, bytes);
    check_same(rt, name, file.name.as_slice(), name.as_bytes());
    check_same(rt, name, file.bytes.as_slice(), bytes.as_slice());
}

// These are so many of the files.
fn are_the_files(rt: &impl Abort, alloc: Global, files: &[NamedFile], len: usize) {
    check(rt, "number of files", files.len() == len);
    for (file, (name, bytes)) in files.iter().zip(&FILES) {
        is_the_file(rt, alloc, file, name, bytes);
    }
}

fn are_the_names(rt: &impl Abort, asked: &[FileBytes]) {
    check(rt, "number of names", asked.len() == ASKED.len());
    for (name, expected) in asked.iter().zip(&ASKED) {
        check_same(rt, expected, name.as_slice(), expected.as_bytes());
    }
}

fn is_told(rt: &impl Abort, alloc: Global, fault: Fault, line: &[u8]) {
    let mut sink = empty_sink(rt, alloc);
    fault.tell(&Names::of_document("D"), &mut *sink);
    check_same(rt, "a fault's line", sink.as_slice(), line);
}

fn all_are_made<R: Abort + Threads + Sync>(rt: &R, alloc: Global) {
    let mut room = Room::new(rt, alloc, Vec::new(alloc), NONE);
    let found = room.make_all(rt, alloc);
    check_answer(rt, "all", found, Ok(()));
    check_same(rt, "lines of keys", room.sink.as_slice(), LINES.as_bytes());
    are_the_names(rt, room.folder.asked());
    are_the_files(rt, alloc, room.folder.files(), 8);
}

// It is asked for the key of member 1, and answers so.
fn key_is_made<R: Abort + Threads + Sync>(
    rt: &R,
    alloc: Global,
    room: &mut Room,
    answer: Result<(), Fault>,
) {
    let found = room.make_key(rt, alloc, Device::first(1));
    check_answer(rt, "key 1", found, answer);
}

fn key_is_made_once<R: Abort + Threads + Sync>(rt: &R, alloc: Global) {
    let mut room = Room::new(rt, alloc, Vec::new(alloc), NONE);
    key_is_made(rt, alloc, &mut room, Ok(()));
    let exists = Fault::Exists(File::Key(Device::first(1)));
    key_is_made(rt, alloc, &mut room, Err(exists));
    is_told(rt, alloc, exists, b"fault exists D.1.key\n");
    are_the_files(rt, alloc, room.folder.files(), 2);
}

// A further device has files of its own, of which a founding reads none: it looks for the key of
// member 1's first device.
fn key_of_a_further_device<R: Abort + Threads + Sync>(rt: &R, alloc: Global) {
    let mut room = Room::new(rt, alloc, Vec::new(alloc), NONE);
    let device = Device {
        member: 1,
        number: 7,
    };
    let made = room.make_key(rt, alloc, device);
    check_answer(rt, "key 1.7", made, Ok(()));
    check_same(rt, "line", room.sink.as_slice(), FIRST_LINE.as_bytes());
    are_of_device_7(rt, alloc, room.folder.files());
    let second = room.make_key(rt, alloc, Device::first(2));
    check_answer(rt, "key 2", second, Ok(()));
    let found = room.make_document(rt, alloc);
    let missing = Fault::Missing(File::Key(Device::first(1)));
    check_answer(rt, "no key of the first device", found, Err(missing));
}

fn are_of_device_7(rt: &impl Abort, alloc: Global, files: &[NamedFile]) {
    check(rt, "two files", files.len() == 2);
    for (file, (name, bytes)) in files.iter().zip(&FURTHER_FILES) {
        is_the_file(rt, alloc, file, name, bytes);
    }
}

// A key file is not overwritten.
#[test]
fn keys_and_a_document_are_made_once(rt: HostRuntime) {
    all_are_made(&rt, rt.alloc());
    key_is_made_once(&rt, rt.alloc());
    key_of_a_further_device(&rt, rt.alloc());
}
