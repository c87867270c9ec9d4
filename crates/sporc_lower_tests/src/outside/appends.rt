use crate::calls::failing;
use crate::checks::check;
use sporc_base::is_same;
use sporc_memory::{MemoryAppendFile, MemoryFolder};
use sporc_outside::{AppendFile, Counted, Folder};
use std::alloc::Global;
use std::process::Abort;

// A folder without files. Of the next file that it hands out to be appended to, the third call
// fails.
fn folder(rt: &impl Abort, alloc: Global) -> MemoryFolder {
    let mut folder = MemoryFolder::new(alloc, Vec::new(alloc), failing(rt, alloc, &[]));
    folder.fail_append_calls([3].to_vec(alloc).expect(rt, "memory"));
    folder
}

// An append that succeeds or fails.
fn appends(rt: &impl Abort, file: &mut MemoryAppendFile, bytes: &[u8], done: bool) {
    check(rt, "an append", file.append(bytes).is_ok() == done);
}

fn syncs(rt: &impl Abort, file: &mut MemoryAppendFile) {
    check(rt, "a sync", file.sync().is_ok());
}

// Takes away all but the first four bytes.
fn cuts(rt: &impl Abort, file: &mut MemoryAppendFile) {
    assert!(rt; file.as_slice().len() == 6);
    check(rt, "a cut", file.cut(4).is_ok());
}

fn are_images(rt: &impl Abort, found: &[Vec<u8>], images: &[&[u8]]) {
    check(rt, "how many images", found.len() == images.len());
    for (image, expected) in found.iter().zip(images) {
        check(rt, "an image", is_same(image, expected));
    }
}

// What some of the images after so many of its calls are.
fn leaves(rt: &impl Abort, file: &MemoryAppendFile, calls: usize, images: &[&[u8]]) {
    assert!(rt; calls <= file.log().len());
    let found = file.images(calls).expect(rt, "memory");
    are_images(rt, found.as_slice(), images);
}

fn reads(rt: &impl Abort, alloc: Global, folder: &mut MemoryFolder, bytes: &[u8]) {
    let found = folder.read_file(alloc, "a").expect(rt, "a file");
    check(rt, "what is read", is_same(&found, bytes));
}

fn does_its_calls(rt: &impl Abort, file: &mut MemoryAppendFile) {
    appends(rt, file, b"one", true);
    syncs(rt, file);
    appends(rt, file, b"two", false);
    appends(rt, file, b"six", true);
    cuts(rt, file);
    syncs(rt, file);
    check(rt, "the faults", file.faults() == 1);
}

// Some of the images after so many of its calls.
const IMAGES: [(usize, &[&[u8]]); 5] = [
    (0, &[b""]),
    (1, &[b"", b"o", b"one", b"one"]),
    (2, &[b"one"]),
    (3, &[b"one", b"onet", b"onetwo", b"one"]),
    (6, &[b"ones"]),
];

fn leaves_its_images(rt: &impl Abort, file: &MemoryAppendFile) {
    for (calls, images) in &IMAGES {
        leaves(rt, file, *calls, images);
    }
}

#[test]
fn a_file_in_memory_is_appended_to(rt: HostRuntime) {
    let mut folder = folder(&rt, rt.alloc());
    let mut file = folder.append_to("a").expect(&rt, "a file");
    does_its_calls(&rt, &mut file);
    leaves_its_images(&rt, &file);
    folder.take_file("a", file);
    check(&rt, "the folder's faults", folder.faults() == 1);
    reads(&rt, rt.alloc(), &mut folder, b"ones");
}
