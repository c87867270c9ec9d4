ghost use Rattle.std.specs.Prelude.{◌≡◌};
ghost use Rattle.lms_leaf.specs.LeafFile.{IsLeafHeight};

use crate::calls::{failing, has_calls};
use crate::checks::check;
use lms_leaf::{LeafFault, Leaves, blank};
use sporc_base::is_same;
use sporc_memory::MemoryDisk;
use sporc_outside::Counted;
use std::alloc::Global;
use std::process::Abort;

/// The leaves of a file of these bytes, of a tree of height 5. All calls of its disk succeed.
pub fn leaves_of(rt: &impl Abort, alloc: Global, bytes: &[u8]) -> Leaves<MemoryDisk>
    ensures { result.leaf_count ≡ 32 }
{
    let bytes = Vec::from_slice(alloc, bytes).expect(rt, "memory");
    let disk = MemoryDisk::new(alloc, bytes, failing(rt, alloc, &[])).expect(rt, "memory");
    Leaves::open(alloc, disk, 5)
        .map_err(|fault| fault.0)
        .expect(rt, "leaves")
}

fn is_blank(rt: &impl Abort, alloc: Global, height: u32, len: usize)
    requires { IsLeafHeight height }
{
    let file = blank(alloc, height).expect(rt, "memory");
    check(rt, "the length of a blank file", file.len() == len);
}

fn blank_files_are_zeros(rt: &impl Abort, alloc: Global) {
    let file = blank(alloc, 5).expect(rt, "memory");
    check(rt, "a blank file", is_same(&file, &[0; 8]));
    is_blank(rt, alloc, 10, 256);
    is_blank(rt, alloc, 15, 8192);
}

// The leaves of a file whose second block is not blank.
fn opened(rt: &impl Abort, alloc: Global) -> Box<Leaves<MemoryDisk>> {
    let leaves = leaves_of(rt, alloc, b"\0\x09\0\0\0\0\0\0");
    Box::new(alloc, leaves).expect(rt, "memory")
}

// Draws the leaves of the third block.
fn draws_a_block(rt: &impl Abort, leaves: &mut Leaves<MemoryDisk>) {
    check(rt, "the next leaf", leaves.next() == 8);
    for leaf in 8..12 {
        check(rt, "a leaf", leaves.draw() == Ok(leaf));
    }
}

// The calls of an opening and of a block that is taken: what an opening calls before it reads, and
// that a block of four leaves is written and synced once.
const CALLS: [(&str, bool); 5] = [
    ("sync", true),
    ("len", true),
    ("read", true),
    ("write", true),
    ("sync", true),
];

#[test]
fn a_file_is_blank_at_first_and_is_drawn_by_blocks(rt: HostRuntime) {
    blank_files_are_zeros(&rt, rt.alloc());
    let mut leaves = opened(&rt, rt.alloc());
    draws_a_block(&rt, &mut leaves);
    let disk = Box::into_inner(leaves).close();
    check(
        &rt,
        "the file",
        is_same(disk.as_slice(), b"\0\x09\x01\0\0\0\0\0"),
    );
    has_calls(&rt, disk.log(), &CALLS);
}

// ---- crashes

// A call of the disk that fails, and the leaves that a life on a blank file draws until it is
// stopped there, one bit each. The opening makes three calls, and each block of four leaves two.
const STOPS: [(u64, u32); 10] = [
    (1, 0),
    (2, 0),
    (3, 0),
    (4, 0),
    (5, 0),
    (6, 0xf),
    (7, 0xf),
    (8, 0xff),
    (9, 0xff),
    (10, 0xfff),
];

// Marks a leaf as drawn, which it was not before.
fn mark(rt: &impl Abort, drawn: &mut u32, leaf: u32) {
    let bit = 1u32.checked_shl(leaf).expect(rt, "a leaf");
    check(rt, "a leaf that was not drawn", *drawn & bit == 0);
    *drawn |= bit;
}

// Draws so many leaves, or as many as there are until a draw fails, and marks them.
fn draw(rt: &impl Abort, leaves: &mut Leaves<MemoryDisk>, most: u32, drawn: &mut u32) {
    for _ in 0..most {
        match leaves.draw() {
            Ok(leaf) => mark(rt, drawn, leaf),
            Err(_) => return,
        }
    }
}

// A life on a blank file: it is opened and draws twelve leaves, but is stopped at this call. The
// disk that it leaves, and the leaves that it drew.
fn stopped(rt: &impl Abort, alloc: Global, call: u64) -> (MemoryDisk, u32) {
    let file = blank(alloc, 5).expect(rt, "memory");
    let disk = MemoryDisk::new(alloc, file, failing(rt, alloc, &[call])).expect(rt, "memory");
    let mut drawn = 0;
    match Leaves::open(alloc, disk, 5) {
        Ok(mut leaves) => {
            draw(rt, &mut leaves, 12, &mut drawn);
            (leaves.close(), drawn)
        }
        Err((_, disk)) => (disk, drawn),
    }
}

// Draws to the end, and no leaf a second time.
fn draws_the_rest(rt: &impl Abort, leaves: &mut Leaves<MemoryDisk>, drawn: &mut u32) {
    draw(rt, leaves, 32, drawn);
    check(
        rt,
        "the end",
        leaves.draw() == Err(LeafFault::Exhausted(32)),
    );
    check(rt, "the last leaf", drawn.leading_zeros() == 0);
}

// A life on what a crash left, behind one that drew these.
fn goes_on(rt: &impl Abort, alloc: Global, image: &[u8], drawn: u32) {
    let mut leaves = Box::new(alloc, leaves_of(rt, alloc, image)).expect(rt, "memory");
    let mut drawn = drawn;
    draws_the_rest(rt, &mut leaves, &mut drawn);
}

// A life on each image of what is left if one is stopped at this call.
fn goes_on_after(rt: &impl Abort, alloc: Global, call: u64, wanted: u32) {
    let (disk, drawn) = stopped(rt, alloc, call);
    check(rt, "stopped", disk.faults() == u64::from(call < 10));
    let images = disk.images().expect(rt, "memory");
    drop(disk);
    check(rt, "the leaves before the crash", drawn == wanted);
    check(rt, "the images", images.len() == 4);
    for image in &images {
        goes_on(rt, alloc, image.as_slice(), drawn);
    }
}

#[test]
fn no_leaf_is_drawn_twice_whatever_a_crash_leaves(rt: HostRuntime) {
    for (call, drawn) in &STOPS {
        goes_on_after(&rt, rt.alloc(), *call, *drawn);
    }
}
