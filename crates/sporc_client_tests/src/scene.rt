//! Clients of members of the sample document, and deltas for them.

use lms_leaf::{Leaves, blank};
use lms_ots::OtsType;
use lms_sign::Signer;
use lms_tree::{LmsType, Tree};
use sporc_client::Client;
use sporc_delta::Delta;
use sporc_epoch::{Pairs, Ring};
use sporc_line::Line;
use sporc_member::Device;
use sporc_memory::{Calls, MemoryDisk};
use sporc_samples::{Cast, epoch_key, pair_key};
use std::alloc::Global;
use std::process::Abort;

/// A client whose leaf file is in memory.
pub(crate) type MemoryClient = Client<MemoryDisk>;

/// The random bytes of each submission.
pub(crate) const RANDOM: [u8; 64] = [5; 64];

/// A ring with the key of epoch 0.
pub(crate) fn founder_ring(rt: &impl Abort, alloc: Global) -> Ring {
    let mut ring = Ring::new(alloc);
    ring.put(0, epoch_key(0)).expect(rt, "memory");
    ring
}

/// The keys that a member shares with the first members, up to this one.
pub(crate) fn paired(rt: &impl Abort, alloc: Global, me: u16, last: u16) -> Pairs {
    let mut pairs = Pairs::new(alloc);
    for i in 0..last {
        let other = i.wrapping_add(1);
        let inserted: Result<_, _> = pairs.insert(other, pair_key(me, other));
        inserted.expect(rt, "memory");
    }
    pairs
}

// The seed and the identifier of the key of a member's device.
fn seed_and_identifier(me: Device) -> ([u8; 32], [u8; 16]) {
    let [high, low] = me.member.to_be_bytes();
    let mut seed = [high ^ low; 32];
    seed[31] ^= me.number;
    let mut id = [low; 16];
    id[15] ^= me.number;
    (seed, id)
}

/// A signer with the key of a device of a member of the cast, on a disk some of whose calls fail.
pub(crate) fn signer(
    rt: &impl Abort,
    alloc: Global,
    me: Device,
    calls: Calls,
) -> Signer<MemoryDisk> {
    let (seed, id) = seed_and_identifier(me);
    let tree = Tree::build(alloc, &seed, &id, LmsType::H5, OtsType::W4).expect(rt, "memory");
    let file = blank(alloc, 5).expect(rt, "memory");
    let disk = MemoryDisk::new(alloc, file, calls).expect(rt, "memory");
    let leaves = Leaves::open(alloc, disk, 5).ok().expect(rt, "leaves");
    Signer::open(tree, leaves)
}

/// The client of a founder's device, of one who shares keys with the first members, just opened, on
/// a disk some of whose calls fail. It is in a box: a function that owns a client itself is slow to
/// prove.
pub(crate) fn opened(
    rt: &impl Abort,
    alloc: Global,
    cast: &Cast,
    me: Device,
    last: u16,
    calls: Calls,
) -> Box<MemoryClient> {
    let genesis = cast.genesis(alloc).expect(rt, "a genesis");
    let ring = founder_ring(rt, alloc);
    let pairs = paired(rt, alloc, me.member, last);
    let signer = signer(rt, alloc, me, calls);
    let client = Client::open(alloc, genesis, me.member, me.number, ring, pairs, signer)
        .ok()
        .expect(rt, "a client");
    Box::new(alloc, client).expect(rt, "memory")
}

/// The client that begins with a line and a signer.
pub(crate) fn resumed(
    rt: &impl Abort,
    alloc: Global,
    line: Box<Line>,
    signer: Signer<MemoryDisk>,
) -> Box<MemoryClient> {
    let client = Client::resume(alloc, Box::into_inner(line), signer)
        .ok()
        .expect(rt, "memory");
    Box::new(alloc, client).expect(rt, "memory")
}

/// Calls none of which fails.
pub(crate) fn no_calls(alloc: Global) -> Calls {
    Calls::failing(Vec::new(alloc))
}

/// The client of a founder's device, of one who shares a key with each, just opened.
pub(crate) fn joined(rt: &impl Abort, alloc: Global, cast: &Cast, me: Device) -> Box<MemoryClient> {
    opened(rt, alloc, cast, me, 5, no_calls(alloc))
}

/// The insertion of a text at a place of one of `len` characters.
pub(crate) fn insertion(rt: &impl Abort, alloc: Global, len: u64, at: u64, text: &str) -> Delta {
    if at > len || len > 1_000_000 || text.len() > 1_000_000 {
        panic!(rt; "outside");
    }
    Delta::insert_at(alloc, len, at, text).expect(rt, "memory")
}

/// The removal of so many characters from a place of a text of `len` characters on.
pub(crate) fn removal(rt: &impl Abort, alloc: Global, len: u64, at: u64, count: u64) -> Delta {
    if at > len || len > 1_000_000 || count > len - at {
        panic!(rt; "outside");
    }
    Delta::remove_at(alloc, len, at, count).expect(rt, "memory")
}
