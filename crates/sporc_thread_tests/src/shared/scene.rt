//! Clients of the sample document.

ghost use Rattle.std.specs.Prelude.{◌≡◌};

use crate::objects::{calls, empty_history};
use lms_leaf::Leaves;
use lms_ots::OtsType;
use lms_sign::Signer;
use lms_tree::{LmsType, Tree};
use sporc_client::{Client, MAX_EVENTS};
use sporc_delta::Delta;
use sporc_epoch::{Pairs, Ring};
use sporc_head::MAX_ENTRIES;
use sporc_member::FIRST_DEVICE;
use sporc_memory::MemoryDisk;
use sporc_outside::LeafDisk;
use sporc_samples::{Cast, History, epoch_key};
use std::alloc::Global;
use std::process::Abort;

/// A leaf file each of whose eight blocks has this byte: 0 if it was not drawn, and 1 if it was.
/// The disk's calls with these numbers fail.
#[derive(Clone, Copy)]
pub(crate) struct LeafFile<'a> {
    pub(crate) byte: u8,
    pub(crate) failing: &'a [u64],
}

/// No leaf was drawn.
pub(crate) const BLANK: LeafFile<'static> = LeafFile {
    byte: 0,
    failing: &[],
};

// The disk that a leaf file is on.
fn disk(rt: &impl Abort, alloc: Global, file: LeafFile<'_>) -> MemoryDisk {
    let calls = calls(rt, alloc, file.failing);
    let bytes = [file.byte; 8].to_vec(alloc).expect(rt, "memory");
    MemoryDisk::new(alloc, bytes, calls).expect(rt, "memory")
}

// The leaves of a tree of height 5, on a disk.
fn leaves<D: LeafDisk + Drop>(rt: &impl Abort, alloc: Global, disk: D) -> Leaves<D>
    ensures { result.leaf_count ≡ 32 }
{
    match Leaves::open(alloc, disk, 5) {
        Ok(leaves) => leaves,
        Err((fault, _)) => panic!(rt; "leaves: {fault:?}"),
    }
}

// The tree of a member of the cast.
fn tree(rt: &impl Abort, alloc: Global, number: u8) -> Tree
    ensures { result.lms ≡ LmsType.H5 }
{
    let seed = [number; 32];
    let id = [number; 16];
    Tree::build(alloc, &seed, &id, LmsType::H5, OtsType::W4).expect(rt, "a tree")
}

// The signer of a member of the cast.
fn signer(rt: &impl Abort, alloc: Global, number: u8, file: LeafFile<'_>) -> Signer<MemoryDisk> {
    let tree = tree(rt, alloc, number);
    let leaves = leaves(rt, alloc, disk(rt, alloc, file));
    Signer::open(tree, leaves)
}

fn ring(rt: &impl Abort, alloc: Global) -> Ring {
    let mut ring = Ring::new(alloc);
    ring.put(0, epoch_key(0)).expect(rt, "memory");
    ring
}

/// The client of a member, with an empty history. It is in a box: a function that owns a client
/// itself is slow to prove.
pub(crate) fn opened(
    rt: &impl Abort,
    alloc: Global,
    cast: &Cast,
    member: u8,
    file: LeafFile<'_>,
) -> Box<Client<MemoryDisk>> {
    let ring = ring(rt, alloc);
    let genesis = cast.genesis(alloc).expect(rt, "a genesis");
    let signer = signer(rt, alloc, member, file);
    let pairs = Pairs::new(alloc);
    match Client::open(
        alloc,
        genesis,
        u16::from(member),
        FIRST_DEVICE,
        ring,
        pairs,
        signer,
    ) {
        Ok(client) => Box::new(alloc, client).expect(rt, "memory"),
        Err((fault, _)) => panic!(rt; "a client: {fault:?}"),
    }
}

/// What a client did before its session.
#[derive(Clone, Copy)]
pub(crate) enum Past {
    Nothing,
    /// It inserted a text that no entry was made of.
    Edit,
    /// It inserted a text, and accepted as many entries as a history has at most.
    AllEntries,
    /// Its journal has as many events as it has at most, the last one an edit.
    AllEvents,
}

// Inserts a character at the start of a text that was shown after so many events, and is empty.
fn insert<D: LeafDisk>(rt: &impl Abort, alloc: Global, client: &mut Client<D>, events: u64) {
    let delta = Delta::insert_at(alloc, 0, 0, "x").expect(rt, "memory");
    client.edit(0, events, &delta).expect(rt, "an event");
}

// Accepts one entry more of member 2.
fn accept_next<D: LeafDisk>(
    rt: &impl Abort,
    alloc: Global,
    cast: &Cast,
    sample: &mut History,
    client: &mut Client<D>,
    position: u32,
) {
    sample.edit(alloc, cast, 2, b"").expect(rt, "an entry");
    let entry = sample.entries().last().expect(rt, "an entry");
    client
        .accept(0, position, entry.as_slice())
        .expect(rt, "an event");
}

fn accept_all<D: LeafDisk>(rt: &impl Abort, alloc: Global, cast: &Cast, client: &mut Client<D>) {
    let mut sample = empty_history(rt, alloc, cast);
    for position in 1..=MAX_ENTRIES {
        accept_next(rt, alloc, cast, &mut sample, client, position);
    }
}

// Leaves room for one event in the journal. How many it has.
fn discard_often<D: LeafDisk>(rt: &impl Abort, client: &mut Client<D>) -> u64 {
    let mut events = 0;
    for _ in 1..MAX_EVENTS {
        events = client.discard(0).expect(rt, "an event");
    }
    events
}

// Does what a client did before its session.
fn live<D: LeafDisk>(
    rt: &impl Abort,
    alloc: Global,
    cast: &Cast,
    client: &mut Client<D>,
    past: Past,
) {
    match past {
        Past::Nothing => {}
        Past::Edit => insert(rt, alloc, client, 0),
        Past::AllEntries => {
            insert(rt, alloc, client, 0);
            accept_all(rt, alloc, cast, client);
        }
        Past::AllEvents => {
            let events = discard_often(rt, client);
            insert(rt, alloc, client, events);
        }
    }
}

/// The client of a member, after what it did before its session.
pub(crate) fn lived(
    rt: &impl Abort,
    alloc: Global,
    cast: &Cast,
    member: u8,
    file: LeafFile<'_>,
    past: Past,
) -> Box<Client<MemoryDisk>> {
    let mut client = opened(rt, alloc, cast, member, file);
    live(rt, alloc, cast, &mut client, past);
    client
}

/// A history of one entry, by which member 2 inserts a text.
pub(crate) fn one_entry(rt: &impl Abort, alloc: Global, cast: &Cast, text: &[u8]) -> Box<History> {
    let mut sample = empty_history(rt, alloc, cast);
    sample
        .insert(alloc, cast, 2, 0, text)
        .expect(rt, "an entry");
    sample
}
