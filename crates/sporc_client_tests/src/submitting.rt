//! Submissions that give no entry.

use crate::checks::check;
use crate::room::{Room, edit};
use crate::scene::{MemoryClient, RANDOM, insertion, no_calls, removal};
use sporc_client::{SubmitFault, Submitted};
use sporc_member::Change;
use sporc_memory::Calls;
use sporc_samples::{Cast, History, insertion as insertion_bytes};
use std::alloc::Global;
use std::process::Abort;

// Whether a submission is refused for this.
fn is_refused(client: &mut MemoryClient, fault: SubmitFault) -> bool {
    client.submit(1, &RANDOM).err() == Some(fault)
}

// A client commits its first pending item, as the entry at this position.
fn commit(rt: &impl Abort, client: &mut MemoryClient, position: u32) {
    match client.submit(1, &RANDOM).expect(rt, "an entry") {
        Submitted::Entry(entry) => client
            .accept(1, position, entry.as_slice())
            .expect(rt, "an event"),
        _ => panic!(rt; "no entry"),
    };
}

// A client inserts "a" in front of a text of so many characters.
fn insert(rt: &impl Abort, alloc: Global, client: &mut MemoryClient, len: u64) {
    edit(client, &insertion(rt, alloc, len, 0, "a")).expect(rt, "an event");
}

// ---- pairwise keys

// Member 1 shares no key with 4 and 5, so it can seal no key for them. The change stays pending.
fn change_is_not_sealed(rt: &impl Abort, client: &mut MemoryClient) {
    client
        .change(1, Change::Remove { member: 3 })
        .expect(rt, "an event");
    check(
        rt,
        "no pairwise key",
        is_refused(client, SubmitFault::NoPairKey(4)),
    );
    check(rt, "change pending", client.pending() == 1);
}

fn lacks_keys(rt: &impl Abort, alloc: Global, cast: &Cast) {
    let mut room = Room::alone(rt, alloc, cast, 1, 3, no_calls(alloc));
    change_is_not_sealed(rt, room.client(rt, 1));
}

// ---- leaves

// All 32 leaves sign, and then none is left.
fn leaves_end(rt: &impl Abort, alloc: Global, client: &mut MemoryClient) {
    for i in 0..32u32 {
        insert(rt, alloc, client, u64::from(i));
        commit(rt, client, i.wrapping_add(1));
    }
    insert(rt, alloc, client, 32);
    check(
        rt,
        "no leaf",
        is_refused(client, SubmitFault::Exhausted(32)),
    );
}

fn all_leaves(rt: &impl Abort, alloc: Global, cast: &Cast) {
    let mut room = Room::new(rt, alloc, cast, 2);
    leaves_end(rt, alloc, room.client(rt, 2));
}

// The opening of a leaf file calls the disk three times; the first draw then writes, which fails
// here, and would sync.
fn failing_calls(rt: &impl Abort, alloc: Global) -> Calls {
    let mut failing = Vec::new(alloc);
    failing.push(4).expect(rt, "memory");
    Calls::failing(failing)
}

// A disk that failed once draws no more. The edit stays pending.
fn draw_fails(rt: &impl Abort, alloc: Global, client: &mut MemoryClient) {
    insert(rt, alloc, client, 0);
    check(rt, "draw fails", is_refused(client, SubmitFault::LeafFault));
    check(
        rt,
        "draws no more",
        is_refused(client, SubmitFault::LeafFault),
    );
    check(rt, "edit pending", client.pending() == 1);
}

fn has_failing_disk(rt: &impl Abort, alloc: Global, cast: &Cast) {
    let mut room = Room::alone(rt, alloc, cast, 2, 5, failing_calls(rt, alloc));
    draw_fails(rt, alloc, room.client(rt, 1));
}

// A change wants a key for each member, and an entry a leaf, of which there are few and which a
// failing disk doesn't give.
#[test]
fn an_entry_wants_keys_and_a_leaf(rt: HostRuntime) {
    let cast = Cast::new(rt.alloc()).expect(&rt, "a cast");
    lacks_keys(&rt, rt.alloc(), &cast);
    all_leaves(&rt, rt.alloc(), &cast);
    has_failing_disk(&rt, rt.alloc(), &cast);
}

// ---- long edits

// Keeps one character and inserts another behind it, as an edit's bytes have it.
const SPLIT: [u8; 19] = [1, 0, 0, 0, 0, 0, 0, 0, 1, 2, 0, 0, 0, 0, 0, 0, 0, 1, b'x'];

fn push_keep(rt: &impl Abort, bytes: &mut Vec<u8>, count: u64) {
    bytes.push(1).expect(rt, "memory");
    bytes
        .extend_from_slice(&count.to_be_bytes())
        .expect(rt, "memory");
}

fn push_splits(rt: &impl Abort, bytes: &mut Vec<u8>, count: u32) {
    for _ in 0..count {
        bytes.extend_from_slice(&SPLIT).expect(rt, "memory");
    }
}

// Inserts 30,000 characters, one behind each of the first of 60,001.
fn first_splits(rt: &impl Abort, alloc: Global) -> Vec<u8> {
    let mut bytes = Vec::new(alloc);
    push_splits(rt, &mut bytes, 30_000);
    push_keep(rt, &mut bytes, 30_001);
    bytes
}

// And one behind each of the others but the last.
fn more_splits(rt: &impl Abort, alloc: Global) -> Vec<u8> {
    let mut bytes = Vec::new(alloc);
    push_keep(rt, &mut bytes, 60_001);
    bytes.extend_from_slice(&SPLIT[9..]).expect(rt, "memory");
    push_splits(rt, &mut bytes, 29_999);
    push_keep(rt, &mut bytes, 1);
    bytes
}

fn long_text(rt: &impl Abort, alloc: Global) -> Vec<u8> {
    let text = vec![in alloc; b'a'; 60_001].expect(rt, "memory");
    insertion_bytes(alloc, 0, text.as_slice()).expect(rt, "memory")
}

// Member 4 edits, and a client accepts that.
fn comes(
    rt: &impl Abort,
    alloc: Global,
    cast: &Cast,
    sample: &mut History,
    client: &mut MemoryClient,
    delta: Vec<u8>,
) {
    sample
        .edit(alloc, cast, 4, delta.as_slice())
        .expect(rt, "an entry");
    let entry = sample.entries().last().expect(rt, "an entry");
    client
        .accept(1, client.heads().len().wrapping_add(1), entry.as_slice())
        .expect(rt, "an event");
}

fn remove_all(rt: &impl Abort, alloc: Global, client: &mut MemoryClient) {
    let delta = removal(rt, alloc, 60_001, 0, 60_001);
    edit(client, &delta).expect(rt, "an event");
}

// All 60,001 characters are removed in one part of nine bytes. Split at 60,000 places, it has
// 120,001 parts.
fn head_grows(
    rt: &impl Abort,
    alloc: Global,
    cast: &Cast,
    sample: &mut History,
    client: &mut MemoryClient,
) {
    comes(rt, alloc, cast, sample, client, long_text(rt, alloc));
    remove_all(rt, alloc, client);
    comes(rt, alloc, cast, sample, client, first_splits(rt, alloc));
    comes(rt, alloc, cast, sample, client, more_splits(rt, alloc));
}

fn empty_history(rt: &impl Abort, alloc: Global, cast: &Cast) -> History {
    let genesis = cast.genesis(alloc).expect(rt, "a genesis");
    History::new(alloc, &genesis).expect(rt, "a history")
}

fn head_is_too_long(rt: &impl Abort, alloc: Global, cast: &Cast, client: &mut MemoryClient) {
    let mut sample = empty_history(rt, alloc, cast);
    head_grows(rt, alloc, cast, &mut sample, client);
    check(rt, "shown length", client.shown_len_at(4) == Some(60_000));
    check(
        rt,
        "head",
        is_refused(client, SubmitFault::HeadTooLong(1_080_009)),
    );
}

#[test]
fn an_edit_can_grow_too_long(rt: HostRuntime) {
    let cast = Cast::new(rt.alloc()).expect(&rt, "a cast");
    let mut room = Room::new(&rt, rt.alloc(), &cast, 2);
    head_is_too_long(&rt, rt.alloc(), &cast, room.client(&rt, 2));
}
