//! Lines of the sample document, and what they are given.

ghost use Rattle.std.specs.Prelude.{◌≡◌, []};

use crate::checks::check;
use sporc_epoch::{Pairs, Ring};
use sporc_head::Refusal;
use sporc_line::Line;
use sporc_member::{Change, FIRST_DEVICE};
use sporc_samples::{Cast, History, Member, epoch_key, pair_key};
use std::alloc::Global;
use std::process::Abort;

/// A ring with the key of epoch 0.
pub(crate) fn founder_ring(rt: &impl Abort, alloc: Global) -> Ring {
    let mut ring = Ring::new(alloc);
    ring.put(0, epoch_key(0)).expect(rt, "memory");
    ring
}

/// The key that a member shares with the admin, 1.
pub(crate) fn paired(rt: &impl Abort, alloc: Global, me: u16) -> Pairs {
    let mut pairs = Pairs::new(alloc);
    let inserted: Result<_, _> = pairs.insert(1, pair_key(me, 1));
    inserted.expect(rt, "memory");
    pairs
}

/// The empty line of a member, in a box: a function that owns a line itself is slow to prove.
pub(crate) fn opened(
    rt: &impl Abort,
    alloc: Global,
    cast: &Cast,
    me: u16,
    ring: Ring,
    pairs: Pairs,
) -> Box<Line>
    ensures { result.value.entries ≡ [] }
{
    let genesis = cast.genesis(alloc).expect(rt, "a genesis");
    let line = Line::open(alloc, genesis, me, FIRST_DEVICE, ring, pairs).expect(rt, "a line");
    Box::new(alloc, line).expect(rt, "memory")
}

/// The empty line of a founder who shares a key with the admin.
pub(crate) fn founded(rt: &impl Abort, alloc: Global, cast: &Cast, me: u16) -> Box<Line>
    ensures { result.value.entries ≡ [] }
{
    let ring = founder_ring(rt, alloc);
    let pairs = paired(rt, alloc, me);
    opened(rt, alloc, cast, me, ring, pairs)
}

/// The empty line of a founder who shares no key.
pub(crate) fn unpaired(rt: &impl Abort, alloc: Global, cast: &Cast, me: u16) -> Box<Line> {
    let ring = founder_ring(rt, alloc);
    opened(rt, alloc, cast, me, ring, Pairs::new(alloc))
}

/// Appends an edit that inserts a text behind so many characters.
pub(crate) fn insert(
    rt: &impl Abort,
    alloc: Global,
    cast: &Cast,
    sample: &mut History,
    author: u16,
    keep: u64,
    text: &[u8],
) {
    sample
        .insert(alloc, cast, author, keep, text)
        .expect(rt, "an entry");
}

/// Appends a change by the admin, with the next key sealed for these members.
pub(crate) fn change(
    rt: &impl Abort,
    alloc: Global,
    cast: &Cast,
    sample: &mut History,
    change: Change,
    members: &[u16],
) {
    sample
        .change(alloc, cast, 1, change, members)
        .expect(rt, "an entry");
}

/// The change that adds a member.
pub(crate) fn addition(joiner: &Member) -> Change {
    let founder = joiner.founder();
    let key = founder.key;
    Change::Add {
        member: founder.member,
        role: founder.role,
        key,
    }
}

/// Gives a line an entry: why it refuses it, if it does.
pub(crate) fn given(line: &mut Line, position: u32, entry: &[u8]) -> Option<Refusal> {
    line.accept(position, entry).err()
}

/// Gives a line entries, each at the next position, up to one that it refuses.
pub(crate) fn all_given(line: &mut Line, entries: &[Vec<u8>]) -> Option<Refusal> {
    for entry in entries {
        let position = line.len().wrapping_add(1);
        if let Some(refusal) = given(line, position, entry.as_slice()) {
            return Some(refusal);
        }
    }
    None
}

/// Gives a line a history, which ends with this refusal, if any.
pub(crate) fn take(rt: &impl Abort, line: &mut Line, sample: &History, refusal: Option<Refusal>) {
    let found = all_given(line, sample.entries());
    check(rt, "how a history ends", found == refusal);
}
