//! What members read of a history.

use crate::checks::{check, check_at, is_refusal};
use crate::lines::refusals::{spoilt, tried};
use crate::lines::scene::{addition, change, founded, insert, opened, paired, take, unpaired};
use crate::samples::{empty_sample, short_sample};
use sporc_base::is_same;
use sporc_epoch::hints_from;
use sporc_head::Refusal;
use sporc_line::Line;
use sporc_member::{Change, Role};
use sporc_samples::{Cast, Draft, EDIT, History, Member, epoch_key};
use std::alloc::Global;
use std::process::Abort;

/// Whether a line has so many entries, this text, and this key of the last epoch.
pub(crate) fn reads(
    rt: &impl Abort,
    line: &Line,
    len: u32,
    text: &str,
    key: Option<[u8; 32]>,
) -> bool {
    let found = line.text().expect(rt, "memory");
    line.len() == len
        && found.as_str() == text
        && line.key().copied() == key
        && line.removed() == key.is_none()
}

// What a founder reads of the short history.
fn reads_short(rt: &impl Abort, alloc: Global, cast: &Cast, sample: &History, me: u16) {
    let mut line = founded(rt, alloc, cast, me);
    take(rt, &mut line, sample, None);
    let short = reads(rt, &line, 4, "abcd", Some(epoch_key(1)));
    check_at(rt, "read by", u64::from(me), short);
    check_at(
        rt,
        "hash by",
        u64::from(me),
        is_same(&line.hash(), &sample.hash()),
    );
}

// An admin, an editor and a reader read it alike.
fn all_read_short(rt: &impl Abort, alloc: Global, cast: &Cast, sample: &History) {
    for me in [1, 2, 3] {
        reads_short(rt, alloc, cast, sample, me);
    }
}

// Gives member 4 the short history, whose third entry removes it.
fn is_removed(rt: &impl Abort, line: &mut Line, sample: &History) {
    take(rt, line, sample, Some(Refusal::Removed));
    check(
        rt,
        "read by a removed member",
        reads(rt, line, 3, "abc", None),
    );
}

// And once more, from the beginning.
fn is_removed_again(rt: &impl Abort, alloc: Global, line: &Line, sample: &History) {
    let again = line.reopen().expect(rt, "memory");
    let mut again = Box::new(alloc, again).expect(rt, "memory");
    is_removed(rt, &mut again, sample);
}

// It refuses an edit that fails all later checks, too.
fn refuses_worse(rt: &impl Abort, alloc: Global, cast: &Cast, line: &mut Line, sample: &History) {
    let worse = spoilt(&Draft::new(sample.header(2, EDIT)), line.heads());
    let found = tried(rt, alloc, cast, line, &worse, 4, &[5]);
    check(rt, "removed", is_refusal(found, Refusal::Removed));
}

fn removed_twice(rt: &impl Abort, alloc: Global, cast: &Cast, sample: &History) {
    let mut line = unpaired(rt, alloc, cast, 4);
    is_removed(rt, &mut line, sample);
    refuses_worse(rt, alloc, cast, &mut line, sample);
    is_removed_again(rt, alloc, &line, sample);
}

// Member 4 accepts the change that removes it, has no key from then on, and accepts nothing more;
// its line can begin anew.
#[test]
fn members_read_a_history_alike_unless_removed(rt: HostRuntime) {
    let cast = Cast::new(rt.alloc()).expect(&rt, "a cast");
    let sample = short_sample(&rt, rt.alloc(), &cast);
    all_read_short(&rt, rt.alloc(), &cast, &sample);
    removed_twice(&rt, rt.alloc(), &cast, &sample);
}

const READER: Change = Change::SetRole {
    member: 5,
    role: Role::Reader,
};

const REMOVE: Change = Change::Remove { member: 4 };

// Three epochs: three changes, each with an edit before it, the last of which adds member 6.
fn grow_three_epochs(rt: &impl Abort, alloc: Global, cast: &Cast, sample: &mut History) {
    insert(rt, alloc, cast, sample, 2, 0, b"a");
    change(rt, alloc, cast, sample, READER, &[1, 2, 3, 4, 5]);
    insert(rt, alloc, cast, sample, 4, 1, b"b");
    change(rt, alloc, cast, sample, REMOVE, &[1, 2, 3, 5]);
    insert(rt, alloc, cast, sample, 2, 2, b"c");
    change(
        rt,
        alloc,
        cast,
        sample,
        addition(&Member::new(alloc, 6, Role::Editor).expect(rt, "memory")),
        &[1, 2, 3, 5, 6],
    );
}

// The empty line of joiner 6, with the hints that it finds in the history.
fn joined(rt: &impl Abort, alloc: Global, cast: &Cast, sample: &History) -> Box<Line> {
    let pairs = paired(rt, alloc, 6);
    let ring = hints_from(alloc, sample.entries(), 6, &pairs).expect(rt, "hints");
    opened(rt, alloc, cast, 6, ring, pairs)
}

fn reads_by_hints(rt: &impl Abort, alloc: Global, cast: &Cast, sample: &History) {
    let mut line = joined(rt, alloc, cast, sample);
    take(rt, &mut line, sample, None);
    check(
        rt,
        "read by hints",
        reads(rt, &line, 6, "abc", Some(epoch_key(3))),
    );
}

fn reads_without_hints(rt: &impl Abort, alloc: Global, cast: &Cast, sample: &History) {
    let mut line = founded(rt, alloc, cast, 6);
    take(rt, &mut line, sample, Some(Refusal::NoKey));
    check(
        rt,
        "read without hints",
        reads(rt, &line, 1, "a", Some(epoch_key(0))),
    );
}

fn joiner_reads(rt: &impl Abort, alloc: Global, cast: &Cast, sample: &mut History) {
    grow_three_epochs(rt, alloc, cast, sample);
    reads_by_hints(rt, alloc, cast, sample);
    reads_without_hints(rt, alloc, cast, sample);
}

// A joiner reads the epochs before it by hints, which it opens backwards from the change that adds
// it. Without the hint of epoch 1 it refuses the change that starts it.
#[test]
fn a_joiner_reads_by_hints(rt: HostRuntime) {
    let cast = Cast::new(rt.alloc()).expect(&rt, "a cast");
    let mut sample = empty_sample(&rt, rt.alloc(), &cast);
    joiner_reads(&rt, rt.alloc(), &cast, &mut sample);
}
