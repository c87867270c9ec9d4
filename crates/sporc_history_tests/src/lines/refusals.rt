//! Each check of an entry refuses one that fails it alone, and one that fails all that come after
//! it, too.

use crate::checks::{check, check_at, is_refusal};
use crate::lines::scene::{change, founded, given, insert, take, unpaired};
use crate::samples::{empty_sample, short_sample, upgraded_sample};
use sporc_entry::Header;
use sporc_hash::Digest32;
use sporc_head::{Heads, Refusal};
use sporc_line::Line;
use sporc_member::{Change, ChangeFault, Role};
use sporc_samples::{CHANGE, Cast, Draft, EDIT, History, change_body, edit_body, insertion};
use std::alloc::Global;
use std::process::Abort;

// No value of the chain.
const NOWHERE: Digest32 = [0; 32];

// No number of an entry.
const NO_NUMBER: u32 = 99;

// Makes a header state this base, and its hash unless the hash is to be wrong.
fn state_base(header: &mut Header, hashes: &[Digest32], base: u32) {
    header.base = base;
    if header.base_hash != NOWHERE {
        header.base_hash = hashes.get(base as usize).copied().unwrap_or(NOWHERE);
    }
}

// Makes a header name a device that its author does not have, with the number of its first entry
// unless the number is to be wrong.
fn name_a_device(header: &mut Header) {
    header.device = 9;
    if header.number != NO_NUMBER {
        header.number = 1;
    }
}

// Makes an edit fail the check of this refusal, at the short history or the upgraded one.
fn spoil(draft: &mut Draft, heads: &Heads, refusal: Refusal) {
    let header = &mut draft.header;
    match refusal {
        Refusal::WrongDocument => header.document = [8; 16],
        // An entry of version 1 is by device 0.
        Refusal::WrongVersion if header.version == 2 => (header.version, header.device) = (1, 0),
        Refusal::WrongVersion => header.version = 2,
        Refusal::UnknownAuthor => header.author = 4,
        Refusal::UnknownDevice if header.version == 2 => name_a_device(header),
        Refusal::BaseAhead => header.base = u32::MAX,
        Refusal::BeforeBarrier => {
            state_base(header, heads.hashes(), heads.barrier().wrapping_sub(1))
        }
        Refusal::WrongHistory => header.base_hash = NOWHERE,
        Refusal::WrongNumber => header.number = NO_NUMBER,
        Refusal::BehindOwn => {
            (header.author, header.number) = (5, heads.count_of(5, 0).wrapping_add(1));
            state_base(header, heads.hashes(), heads.barrier());
        }
        Refusal::WrongEpoch => header.epoch = 9,
        Refusal::NoRight => (header.author, header.number) = (3, 1),
        Refusal::LeafMismatch => draft.signing_leaf = 9,
        Refusal::BadSignature => draft.turned = true,
        _ => {}
    }
}

// Where an entry is given to a line.
fn place(line: &Line, refusal: Refusal) -> u32 {
    match refusal {
        Refusal::WrongPosition => 1,
        _ => line.len().wrapping_add(1),
    }
}

/// Signs an entry with this body and gives it to a line: why the line refuses it, if it does.
pub(crate) fn tried(
    rt: &impl Abort,
    alloc: Global,
    cast: &Cast,
    line: &mut Line,
    draft: &Draft,
    position: u32,
    body: &[u8],
) -> Option<Refusal> {
    let signer = cast.member(draft.header.author).expect(rt, "a member");
    let bytes = draft.signed(alloc, signer, body).expect(rt, "an entry");
    given(line, position, bytes.as_slice())
}

// The refusals of an edit's header, by the last check and those before it. The eleventh is that of
// its author.
const REFUSALS: [Refusal; 14] = [
    Refusal::BadSignature,
    Refusal::LeafMismatch,
    Refusal::NoRight,
    Refusal::WrongEpoch,
    Refusal::BehindOwn,
    Refusal::WrongNumber,
    Refusal::WrongHistory,
    Refusal::BeforeBarrier,
    Refusal::BaseAhead,
    Refusal::UnknownDevice,
    Refusal::UnknownAuthor,
    Refusal::WrongVersion,
    Refusal::WrongPosition,
    Refusal::WrongDocument,
];

/// An edit that fails all checks from that of its author on.
pub(crate) fn spoilt(good: &Draft, heads: &Heads) -> Draft {
    let mut draft = *good;
    for refusal in REFUSALS.iter().take(11) {
        spoil(&mut draft, heads, *refusal);
    }
    draft
}

// An edit that fails no check: what is to be signed, and its body.
#[derive(Clone, Copy)]
struct GoodEdit<'a> {
    draft: &'a Draft,
    body: &'a [u8],
}

// Whether a line refuses an edit that fails a check of its header alone, and one that fails all
// later checks, too. A body of one byte is no delta.
fn refuses(
    rt: &impl Abort,
    alloc: Global,
    cast: &Cast,
    line: &mut Line,
    good: GoodEdit<'_>,
    worse: &mut Draft,
    refusal: Refusal,
) -> bool {
    let mut alone = *good.draft;
    spoil(&mut alone, line.heads(), refusal);
    spoil(worse, line.heads(), refusal);
    let position = place(line, refusal);
    let found = tried(rt, alloc, cast, line, &alone, position, good.body);
    let found_worse = tried(rt, alloc, cast, line, worse, position, &[5]);
    is_refusal(found, refusal) && is_refusal(found_worse, refusal)
}

// The body of an edit with this header: it keeps so many characters and inserts one.
fn body_keeping(rt: &impl Abort, alloc: Global, header: &Header, keep: u64) -> Vec<u8> {
    let delta = insertion(alloc, keep, b"e").expect(rt, "memory");
    let device = header.author_device();
    edit_body(alloc, device, header.leaf, header.epoch, delta.as_slice()).expect(rt, "memory")
}

// Edits whose body fails, and one that fails no check.
fn bodies_refused(
    rt: &impl Abort,
    alloc: Global,
    cast: &Cast,
    line: &mut Line,
    good: GoodEdit<'_>,
) {
    let draft = good.draft;
    let next = line.len().wrapping_add(1);
    let long = body_keeping(rt, alloc, &draft.header, 99);
    let found = tried(rt, alloc, cast, line, draft, next, long.as_slice());
    check(rt, "long edit", is_refusal(found, Refusal::WrongLength));
    let found = tried(rt, alloc, cast, line, draft, next, &[5]);
    check(rt, "no delta", is_refusal(found, Refusal::BadPayload));
    check(
        rt,
        "no bytes",
        is_refusal(given(line, 1, b""), Refusal::Malformed(0)),
    );
    check(
        rt,
        "good edit",
        tried(rt, alloc, cast, line, draft, next, good.body).is_none(),
    );
}

// Edits whose header fails. Before the Upgrade no entry names a device.
fn headers_refused(
    rt: &impl Abort,
    alloc: Global,
    cast: &Cast,
    line: &mut Line,
    good: GoodEdit<'_>,
) {
    let mut worse = *good.draft;
    for refusal in &REFUSALS {
        if *refusal != Refusal::UnknownDevice || good.draft.header.version == 2 {
            let refused = refuses(rt, alloc, cast, line, good, &mut worse, *refusal);
            check_at(rt, "refusal", u64::from(refusal.code()), refused);
        }
    }
}

// Edits of all these kinds at the line of a member who accepted a history, whose text has so many
// characters.
fn edits_refused(
    rt: &impl Abort,
    alloc: Global,
    cast: &Cast,
    line: &mut Line,
    draft: &Draft,
    len: u64,
) {
    let body = body_keeping(rt, alloc, &draft.header, len);
    let good = GoodEdit {
        draft,
        body: body.as_slice(),
    };
    headers_refused(rt, alloc, cast, line, good);
    bodies_refused(rt, alloc, cast, line, good);
}

// Edits of all these kinds at the line of editor 2.
fn edits_refused_by(rt: &impl Abort, alloc: Global, cast: &Cast, sample: &History, len: u64) {
    let mut line = founded(rt, alloc, cast, 2);
    take(rt, &mut line, sample, None);
    let good = Draft::new(sample.header(2, EDIT));
    edits_refused(rt, alloc, cast, &mut line, &good, len);
}

const EDITOR: Change = Change::SetRole {
    member: 3,
    role: Role::Editor,
};

const STRANGER: Change = Change::Remove { member: 6 };

const ALL: &[u16] = &[1, 2, 3, 4, 5];

const FEW: &[u16] = &[1, 2, 3, 4];

const TWICE: &[u16] = &[1, 2, 2, 3, 4, 5];

const NOT_MEMBER: Refusal = Refusal::BadChange(ChangeFault::NotMember);

// A change, how far the epoch that its keys end is ahead, the members that its wraps name, and why
// it is refused.
type Row = (Change, u32, &'static [u16], Refusal);

// Changes that fail one check, at the line of a member who shares a key with their author.
const ALONE: [Row; 4] = [
    (EDITOR, 1, ALL, Refusal::WrongKey),
    (EDITOR, 0, FEW, Refusal::WrongWraps),
    (EDITOR, 0, TWICE, Refusal::WrongWraps),
    (STRANGER, 0, ALL, NOT_MEMBER),
];

// Changes that fail all checks from one on, at the line of a member who shares none. The first
// fails for want of that key alone.
const WORSE: [Row; 4] = [
    (EDITOR, 0, ALL, Refusal::NoKey),
    (EDITOR, 1, ALL, Refusal::NoKey),
    (EDITOR, 1, FEW, Refusal::WrongWraps),
    (STRANGER, 1, FEW, NOT_MEMBER),
];

// Gives a line a change.
fn tries_change(
    rt: &impl Abort,
    alloc: Global,
    cast: &Cast,
    line: &mut Line,
    draft: &Draft,
    row: &Row,
) {
    let (change, ahead, wraps, refusal) = *row;
    let header = &draft.header;
    let epoch = header.epoch.wrapping_add(ahead);
    let body = change_body(
        alloc,
        change,
        header.author_device(),
        header.leaf,
        epoch,
        wraps,
    )
    .expect(rt, "a body");
    let next = line.len().wrapping_add(1);
    let found = tried(rt, alloc, cast, line, draft, next, body.as_slice());
    check_at(
        rt,
        "change",
        u64::from(refusal.code()),
        is_refusal(found, refusal),
    );
}

// Gives a line a history, and then changes by this author.
fn changes_refused(
    rt: &impl Abort,
    alloc: Global,
    cast: &Cast,
    sample: &History,
    line: &mut Line,
    author: u16,
    rows: &[Row],
) {
    take(rt, line, sample, None);
    let draft = Draft::new(sample.header(author, CHANGE));
    for row in rows {
        tries_change(rt, alloc, cast, line, &draft, row);
    }
}

// At the line of editor 2.
fn refused_alone(rt: &impl Abort, alloc: Global, cast: &Cast, sample: &History) {
    let mut line = founded(rt, alloc, cast, 2);
    changes_refused(rt, alloc, cast, sample, &mut line, 1, &ALONE);
}

// At that of editor 5, who shares no key.
fn refused_worse(rt: &impl Abort, alloc: Global, cast: &Cast, sample: &History) {
    let mut line = unpaired(rt, alloc, cast, 5);
    changes_refused(rt, alloc, cast, sample, &mut line, 1, &WORSE);
}

// Both, after one edit.
fn refused_at_both(rt: &impl Abort, alloc: Global, cast: &Cast, sample: &mut History) {
    insert(rt, alloc, cast, sample, 2, 0, b"ab");
    refused_alone(rt, alloc, cast, sample);
    refused_worse(rt, alloc, cast, sample);
}

const ADMIN: Change = Change::SetRole {
    member: 2,
    role: Role::Admin,
};

// Refused entries behind an Upgrade, which both accept: admin 2, with whom editor 5 shares no key,
// makes those that fail all checks from one on.
fn refused_behind_an_upgrade(rt: &impl Abort, alloc: Global, cast: &Cast, sample: &mut History) {
    change(rt, alloc, cast, sample, ADMIN, ALL);
    change(rt, alloc, cast, sample, Change::Upgrade, ALL);
    refused_alone(rt, alloc, cast, sample);
    let mut line = founded(rt, alloc, cast, 5);
    changes_refused(rt, alloc, cast, sample, &mut line, 2, &WORSE);
}

// The short history's text has four characters, the upgraded one's five.
#[test]
fn each_check_of_an_edit_refuses(rt: HostRuntime) {
    let cast = Cast::new(rt.alloc()).expect(&rt, "a cast");
    let sample = short_sample(&rt, rt.alloc(), &cast);
    edits_refused_by(&rt, rt.alloc(), &cast, &sample, 4);
    let sample = upgraded_sample(&rt, rt.alloc(), &cast);
    edits_refused_by(&rt, rt.alloc(), &cast, &sample, 5);
}

#[test]
fn each_check_of_a_change_refuses(rt: HostRuntime) {
    let cast = Cast::new(rt.alloc()).expect(&rt, "a cast");
    let mut sample = empty_sample(&rt, rt.alloc(), &cast);
    refused_at_both(&rt, rt.alloc(), &cast, &mut sample);
    refused_behind_an_upgrade(&rt, rt.alloc(), &cast, &mut sample);
}
