use crate::checks::{check, check_at, is_refusal};
use crate::samples::{short_sample, upgraded_sample};
use sporc_base::is_same;
use sporc_entry::{Header, version_of};
use sporc_head::{Examined, Heads, MAX_ENTRIES, Refusal};
use sporc_member::{Change, ChangeFault, Device, Role};
use sporc_samples::{CHANGE, Cast, DOCUMENT, Draft, EDIT, History, Member, change_body, insertion};
use std::alloc::Global;
use std::process::Abort;

// The next entry at a history, and who checks it at which position. Leaf 0 signs each: no check
// asks which leaves have signed.
#[derive(Clone, Copy)]
struct Attempt {
    me: Option<(u16, u8)>,
    pos: u32,
    version: u8,
    document: [u8; 16],
    author: u16,
    device: u8,
    // How far its number is ahead of the next one of the author's device.
    ahead: u32,
    base: u32,
    // Whether its base hash is none of the history's.
    foreign: bool,
    epoch: u32,
    leaf: u32,
    // Whether a bit of its signature is turned.
    turned: bool,
    // The member that it removes, if it is a change, and the members that it then seals the next
    // key for.
    removes: Option<u16>,
    sealed_for: [u16; 4],
}

impl Attempt {
    // The next edit of editor 2, which no check refuses.
    fn good(heads: &Heads) -> Attempt {
        Attempt {
            me: Some((2, 0)),
            pos: heads.len().wrapping_add(1),
            version: version_of(heads.roster().upgraded()),
            document: DOCUMENT,
            author: 2,
            device: 0,
            ahead: 0,
            base: heads.len(),
            foreign: false,
            epoch: heads.epoch(),
            leaf: 0,
            turned: false,
            removes: None,
            sealed_for: [1, 2, 3, 5],
        }
    }

    // Makes it fail the check of this refusal, at a history that begins with the short one and
    // whose last entry but its edits by 2 is an edit by 5.
    fn spoil(&mut self, heads: &Heads, refusal: Refusal) {
        match refusal {
            Refusal::WrongDocument => self.document = [8; 16],
            Refusal::WrongPosition => self.pos = 1,
            Refusal::Removed => self.me = Some((4, 0)),
            Refusal::WrongVersion => self.version = if self.version == 1 { 2 } else { 1 },
            Refusal::UnknownAuthor => self.author = 4,
            Refusal::UnknownDevice => self.device = 9,
            Refusal::BaseAhead => self.base = u32::MAX,
            Refusal::BeforeBarrier => self.base = heads.barrier().wrapping_sub(1),
            Refusal::WrongHistory => self.foreign = true,
            Refusal::WrongNumber => self.ahead = 1,
            Refusal::BehindOwn => (self.author, self.base) = (5, heads.barrier()),
            Refusal::WrongEpoch => self.epoch = 9,
            Refusal::NoRight => self.author = 3,
            Refusal::LeafMismatch => self.leaf = 1,
            Refusal::BadSignature => self.turned = true,
            Refusal::BadChange(_) => (self.author, self.removes) = (1, Some(4)),
            Refusal::WrongWraps => {
                self.author = 1;
                self.removes = Some(3);
                self.sealed_for = [1, 2, 3, 4];
            }
            _ => {}
        }
    }

    fn header(&self, heads: &Heads) -> Header {
        let base_hash = if self.foreign {
            [0; 32]
        } else {
            heads.hash_at(self.base.min(heads.len()))
        };
        // An entry of version 1 is by device 0.
        let device = if self.version == 1 { 0 } else { self.device };
        Header {
            version: self.version,
            document: self.document,
            author: self.author,
            device,
            number: heads
                .count_of(self.author, device)
                .wrapping_add(1)
                .wrapping_add(self.ahead),
            base: self.base,
            base_hash,
            epoch: self.epoch,
            leaf: self.leaf,
            kind: if self.removes.is_some() { CHANGE } else { EDIT },
        }
    }

    fn bytes(&self, rt: &impl Abort, alloc: Global, heads: &Heads, cast: &Cast) -> Vec<u8> {
        let body = match self.removes {
            Some(member) => change_body(
                alloc,
                Change::Remove { member },
                Device {
                    member: self.author,
                    number: self.device,
                },
                self.leaf,
                self.epoch,
                &self.sealed_for,
            )
            .expect(rt, "a change"),
            None => Vec::new(alloc),
        };
        let draft = Draft {
            header: self.header(heads),
            signing_leaf: 0,
            turned: self.turned,
        };
        let signer = cast.member(self.author).expect(rt, "a member");
        draft
            .signed(alloc, signer, body.as_slice())
            .expect(rt, "an entry")
    }
}

// Appends an entry.
fn take(rt: &impl Abort, heads: &mut Heads, bytes: &[u8]) {
    let checked = heads
        .check(Some((2, 0)), heads.len().wrapping_add(1), bytes)
        .expect(rt, "an entry");
    check(rt, "checked bytes", is_same(checked.bytes(), bytes));
    heads.push(checked).ok().expect(rt, "memory");
}

fn take_all(rt: &impl Abort, heads: &mut Heads, entries: &[Vec<u8>]) {
    heads.reserve().expect(rt, "memory");
    for bytes in entries {
        take(rt, heads, bytes.as_slice());
    }
}

fn opened(rt: &impl Abort, alloc: Global, cast: &Cast) -> Box<Heads> {
    let genesis = cast.genesis(alloc).expect(rt, "a genesis");
    Box::new(alloc, Heads::open(alloc, genesis).expect(rt, "memory")).expect(rt, "memory")
}

// The heads of a history, in a box: a function that owns heads themselves is slow to prove.
fn grown(rt: &impl Abort, alloc: Global, cast: &Cast, entries: &[Vec<u8>]) -> Box<Heads> {
    let mut heads = opened(rt, alloc, cast);
    take_all(rt, &mut heads, entries);
    heads
}

// The short history: edits by 2 and 4, a change by 1 that removes 4, and an edit by 5.
fn short(rt: &impl Abort, alloc: Global, cast: &Cast) -> Box<Heads> {
    let sample = short_sample(rt, alloc, cast);
    grown(rt, alloc, cast, sample.entries())
}

// The short history, the document's Upgrade by 1, and another edit by 5.
fn upgraded(rt: &impl Abort, alloc: Global, cast: &Cast) -> Box<Heads> {
    let sample = upgraded_sample(rt, alloc, cast);
    grown(rt, alloc, cast, sample.entries())
}

const MEMBERS: [u16; 4] = [1, 2, 3, 5];

fn has_grown(heads: &Heads) -> bool {
    heads.len() == 4
        && heads.barrier() == 3
        && heads.epoch() == 1
        && heads.count_of(2, 0) == 1
        && heads.last_of(2, 0) == 1
        && heads.roster().members() == MEMBERS.as_slice()
        && heads.is_removed(Device::first(4))
}

// Why heads refuse an attempt, if they do: the same where its signature was examined before, under
// the key for it or, if there is none, under no key.
fn refusal_of(
    rt: &impl Abort,
    heads: &Heads,
    attempt: &Attempt,
    bytes: Vec<u8>,
) -> Option<Refusal> {
    let found = heads.check(attempt.me, attempt.pos, bytes.as_slice()).err();
    let key = heads.key_for(bytes.as_slice()).unwrap_or([0; 56]);
    let examined = Examined::of(&key, bytes).ok().expect(rt, "memory");
    let again = heads
        .check_examined(attempt.me, attempt.pos, &examined)
        .err();
    check(rt, "examined", again == found);
    found
}

fn is_refused(
    rt: &impl Abort,
    alloc: Global,
    heads: &Heads,
    cast: &Cast,
    attempt: &Attempt,
    refusal: Refusal,
) -> bool {
    let bytes = attempt.bytes(rt, alloc, heads, cast);
    is_refusal(refusal_of(rt, heads, attempt, bytes), refusal)
}

// The refusals of a history that is not full, by the last check and those before it. A base that is
// ahead is neither before the barrier nor behind the author's last entry.
const REFUSALS: [Refusal; 17] = [
    Refusal::WrongWraps,
    Refusal::BadChange(ChangeFault::NotMember),
    Refusal::BadSignature,
    Refusal::LeafMismatch,
    Refusal::NoRight,
    Refusal::WrongEpoch,
    Refusal::BehindOwn,
    Refusal::WrongNumber,
    Refusal::WrongHistory,
    Refusal::BeforeBarrier,
    Refusal::BaseAhead,
    Refusal::UnknownDevice,
    Refusal::UnknownAuthor,
    Refusal::WrongVersion,
    Refusal::Removed,
    Refusal::WrongPosition,
    Refusal::WrongDocument,
];

// A check refuses an entry that fails it alone, and one that fails all later checks too.
fn refuses(
    rt: &impl Abort,
    alloc: Global,
    heads: &Heads,
    cast: &Cast,
    worse: &mut Attempt,
    refusal: Refusal,
) {
    let code = u64::from(refusal.code());
    let mut alone = Attempt::good(heads);
    alone.spoil(heads, refusal);
    check_at(
        rt,
        "alone",
        code,
        is_refused(rt, alloc, heads, cast, &alone, refusal),
    );
    worse.spoil(heads, refusal);
    check_at(
        rt,
        "with later ones",
        code,
        is_refused(rt, alloc, heads, cast, worse, refusal),
    );
}

// The entry with a byte more.
fn is_malformed(rt: &impl Abort, alloc: Global, heads: &Heads, cast: &Cast, worse: &Attempt) {
    let mut bytes = worse.bytes(rt, alloc, heads, cast);
    let len = bytes.len();
    bytes.push(0).expect(rt, "memory");
    let found = refusal_of(rt, heads, worse, bytes);
    check(rt, "malformed", is_refusal(found, Refusal::Malformed(len)));
}

fn each_refuses(rt: &impl Abort, alloc: Global, heads: &Heads, cast: &Cast) {
    let mut worse = Attempt::good(heads);
    for refusal in &REFUSALS {
        // Before the Upgrade each live device is a first one, and no entry names another.
        if *refusal != Refusal::UnknownDevice || heads.roster().upgraded() {
            refuses(rt, alloc, heads, cast, &mut worse, *refusal);
        }
    }
    is_malformed(rt, alloc, heads, cast, &worse);
}

// Edits as many as a history may have.
fn fill(rt: &impl Abort, alloc: Global, heads: &mut Heads, cast: &Cast) {
    for _ in 4..MAX_ENTRIES {
        let bytes = Attempt::good(heads).bytes(rt, alloc, heads, cast);
        take(rt, heads, bytes.as_slice());
    }
}

// What a full history refuses an entry for that fails this check and all later ones.
fn first_if_full(refusal: Refusal) -> Refusal {
    match refusal {
        Refusal::Removed | Refusal::WrongPosition | Refusal::WrongDocument => refusal,
        _ => Refusal::HistoryFull,
    }
}

fn full_refuses(rt: &impl Abort, alloc: Global, heads: &Heads, cast: &Cast) {
    let mut worse = Attempt::good(heads);
    check(
        rt,
        "full",
        is_refused(rt, alloc, heads, cast, &worse, Refusal::HistoryFull),
    );
    for refusal in &REFUSALS {
        worse.spoil(heads, *refusal);
        let refused = is_refused(rt, alloc, heads, cast, &worse, first_if_full(*refusal));
        check_at(rt, "full", u64::from(refusal.code()), refused);
    }
}

// The short history has grown, and each check refuses at it. So does a full history, before all but
// the first three.
#[test]
fn a_history_grows_and_refuses(rt: HostRuntime) {
    let cast = Cast::new(rt.alloc()).expect(&rt, "a cast");
    let mut heads = short(&rt, rt.alloc(), &cast);
    check(&rt, "grown", has_grown(&heads));
    each_refuses(&rt, rt.alloc(), &heads, &cast);
    fill(&rt, rt.alloc(), &mut heads, &cast);
    full_refuses(&rt, rt.alloc(), &heads, &cast);
}

// Each check refuses behind an Upgrade too.
#[test]
fn an_upgraded_history_refuses(rt: HostRuntime) {
    let cast = Cast::new(rt.alloc()).expect(&rt, "a cast");
    let heads = upgraded(&rt, rt.alloc(), &cast);
    check(&rt, "grown", heads.len() == 6 && heads.barrier() == 5);
    each_refuses(&rt, rt.alloc(), &heads, &cast);
}

// Whether a change by 1 is the next entry that heads take.
fn change_is_taken(
    rt: &impl Abort,
    alloc: Global,
    heads: &mut Heads,
    cast: &Cast,
    sample: &mut History,
    change: Change,
) {
    sample
        .change(alloc, cast, 1, change, &MEMBERS)
        .expect(rt, "a change");
    take_last(rt, heads, sample);
}

fn take_last(rt: &impl Abort, heads: &mut Heads, sample: &History) {
    if let Some(bytes) = sample.entries().last() {
        take(rt, heads, bytes.as_slice());
    }
}

fn edit_is_taken(
    rt: &impl Abort,
    alloc: Global,
    heads: &mut Heads,
    sample: &mut History,
    signer: &Member,
) {
    let delta = insertion(alloc, 0, b"z").expect(rt, "memory");
    sample
        .edit_by(alloc, signer, delta.as_slice())
        .expect(rt, "an edit");
    take_last(rt, heads, sample);
}

// Why heads refuse the next edit by a device, for a client of this device.
fn edit_refused(
    rt: &impl Abort,
    alloc: Global,
    heads: &Heads,
    sample: &mut History,
    signer: &Member,
    me: (u16, u8),
) -> Option<Refusal> {
    let delta = insertion(alloc, 0, b"z").expect(rt, "memory");
    sample
        .edit_by(alloc, signer, delta.as_slice())
        .expect(rt, "an edit");
    match sample.entries().last() {
        Some(bytes) => heads
            .check(Some(me), heads.len().wrapping_add(1), bytes.as_slice())
            .err(),
        None => None,
    }
}

// Devices of one member count each for itself, and a dropped one signs no more.
fn devices_sign(rt: &impl Abort, alloc: Global, cast: &Cast, other: &Member) {
    let mut sample = upgraded_sample(rt, alloc, cast);
    let mut heads = upgraded(rt, alloc, cast);
    let (member, device, key) = (2, 1, other.key());
    let added = Change::AddDevice {
        member,
        device,
        key,
    };
    change_is_taken(rt, alloc, &mut heads, cast, &mut sample, added);
    edit_is_taken(rt, alloc, &mut heads, &mut sample, other);
    edit_is_taken(rt, alloc, &mut heads, &mut sample, other);
    check(
        rt,
        "counts",
        heads.count_of(2, 0) == 1 && heads.count_of(2, 1) == 2 && heads.last_of(2, 1) == 9,
    );
    let first = cast.member(2).expect(rt, "a member");
    let late = next_edit(rt, alloc, &sample, first, Device::first(2));
    let before = refused_at(&heads, late.as_slice());
    check(rt, "on its way", before.is_none());
    let dropped = Change::DropDevice { member, device: 0 };
    change_is_taken(rt, alloc, &mut heads, cast, &mut sample, dropped);
    let found = refused_at(&heads, late.as_slice());
    check(
        rt,
        "on its way to a drop",
        is_refusal(found, Refusal::UnknownDevice),
    );
    dropped_key_signs(rt, alloc, &heads, &sample, first, other.device());
    devices_are_told_apart(rt, alloc, &heads, cast, &mut sample, other);
}

// The next edit of a history by a device, signed with these keys. What is masked in it no check of
// heads asks.
fn next_edit(
    rt: &impl Abort,
    alloc: Global,
    sample: &History,
    signer: &Member,
    device: Device,
) -> Vec<u8> {
    Draft::new(sample.header_of(device, EDIT))
        .signed(alloc, signer, b"")
        .expect(rt, "an entry")
}

// Why heads refuse an entry at the next position, for nobody.
fn refused_at(heads: &Heads, bytes: &[u8]) -> Option<Refusal> {
    heads.check(None, heads.len().wrapping_add(1), bytes).err()
}

// The key of a dropped device signs an entry in the name of the live one.
fn dropped_key_signs(
    rt: &impl Abort,
    alloc: Global,
    heads: &Heads,
    sample: &History,
    first: &Member,
    live: Device,
) {
    let bytes = next_edit(rt, alloc, sample, first, live);
    let found = refused_at(heads, bytes.as_slice());
    check(
        rt,
        "by a dropped key",
        is_refusal(found, Refusal::BadSignature),
    );
}

fn devices_are_told_apart(
    rt: &impl Abort,
    alloc: Global,
    heads: &Heads,
    cast: &Cast,
    sample: &mut History,
    other: &Member,
) {
    check(
        rt,
        "removed",
        heads.is_removed(Device::first(2)) && !heads.is_removed(other.device()),
    );
    let good = edit_refused(rt, alloc, heads, sample, other, (2, 1));
    check(rt, "the live one", good.is_none());
    let seen = edit_refused(rt, alloc, heads, sample, other, (2, 0));
    check(
        rt,
        "for the dropped one",
        is_refusal(seen, Refusal::Removed),
    );
    let first = cast.member(2).expect(rt, "a member");
    let found = edit_refused(rt, alloc, heads, sample, first, (2, 1));
    check(
        rt,
        "by the dropped one",
        is_refusal(found, Refusal::UnknownDevice),
    );
}

#[test]
fn devices_of_one_member_sign(rt: HostRuntime) {
    let cast = Cast::new(rt.alloc()).expect(&rt, "a cast");
    let device = Device {
        member: 2,
        number: 1,
    };
    let other = Member::by_device(rt.alloc(), device, Role::Editor).expect(&rt, "memory");
    devices_sign(&rt, rt.alloc(), &cast, &other);
}

fn check_name(rt: &impl Abort, alloc: Global, refusal: Refusal, name: &str) {
    let found = refusal.name(alloc).expect(rt, "memory");
    check(rt, name, found.as_str() == name);
}

const LAST_ADMIN: Refusal = Refusal::BadChange(ChangeFault::LastAdmin);

#[test]
fn refusals_have_names(rt: HostRuntime) {
    check_name(&rt, rt.alloc(), Refusal::Malformed(95), "malformed 95");
    check_name(&rt, rt.alloc(), LAST_ADMIN, "bad-change last-admin");
    check(&rt, "code", Refusal::UnknownDevice.code() == 23);
}
