//! Sessions of one client, and what they leave.

ghost use Rattle.std.specs.Prelude.{◌≡◌, ◌≤◌, length};
ghost use Rattle.sporc_script.specs.declared.limits.TheConstants.{MAX_EDITORS};
ghost use Rattle.sporc_turn.specs.Passes.{known_of};
ghost use Rattle.sporc_shared.specs.Passes.{IsPassOf};

use crate::objects::{calls, empty_history, empty_order, listed_link};
use crate::shared::order_link::OrderLink;
use crate::shared::scene::{BLANK, LeafFile, Past, lived};
use sporc_client::{Client, Event};
use sporc_memory::ListedChance;
use sporc_order::Order;
use sporc_outside::{Chance, Gate, LeafDisk, Link, OpenGate};
use sporc_samples::{Cast, History};
use sporc_script::{EditorScript, MAX_EDITORS, read_editor};
use sporc_session::{SessionFault, session};
use sporc_shared::{Pass, SharedClient};
use std::alloc::Global;
use std::process::Abort;
use std::sync::Wait;
use std::thread::Threads;

/// How a session ended.
pub(crate) type Answer = Result<(), SessionFault>;

/// An event of a journal, and the number of its maker.
#[derive(Clone, Copy, PartialEq, Eq)]
pub(crate) enum Deed {
    /// So many characters were added.
    Edit(u32, u64),
    Submit(u32),
    /// The entry at this position came.
    Accept(u32, u32),
    Other(u32),
}

/// What a session left: its answer, the text that the client shows, and its journal.
#[derive(Drop)]
pub(crate) struct Outcome {
    pub(crate) answer: Answer,
    pub(crate) text: String,
    pub(crate) deeds: Vec<Deed>,
}

/// Who has a session, and which calls of its objects fail.
#[derive(Clone, Copy)]
pub(crate) struct Start<'a> {
    pub(crate) member: u8,
    pub(crate) past: Past,
    pub(crate) file: LeafFile<'a>,
    pub(crate) link: &'a [u64],
    pub(crate) chance: &'a [u64],
}

/// The client of member 4, an editor, just opened. No call fails.
pub(crate) const FRESH: Start<'static> = Start {
    member: 4,
    past: Past::Nothing,
    file: BLANK,
    link: &[],
    chance: &[],
};

/// The client of member 4, just opened, where a text is inserted that no entry was made of.
pub(crate) const EDITED: Start<'static> = Start {
    member: 4,
    past: Past::Edit,
    file: BLANK,
    link: &[],
    chance: &[],
};

/// How many rounds each phase has, and how many entries there are to be at the end.
#[derive(Clone, Copy)]
pub(crate) struct Wanted {
    pub(crate) rounds: u32,
    pub(crate) until: u32,
}

/// What a session is to do: what its editors do, how far it goes, and its gate.
#[derive(Drop)]
pub(crate) struct Work<'a, G> {
    pub(crate) editors: &'a [EditorScript],
    pub(crate) wanted: Wanted,
    pub(crate) gate: &'a G,
}

/// Two rounds, until there is an entry.
pub(crate) const TWO_ROUNDS: Wanted = Wanted {
    rounds: 2,
    until: 1,
};

fn deed_of(event: &Event) -> Deed {
    match event {
        Event::Edit { by, delta, .. } => {
            Deed::Edit(*by, delta.out_len().saturating_sub(delta.base_len()))
        }
        Event::Submit { by, .. } => Deed::Submit(*by),
        Event::Accept { by, place } => Deed::Accept(*by, *place),
        Event::Change { by, .. } => Deed::Other(*by),
        Event::Dropped { by, .. } => Deed::Other(*by),
        Event::Discard { by } => Deed::Other(*by),
    }
}

fn deeds(rt: &impl Abort, alloc: Global, journal: &[Event]) -> Vec<Deed> {
    let mut deeds = Vec::new(alloc);
    for event in journal {
        deeds.push(deed_of(event)).expect(rt, "memory");
    }
    deeds
}

fn left_by<D: LeafDisk>(
    rt: &impl Abort,
    alloc: Global,
    client: &Client<D>,
    answer: Answer,
) -> Outcome {
    let deeds = deeds(rt, alloc, client.journal());
    let text = client.shown().expect(rt, "a text");
    Outcome {
        answer,
        text,
        deeds,
    }
}

/// Closes a client.
pub(crate) fn closed<D: LeafDisk + Drop>(
    rt: &impl Abort,
    alloc: Global,
    shared: SharedClient<D>,
    first: Pass,
    answer: Answer,
) -> Outcome
    requires lock { IsPassOf shared first }
    requires first { (known_of first).number ≡ 0 }
{
    let Ok(client) = shared.close(first) else {
        panic!(rt; "a pass is away");
    };
    let outcome = left_by(rt, alloc, &client, answer);
    drop(client);
    outcome
}

// Runs a session, and closes the client.
fn run<
    R: Abort + Threads + Wait + Sync,
    D: LeafDisk + Send + Drop,
    L: Link + Send,
    C: Chance + Send,
    G: Gate + Sync,
>(
    rt: &R,
    alloc: Global,
    client: Client<D>,
    link: &mut L,
    chance: &mut C,
    work: &Work<'_, G>,
) -> Outcome
    requires { length work.now.editors.now ≤ MAX_EDITORS }
{
    let Wanted { rounds, until } = work.wanted;
    match SharedClient::open(alloc, client) {
        Ok((shared, first)) => {
            let (answer, first) = session(
                rt,
                alloc,
                &shared,
                first,
                link,
                chance,
                work.editors,
                rounds,
                until,
                work.gate,
            );
            closed(rt, alloc, shared, first, answer)
        }
        Err(_) => panic!(rt; "memory"),
    }
}

// A session over a link.
fn over<R: Abort + Threads + Wait + Sync, L: Link + Send, G: Gate + Sync>(
    rt: &R,
    alloc: Global,
    cast: &Cast,
    start: Start<'_>,
    link: &mut L,
    work: &Work<'_, G>,
) -> Outcome
    requires { length work.now.editors.now ≤ MAX_EDITORS }
{
    let Start {
        member,
        past,
        file,
        chance,
        ..
    } = start;
    let mut chance = words(rt, alloc, chance);
    let client = lived(rt, alloc, cast, member, file, past);
    let client = Box::into_inner(client);
    run(rt, alloc, client, link, &mut chance, work)
}

/// A session of two rounds with a server that sends these bytes. How it ends.
pub(crate) fn heard<R: Abort + Threads + Wait + Sync>(
    rt: &R,
    alloc: Global,
    cast: &Cast,
    start: Start<'_>,
    sent: &[u8],
) -> Answer {
    let mut link = listed_link(rt, alloc, sent, 3, &[]);
    let work = Work {
        editors: &[],
        wanted: TWO_ROUNDS,
        gate: &OpenGate,
    };
    let outcome = over(rt, alloc, cast, start, &mut link, &work);
    outcome.answer
}

/// A session with an order that has the entries of a history, beside these editors.
pub(crate) fn held<R: Abort + Threads + Wait + Sync, G: Gate + Sync>(
    rt: &R,
    alloc: Global,
    cast: &Cast,
    start: Start<'_>,
    sample: &History,
    work: &Work<'_, G>,
) -> Outcome {
    assert!(rt; work.editors.len() <= MAX_EDITORS, "too many editors");
    let mut link = order_link(rt, alloc, cast, start.link, sample);
    let outcome = over(rt, alloc, cast, start, &mut *link, work);
    drop(link);
    outcome
}

// An order that has the entries of a history.
fn order_of(rt: &impl Abort, alloc: Global, cast: &Cast, sample: &History) -> Box<Order> {
    let mut order = empty_order(rt, alloc, cast);
    for entry in sample.entries() {
        order.submit(entry.as_slice()).expect(rt, "an entry");
    }
    order
}

// A link to an order that has the entries of a history. It is in a box, so that a function that
// owns it is quick to prove.
fn order_link(
    rt: &impl Abort,
    alloc: Global,
    cast: &Cast,
    failing: &[u64],
    sample: &History,
) -> Box<OrderLink> {
    let calls = calls(rt, alloc, failing);
    let order = order_of(rt, alloc, cast, sample);
    Box::new(alloc, OrderLink::new(alloc, order, calls)).expect(rt, "memory")
}

/// A session with an order that has no entries, where so many editors have these lines each.
pub(crate) fn written<R: Abort + Threads + Wait + Sync>(
    rt: &R,
    alloc: Global,
    cast: &Cast,
    start: Start<'_>,
    editors: u32,
    lines: &str,
    wanted: Wanted,
) -> Outcome {
    let sample = empty_history(rt, alloc, cast);
    let editors = scripts(rt, alloc, editors, lines);
    let work = Work {
        editors: editors.as_slice(),
        wanted,
        gate: &OpenGate,
    };
    held(rt, alloc, cast, start, &sample, &work)
}

// Twenty words. The calls with these numbers fail.
fn words(rt: &impl Abort, alloc: Global, failing: &[u64]) -> ListedChance {
    let mut words = Vec::new(alloc);
    for number in 0..20u8 {
        words.push([number; 32]).expect(rt, "memory");
    }
    ListedChance::new(words, calls(rt, alloc, failing))
}

/// A script of these lines for each of so many editors.
pub(crate) fn scripts(
    rt: &impl Abort,
    alloc: Global,
    editors: u32,
    lines: &str,
) -> Vec<EditorScript> {
    assert!(rt; lines.len() <= 1_000_000, "too long");
    let mut scripts = Vec::new(alloc);
    for _ in 0..editors {
        let script = read_editor(alloc, lines.as_bytes()).expect(rt, "a script");
        scripts.push(script).expect(rt, "memory");
    }
    scripts
}
