//! The text and the entries of a history, and a sink that fails as the text is written.

use super::folder::{Files, Room};
use crate::checks::{check_answer, check_at, check_same};
use crate::memory::calls;
use sporc_base::is_same;
use sporc_commands::{list_entries, text};
use sporc_files::Fault;
use sporc_member::Device;
use sporc_memory::MemorySink;
use sporc_outside::OpenGate;
use sporc_samples::{Cast, History};
use sporc_words::{EntriesFrom, TextAt, Word};
use std::alloc::Global;
use std::process::Abort;
use std::sync::Wait;
use std::thread::Threads;

// What a sink has of the whole text, if it takes three bytes in one call and fails at the call with
// this number.
const CUT: [(u64, &[u8]); 4] = [
    (1, b""),
    (2, b"a\xc3\xa9"),
    (3, b"a\xc3\xa9\xe2\x82\xac"),
    (4, b"a\xc3\xa9\xe2\x82\xac\xf0\x9f\x98"),
];

// Its text, after both entries, and their lines.
const TEXT: &str = "aé€😀x";

const LINES: &str = "1 2 1 0 edit i\"aé€\"\n2 2 2 1 edit k3 i\"😀x\"\n";

// Appends an edit of member 2.
fn add_edit(
    rt: &impl Abort,
    alloc: Global,
    cast: &Cast,
    sample: &mut History,
    keep: u64,
    text: &str,
) {
    sample
        .insert(alloc, cast, 2, keep, text.as_bytes())
        .expect(rt, "an entry");
}

// Two edits.
fn two_edits(rt: &impl Abort, alloc: Global, cast: &Cast) -> History {
    let genesis = cast.genesis(alloc).expect(rt, "a genesis");
    let mut sample = History::new(alloc, &genesis).expect(rt, "a history");
    drop(genesis);
    add_edit(rt, alloc, cast, &mut sample, 0, "aé€");
    add_edit(rt, alloc, cast, &mut sample, 3, "😀x");
    sample
}

// The room of member 2 with a history of these entries, whose sink takes three bytes in one call
// and fails at this one.
fn room(rt: &impl Abort, alloc: Global, cast: &Cast, history: &[Vec<u8>], failing: u64) -> Room {
    let mut files = Files::of_member(rt, alloc, cast);
    files.add_history(rt, alloc, "D.2.history", history);
    let mut room = files.room(rt, alloc, 0);
    let sink = MemorySink::new(alloc, 3, calls(rt, alloc, failing));
    room.out = Box::new(alloc, sink).expect(rt, "memory");
    room
}

// What `text` answers in a room.
fn text_answer<R: Threads + Wait + Sync + Abort>(
    rt: &R,
    alloc: Global,
    room: &mut Room,
    at: Option<u32>,
) -> Result<(), Fault> {
    let asked = TextAt {
        name: Word::new(alloc, "D").expect(rt, "memory"),
        device: Device::first(2),
        at,
    };
    let folder = &mut *room.folder;
    text(rt, alloc, folder, &mut *room.out, &asked, &OpenGate)
}

// The text after all entries.
fn is_told<R: Threads + Wait + Sync + Abort>(
    rt: &R,
    alloc: Global,
    cast: &Cast,
    history: &[Vec<u8>],
) {
    let mut room = room(rt, alloc, cast, history, 0);
    let answer = text_answer(rt, alloc, &mut room, None);
    check_answer(rt, "text", answer, Ok(()));
    check_same(rt, "text", room.out.as_slice(), TEXT.as_bytes());
}

// No text, for this fault.
fn fault_is_told<R: Threads + Wait + Sync + Abort>(
    rt: &R,
    alloc: Global,
    cast: &Cast,
    history: &[Vec<u8>],
    at: Option<u32>,
    fault: Fault,
) {
    let mut room = room(rt, alloc, cast, history, 0);
    let answer = text_answer(rt, alloc, &mut room, at);
    check_answer(rt, "fault of text", answer, Err(fault));
    check_same(rt, "nothing", room.out.as_slice(), b"");
}

// The sink fails at this call: what it took before stands.
fn is_cut<R: Threads + Wait + Sync + Abort>(
    rt: &R,
    alloc: Global,
    cast: &Cast,
    history: &[Vec<u8>],
    call: u64,
    wanted: &[u8],
) {
    let mut room = room(rt, alloc, cast, history, call);
    let answer = text_answer(rt, alloc, &mut room, None);
    let written = room.out.as_slice();
    check_at(rt, "fault", call, answer == Err(Fault::Outside));
    check_at(rt, "prefix", call, is_same(written, wanted));
}

fn each_failing_write_is_told<R: Threads + Wait + Sync + Abort>(
    rt: &R,
    alloc: Global,
    cast: &Cast,
    history: &[Vec<u8>],
) {
    for (call, wanted) in &CUT {
        is_cut(rt, alloc, cast, history, *call, wanted);
    }
}

// The lines of all entries.
fn are_listed<R: Threads + Wait + Sync + Abort>(
    rt: &R,
    alloc: Global,
    cast: &Cast,
    history: &[Vec<u8>],
) {
    let mut room = room(rt, alloc, cast, history, 0);
    let asked = EntriesFrom {
        name: Word::new(alloc, "D").expect(rt, "memory"),
        device: Device::first(2),
        from: 1,
    };
    let folder = &mut *room.folder;
    let answer = list_entries(rt, alloc, folder, &mut *room.out, &asked, &OpenGate);
    check_answer(rt, "entries", answer, Ok(()));
    check_same(rt, "lines", room.out.as_slice(), LINES.as_bytes());
}

fn is_used<R: Threads + Wait + Sync + Abort>(
    rt: &R,
    alloc: Global,
    cast: &Cast,
    history: &[Vec<u8>],
) {
    is_told(rt, alloc, cast, history);
    fault_is_told(rt, alloc, cast, history, Some(3), Fault::Ahead(2));
    each_failing_write_is_told(rt, alloc, cast, history);
    are_listed(rt, alloc, cast, history);
}

fn history_is_told<R: Threads + Wait + Sync + Abort>(rt: &R, alloc: Global, cast: &Cast) {
    let sample = two_edits(rt, alloc, cast);
    is_used(rt, alloc, cast, sample.entries());
    drop(sample);
}

#[test]
fn the_text_and_the_entries_of_a_history_are_told(rt: HostRuntime) {
    let cast = Cast::new(rt.alloc()).expect(&rt, "a cast");
    history_is_told(&rt, rt.alloc(), &cast);
}
