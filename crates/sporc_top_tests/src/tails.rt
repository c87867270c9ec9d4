//! Servers that go on from one that was stopped in the middle, and servers that serve several
//! times.

use crate::bytes::{append, bytes_of};
use crate::checks::{check, check_answer};
use crate::document::{add, entries, history_file, of_server, other_genesis};
use crate::nets::run_all;
use crate::place::{Answer, Failing, NONE, Object, Place};
use crate::servers::stream;
use sporc_base::is_same;
use sporc_samples::{Cast, History};
use std::alloc::Global;
use std::process::Abort;
use std::sync::Wait;
use std::thread::Threads;

// A history of three entries, and who signed them.
#[derive(Drop)]
struct Scene {
    cast: Cast,
    sample: History,
}

impl Scene {
    fn new(rt: &impl Abort, alloc: Global) -> Scene {
        let cast = Cast::new(alloc).expect(rt, "a cast");
        let sample = entries(rt, alloc, &cast, 2, 3);
        Scene { cast, sample }
    }

    // The log of the first so many entries.
    fn log(&self, rt: &impl Abort, alloc: Global, len: usize) -> Vec<u8> {
        let first = self.sample.entries().get(..len).expect(rt, "entries");
        history_file(rt, alloc, first)
    }

    // The entry at a position, from 1 on.
    fn entry(&self, rt: &impl Abort, position: usize) -> &[u8] {
        let place = position.saturating_sub(1);
        let entry = self.sample.entries().get(place).expect(rt, "an entry");
        entry.as_slice()
    }
}

// A record of a tail: its position, and at which one the entry stands that it has.
type Record = (u32, usize);

// What a tail of the document of sixteen bytes 7 begins with.
const HEAD: &[u8] = b"SPT1\x07\x07\x07\x07\x07\x07\x07\x07\x07\x07\x07\x07\x07\x07\x07\x07";

// A record: position, length and entry.
fn add_record(rt: &impl Abort, tail: &mut Vec<u8>, position: u32, entry: &[u8]) {
    let len = u32::try_from(entry.len()).unwrap_or(u32::MAX);
    append(rt, tail, &position.to_be_bytes());
    append(rt, tail, &len.to_be_bytes());
    append(rt, tail, entry);
}

// The tail with these records.
fn tail_of(rt: &impl Abort, alloc: Global, scene: &Scene, records: &[Record]) -> Vec<u8> {
    let mut tail = bytes_of(rt, alloc, HEAD);
    for (position, entry) in records {
        add_record(rt, &mut tail, *position, scene.entry(rt, *entry));
    }
    tail
}

// A server's place, with the log of the first so many entries and this tail, where this call fails.
fn place_of(
    rt: &impl Abort,
    alloc: Global,
    scene: &Scene,
    len: usize,
    tail: &[u8],
    failing: Failing,
) -> Place {
    let log = scene.log(rt, alloc, len);
    let mut files = of_server(rt, alloc, &scene.cast, log.as_slice());
    add(rt, alloc, &mut files, "D.tail", tail);
    Place::failing(rt, alloc, files, failing)
}

// A server of one session, to which a client comes that sends nothing.
fn run_once<R: Threads + Wait + Sync + Abort>(rt: &R, alloc: Global, place: &mut Place) -> Answer {
    let sent: Vec<Vec<u8>> = vec![in alloc; Vec::new(alloc)].expect(rt, "memory");
    run_all(rt, alloc, place, "serve D a --sessions 1", sent.as_slice())
}

// Whether the log is that of the first so many entries.
fn has_log(rt: &impl Abort, alloc: Global, scene: &Scene, place: &Place, len: usize) -> bool {
    let log = scene.log(rt, alloc, len);
    place.file("D.log") == Some(log.as_slice())
}

// The line of a log of so many entries.
fn log_line(len: usize) -> &'static [u8] {
    match len {
        1 => b"log 1\n",
        2 => b"log 2\n",
        _ => b"log 3\n",
    }
}

// How many entries the log has, the records of its tail, how many bytes of that are missing at its
// end, and how many entries the server then has.
const KEPT: [(usize, &[Record], usize, usize); 8] = [
    (1, &[(2, 2), (3, 3)], 0, 3),
    (0, &[(1, 1)], 0, 1),
    // the log has the first record, and all of them
    (2, &[(2, 2), (3, 3)], 0, 3),
    (3, &[(2, 2), (3, 3)], 0, 3),
    // a stop in the middle of the last record, of the head, and before it
    (1, &[(2, 2), (3, 3)], 1, 2),
    (1, &[], 0, 1),
    (1, &[], 1, 1),
    (1, &[], 20, 1),
];

// A server goes on from a log and its tail, saves all that they have, and removes the tail.
fn goes_on<R: Threads + Wait + Sync + Abort>(
    rt: &R,
    alloc: Global,
    scene: &Scene,
    log: usize,
    tail: &[u8],
    len: usize,
) {
    let mut place = place_of(rt, alloc, scene, log, tail, NONE);
    let (status, written) = run_once(rt, alloc, &mut place);
    check_answer(rt, "a tail", (status, written.as_slice()), 0, log_line(len));
    check(rt, "all in the log", has_log(rt, alloc, scene, &place, len));
    check(rt, "no tail", place.file("D.tail").is_none());
}

#[test]
fn a_server_goes_on_from_one_that_was_stopped(rt: HostRuntime) {
    let scene = Scene::new(&rt, rt.alloc());
    for (log, records, missing, len) in &KEPT {
        let mut tail = tail_of(&rt, rt.alloc(), &scene, *records);
        let whole = tail.len().saturating_sub(*missing);
        tail.truncate(whole);
        goes_on(&rt, rt.alloc(), &scene, *log, tail.as_slice(), *len);
    }
}

// A server over a log of one entry and this tail is stopped by a fault, and leaves both.
fn is_stopped<R: Threads + Wait + Sync + Abort>(
    rt: &R,
    alloc: Global,
    scene: &Scene,
    tail: &[u8],
    status: u8,
    line: &str,
) {
    let mut place = place_of(rt, alloc, scene, 1, tail, NONE);
    let (got, written) = run_once(rt, alloc, &mut place);
    check_answer(rt, line, (got, written.as_slice()), status, line.as_bytes());
    check(rt, line, has_log(rt, alloc, scene, &place, 1));
    check(rt, line, place.file("D.tail") == Some(tail));
}

// Bytes that are no tail of the document's log of one entry, or in which no record can be, and what
// is told.
const NO_TAILS: [(&[u8], &str); 4] = [
    (
        b"SPT1\x08\x08\x08\x08\x08\x08\x08\x08\x08\x08\x08\x08\x08\x08\x08\x08",
        "fault malformed D.tail 0\n",
    ),
    (b"SPH", "fault malformed D.tail 0\n"),
    // a position of 0, and an entry of more bytes than one may have
    (
        b"SPT1\x07\x07\x07\x07\x07\x07\x07\x07\x07\x07\x07\x07\x07\x07\x07\x07\0\0\0\0",
        "fault malformed D.tail 20\n",
    ),
    (
        b"SPT1\x07\x07\x07\x07\x07\x07\x07\x07\x07\x07\x07\x07\x07\x07\x07\x07\0\0\0\x02\xff\xff\xff\xff",
        "fault malformed D.tail 24\n",
    ),
];

// Records that do not fit behind a log of one entry, how many of them do, and how far behind these
// the fault is.
const MISFITS: [(&[Record], usize, usize); 4] = [
    // a gap behind the log, a record twice, a gap behind a record, and another entry than the log's
    (&[(3, 3)], 0, 0),
    (&[(2, 2), (2, 2)], 1, 0),
    (&[(2, 2), (4, 3)], 1, 0),
    (&[(1, 2)], 0, 8),
];

// Records that fit, with an entry that the checks refuse.
const REFUSED: [(&[Record], &str); 2] = [
    (&[(2, 1)], "fault refused 2 wrong-number\n"),
    (&[(2, 2), (3, 2)], "fault refused 3 wrong-number\n"),
];

// Where a tail has its fault, that so many bytes behind the first of its records do not fit.
fn fault_place(
    rt: &impl Abort,
    alloc: Global,
    scene: &Scene,
    records: &[Record],
    fitting: usize,
    behind: usize,
) -> usize {
    let fitting = records.get(..fitting).expect(rt, "records");
    let before = tail_of(rt, alloc, scene, fitting);
    before.len().saturating_add(behind)
}

// Records that do not fit are told by their place.
fn misfit_is_told<R: Threads + Wait + Sync + Abort>(
    rt: &R,
    alloc: Global,
    scene: &Scene,
    records: &[Record],
    at: usize,
) {
    let tail = tail_of(rt, alloc, scene, records);
    let line = format!(in alloc; "fault malformed D.tail {at}\n").expect(rt, "memory");
    is_stopped(rt, alloc, scene, tail.as_slice(), 3, line.as_str());
}

// An entry that is refused is told by its position.
fn refusal_is_told<R: Threads + Wait + Sync + Abort>(
    rt: &R,
    alloc: Global,
    scene: &Scene,
    records: &[Record],
    line: &str,
) {
    let tail = tail_of(rt, alloc, scene, records);
    is_stopped(rt, alloc, scene, tail.as_slice(), 4, line);
}

#[test]
fn a_tail_that_does_not_fit_is_told(rt: HostRuntime) {
    let scene = Scene::new(&rt, rt.alloc());
    for (tail, line) in &NO_TAILS {
        is_stopped(&rt, rt.alloc(), &scene, tail, 3, line);
    }
    for (records, fitting, behind) in &MISFITS {
        let at = fault_place(&rt, rt.alloc(), &scene, *records, *fitting, *behind);
        misfit_is_told(&rt, rt.alloc(), &scene, *records, at);
    }
    for (records, line) in &REFUSED {
        refusal_is_told(&rt, rt.alloc(), &scene, *records, line);
    }
}

// Two clients, of whom the last comes first: it submits the second entry, and the other the third.
fn two_clients(rt: &impl Abort, alloc: Global, scene: &Scene) -> Vec<Vec<u8>> {
    let second = stream(rt, alloc, scene.entry(rt, 2));
    let third = stream(rt, alloc, scene.entry(rt, 3));
    vec![in alloc; third, second].expect(rt, "memory")
}

// A server of one session, several times, to which these clients come: its answer, and the log at
// the end.
fn serves<R: Threads + Wait + Sync + Abort>(
    rt: &R,
    alloc: Global,
    scene: &Scene,
    words: &str,
    answer: (u8, &[u8]),
) {
    let sent = two_clients(rt, alloc, scene);
    let mut place = place_of(rt, alloc, scene, 1, HEAD, NONE);
    let (status, written) = run_all(rt, alloc, &mut place, words, sent.as_slice());
    let (expected, lines) = answer;
    check_answer(rt, words, (status, written.as_slice()), expected, lines);
    check(rt, "three in the log", has_log(rt, alloc, scene, &place, 3));
    check(rt, "no tail behind several", place.file("D.tail").is_none());
}

// Servers of a log of one entry, to which two clients come, and how they end.
const TIMES: [(&str, u8, &[u8]); 2] = [
    ("serve D a --sessions 1 --times 2", 0, b"log 2\nlog 3\n"),
    // no third one comes
    (
        "serve D a --sessions 1 --times 3",
        6,
        b"log 2\nlog 3\nlog 3\nfault outside\n",
    ),
];

// A server that can't save its log stops there, and leaves what it ordered in the tail.
fn unsaved_stays<R: Threads + Wait + Sync + Abort>(rt: &R, alloc: Global, scene: &Scene) {
    let sent = two_clients(rt, alloc, scene);
    let failing = Failing::at(Object::Files, 4);
    let mut place = place_of(rt, alloc, scene, 1, HEAD, failing);
    let words = "serve D a --sessions 1 --times 2";
    let (status, written) = run_all(rt, alloc, &mut place, words, sent.as_slice());
    let told = b"fault outside\n";
    check_answer(rt, "unsaved", (status, written.as_slice()), 6, told);
    check(rt, "old log", has_log(rt, alloc, scene, &place, 1));
    let tail = tail_of(rt, alloc, scene, &[(2, 2)]);
    check(rt, "tail", place.file("D.tail") == Some(tail.as_slice()));
    next_has(rt, alloc, scene, &mut place);
}

// The next server has it.
fn next_has<R: Threads + Wait + Sync + Abort>(
    rt: &R,
    alloc: Global,
    scene: &Scene,
    place: &mut Place,
) {
    let (status, written) = run_once(rt, alloc, place);
    check_answer(rt, "next", (status, written.as_slice()), 0, b"log 2\n");
    check(rt, "new log", has_log(rt, alloc, scene, place, 2));
    check(rt, "no tail", place.file("D.tail").is_none());
}

#[test]
fn a_server_serves_several_times(rt: HostRuntime) {
    let scene = Scene::new(&rt, rt.alloc());
    for (words, status, lines) in &TIMES {
        serves(&rt, rt.alloc(), &scene, words, (*status, *lines));
    }
    unsaved_stays(&rt, rt.alloc(), &scene);
}

// A server's place of two documents, of which the one has a log of one entry and a tail with the
// next, the other this tail.
fn place_of_two(rt: &impl Abort, alloc: Global, scene: &Scene, tail: &[u8], other: &[u8]) -> Place {
    let log = scene.log(rt, alloc, 1);
    let mut files = of_server(rt, alloc, &scene.cast, log.as_slice());
    add(rt, alloc, &mut files, "D.tail", tail);
    let genesis = other_genesis(rt, alloc, &scene.cast);
    files.push(genesis).expect(rt, "memory");
    add(rt, alloc, &mut files, "E.tail", other);
    Place::new(rt, alloc, files)
}

// Servers of both, to which two clients come that send nothing; the tail of the other document; and
// how they end.
const OF_TWO: [(&str, &[u8], u8, &[u8]); 3] = [
    (
        "serve-all a --sessions 2 D E",
        b"SPT1\x08\x08\x08\x08\x08\x08\x08\x08\x08\x08\x08\x08\x08\x08\x08\x08",
        0,
        b"log D 2\nlog E 0\n",
    ),
    (
        "serve-all a --sessions 1 --times 2 E D",
        b"",
        0,
        b"log E 0\nlog D 2\nlog E 0\nlog D 2\n",
    ),
    (
        "serve-all a --sessions 2 D E",
        HEAD,
        3,
        b"fault malformed E.tail 0\n",
    ),
];

// A server of both ends so. If it ends well no tail is left, else both are as they were.
fn serves_two<R: Threads + Wait + Sync + Abort>(
    rt: &R,
    alloc: Global,
    scene: &Scene,
    words: &str,
    other: &[u8],
    answer: (u8, &[u8]),
) {
    let (expected, lines) = answer;
    let tail = tail_of(rt, alloc, scene, &[(2, 2)]);
    let mut place = place_of_two(rt, alloc, scene, tail.as_slice(), other);
    let sent: Vec<Vec<u8>> = vec![in alloc; Vec::new(alloc), Vec::new(alloc)].expect(rt, "memory");
    let (status, written) = run_all(rt, alloc, &mut place, words, sent.as_slice());
    check_answer(rt, words, (status, written.as_slice()), expected, lines);
    let is_well = expected == 0;
    let len = if is_well { 2 } else { 1 };
    check(rt, words, has_log(rt, alloc, scene, &place, len));
    check(
        rt,
        words,
        has_tail(&place, "D.tail", tail.as_slice(), is_well),
    );
    check(rt, words, has_tail(&place, "E.tail", other, is_well));
}

// Whether a tail is gone, or as it was.
fn has_tail(place: &Place, name: &str, tail: &[u8], is_gone: bool) -> bool {
    match place.file(name) {
        Some(left) => !is_gone && is_same(left, tail),
        None => is_gone,
    }
}

#[test]
fn servers_of_two_documents_go_on(rt: HostRuntime) {
    let scene = Scene::new(&rt, rt.alloc());
    for (words, other, status, lines) in &OF_TWO {
        serves_two(&rt, rt.alloc(), &scene, words, other, (*status, *lines));
    }
}
