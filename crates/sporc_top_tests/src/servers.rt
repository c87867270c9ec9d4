//! Sessions that are served, where a call of an object that `serve` is handed fails.

use crate::bytes::{append, bytes_of};
use crate::checks::{check, check_answer, check_at};
use crate::document::{entries, history_file, of_server};
use crate::nets::run_listed;
use crate::place::{Answer, Failing, NONE, Object, Place, copied};
use sporc_base::is_same;
use sporc_outside::NamedFile;
use sporc_samples::Cast;
use std::alloc::Global;
use std::process::Abort;
use std::sync::Wait;
use std::thread::Threads;

/// The server's files before a session, the log of one entry that it has before, that of two that
/// it has at the end, and what a client sends that submits the second one.
#[derive(Drop)]
pub struct Scene {
    pub files: Vec<NamedFile>,
    pub old: Vec<u8>,
    pub new: Vec<u8>,
    pub stream: Vec<u8>,
}

/// Hello, an entry, and a pull.
pub fn stream(rt: &impl Abort, alloc: Global, entry: &[u8]) -> Vec<u8> {
    let len = u32::try_from(entry.len().saturating_add(1)).unwrap_or(u32::MAX);
    let mut stream = bytes_of(rt, alloc, b"\0\0\0\x13\x01");
    append(rt, &mut stream, &[7; 16]);
    append(rt, &mut stream, b"\0\x02");
    append(rt, &mut stream, &len.to_be_bytes());
    append(rt, &mut stream, &[2]);
    append(rt, &mut stream, entry);
    append(rt, &mut stream, b"\0\0\0\x05\x03\0\0\0\x02");
    stream
}

impl Scene {
    // Of these two entries.
    fn of(rt: &impl Abort, alloc: Global, cast: &Cast, entries: &[Vec<u8>]) -> Scene {
        let first = entries.get(..1).expect(rt, "an entry");
        let second = entries.get(1).expect(rt, "an entry");
        let old = history_file(rt, alloc, first);
        let new = history_file(rt, alloc, entries);
        let stream = stream(rt, alloc, second.as_slice());
        let files = of_server(rt, alloc, cast, old.as_slice());
        Scene {
            files,
            old,
            new,
            stream,
        }
    }

    /// Makes them.
    pub fn new(rt: &impl Abort, alloc: Global) -> Scene {
        let cast = Cast::new(alloc).expect(rt, "a cast");
        let sample = entries(rt, alloc, &cast, 2, 2);
        let scene = Scene::of(rt, alloc, &cast, sample.entries());
        drop(sample);
        drop(cast);
        scene
    }
}

// How a server of one session ended, and whether no call of its link failed.
#[derive(Drop)]
struct Ended {
    status: u8,
    written: Vec<u8>,
    is_quiet: bool,
}

// A server of one session, to which the client comes.
fn served<R: Threads + Wait + Sync + Abort>(
    rt: &R,
    alloc: Global,
    scene: &Scene,
    place: &mut Place,
    failing: Failing,
) -> Ended {
    let words = "serve D a --sessions 1";
    let sent = scene.stream.as_slice();
    let ((status, written), is_quiet) = run_listed(rt, alloc, place, words, sent, failing);
    Ended {
        status,
        written,
        is_quiet,
    }
}

// Whether the log is the old one or the new one, whole.
fn is_whole(scene: &Scene, place: &Place) -> bool {
    match place.file("D.log") {
        Some(log) => log == scene.old.as_slice() || log == scene.new.as_slice(),
        None => false,
    }
}

// Whether a server over what is left, to which a client comes that sends nothing, has what was
// ordered: both entries where the log has them, or where it could not be written, since the tail
// has the second one then.
fn keeps<R: Threads + Wait + Sync + Abort>(
    rt: &R,
    alloc: Global,
    left: &[NamedFile],
    has_both: bool,
) -> bool {
    let mut place = Place::new(rt, alloc, copied(rt, alloc, left));
    let words = "serve D a --sessions 1";
    let ((status, written), _) = run_listed(rt, alloc, &mut place, words, b"", NONE);
    drop(place);
    let line: &[u8] = if has_both { b"log 2\n" } else { b"log 1\n" };
    status == 0 && is_same(written.as_slice(), line)
}

// Whether both entries are in the log, or the call that failed was the one that writes it.
fn has_both(scene: &Scene, place: &Place, object: Object, call: u64) -> bool {
    let is_unsaved = matches!(object, Object::Files) && call == 4;
    is_unsaved || place.file("D.log") == Some(scene.new.as_slice())
}

// Whether a server over what is left has both entries at the end.
fn goes_on<R: Threads + Wait + Sync + Abort>(
    rt: &R,
    alloc: Global,
    scene: &Scene,
    left: &[NamedFile],
) -> bool {
    let mut place = Place::new(rt, alloc, copied(rt, alloc, left));
    let ended = served(rt, alloc, scene, &mut place, NONE);
    let is_new = place.file("D.log") == Some(scene.new.as_slice());
    drop(place);
    is_new && ended.status == 0 && is_same(ended.written.as_slice(), b"log 2\n")
}

// Whether this is how a server ends none of whose calls failed.
fn is_well(ended: &Ended) -> bool {
    ended.status == 0 && ended.is_quiet
}

// What is written where this call of an object fails. Once the tail is open, the log is saved and
// told before the fault, whatever came of the sessions, and the tail is removed behind that.
fn fault_lines(object: Object, call: u64) -> &'static [u8] {
    match object {
        Object::Files if call == 5 => b"log 2\nfault outside\n",
        Object::Tail if call <= 6 => b"fault outside\n",
        Object::Tail | Object::Net => b"log 1\nfault outside\n",
        _ => b"fault outside\n",
    }
}

// Whether this is how a server ends one of whose calls failed. A link that fails ends its session
// alone.
fn is_told(object: Object, call: u64, ended: &Ended) -> bool {
    let written = ended.written.as_slice();
    match object {
        Object::Link => {
            ended.status == 0 && (is_same(written, b"log 1\n") || is_same(written, b"log 2\n"))
        }
        _ => ended.status == 6 && is_same(written, fault_lines(object, call)),
    }
}

// Whether a server over this place ends well, since the object has no call left that fails. Else
// the fault is told.
fn ends_well<R: Threads + Wait + Sync + Abort>(
    rt: &R,
    alloc: Global,
    scene: &Scene,
    place: &mut Place,
    object: Object,
    call: u64,
) -> bool {
    let ended = served(rt, alloc, scene, place, Failing::at(object, call));
    check_at(rt, "whole after call", call, is_whole(scene, place));
    let has_both = has_both(scene, place, object, call);
    let keeps = keeps(rt, alloc, place.files.files(), has_both);
    check_at(rt, "kept after call", call, keeps);
    let goes_on = goes_on(rt, alloc, scene, place.files.files());
    check_at(rt, "on after call", call, goes_on);
    let is_well = is_well(&ended);
    let is_told = is_told(object, call, &ended);
    check_at(rt, "told of call", call, is_well || is_told);
    is_well
}

/// Whether it ends well over the scene's files, since the object has no call left that fails. Else
/// the fault is told.
pub fn ends_without<R: Threads + Wait + Sync + Abort>(
    rt: &R,
    alloc: Global,
    scene: &Scene,
    object: Object,
    call: u64,
) -> bool {
    let files = copied(rt, alloc, scene.files.as_slice());
    let mut place = Place::failing(rt, alloc, files, Failing::at(object, call));
    let ends = ends_well(rt, alloc, scene, &mut place, object, call);
    drop(place);
    ends
}

// A server of two sessions is left by the first and has no other link to take.
fn is_left<R: Threads + Wait + Sync + Abort>(
    rt: &R,
    alloc: Global,
    scene: &Scene,
    place: &mut Place,
) -> Answer {
    let words = "serve D a --sessions 2";
    let (answer, _) = run_listed(rt, alloc, place, words, scene.stream.as_slice(), NONE);
    answer
}

// What the first session brought is saved and told, and then the fault.
fn is_saved_and_told<R: Threads + Wait + Sync + Abort>(
    rt: &R,
    alloc: Global,
    scene: &Scene,
    place: &mut Place,
) {
    let (status, written) = is_left(rt, alloc, scene, place);
    let told = b"log 2\nfault outside\n";
    check_answer(rt, "an accept", (status, written.as_slice()), 6, told);
    let is_new = place.file("D.log") == Some(scene.new.as_slice());
    check(rt, "the log", is_new);
}

#[test]
fn a_server_whose_accept_fails_saves_what_came(rt: HostRuntime) {
    let scene = Scene::new(&rt, rt.alloc());
    let files = copied(&rt, rt.alloc(), scene.files.as_slice());
    let mut place = Place::new(&rt, rt.alloc(), files);
    is_saved_and_told(&rt, rt.alloc(), &scene, &mut place);
}
