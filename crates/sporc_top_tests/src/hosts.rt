//! Two documents that are served, where a call of an object that `serve-all` is handed fails.

use crate::checks::check_at;
use crate::document::{other_genesis, other_log};
use crate::nets::run_listed;
use crate::place::{Failing, Object, Place, copied};
use crate::servers;
use sporc_base::is_same;
use sporc_outside::NamedFile;
use sporc_samples::Cast;
use std::alloc::Global;
use std::process::Abort;
use std::sync::Wait;
use std::thread::Threads;

/// A server's scene of one document, its files beside those of another document, `E`, and the log
/// of that without an entry.
#[derive(Drop)]
pub struct Scene {
    one: servers::Scene,
    files: Vec<NamedFile>,
    empty: Vec<u8>,
}

impl Scene {
    /// Makes them.
    pub fn new(rt: &impl Abort, alloc: Global) -> Scene {
        let one = servers::Scene::new(rt, alloc);
        let mut files = copied(rt, alloc, one.files.as_slice());
        let cast = Cast::new(alloc).expect(rt, "a cast");
        let genesis = other_genesis(rt, alloc, &cast);
        drop(cast);
        files.push(genesis).expect(rt, "memory");
        let empty = other_log(rt, alloc);
        Scene { one, files, empty }
    }
}

// The lines where all goes well.
const WELL: &[u8] = b"log D 2\nlog E 0\n";

// Those where the session brings nothing.
const NOTHING: &[u8] = b"log D 1\nlog E 0\n";

// What is written where this call of an object fails. Of each document genesis, tail and log are
// opened first, and one of these that fails is told alone. Then each log is saved and told, also if
// the one before it was not, and both tails are removed; the fault comes last.
fn fault_lines(object: Object, call: u64) -> &'static [u8] {
    match object {
        Object::Files | Object::Tail if call <= 6 => b"fault outside\n",
        Object::Files if call == 7 => b"log E 0\nfault outside\n",
        Object::Files if call >= 9 => b"log D 2\nlog E 0\nfault outside\n",
        Object::Out if call == 1 => b"log E 0\nfault outside\n",
        Object::Files | Object::Out => b"log D 2\nfault outside\n",
        _ => b"log D 1\nlog E 0\nfault outside\n",
    }
}

// Whether this is how a server ends one of whose calls failed. A link that fails ends its session
// alone.
fn is_told(object: Object, call: u64, status: u8, written: &[u8]) -> bool {
    match object {
        Object::Link => status == 0 && (is_same(written, WELL) || is_same(written, NOTHING)),
        _ => status == 6 && is_same(written, fault_lines(object, call)),
    }
}

// Whether a file has these bytes.
fn has(place: &Place, name: &str, bytes: &[u8]) -> bool {
    place.file(name) == Some(bytes)
}

// Whether each log stands as it was, or is the new one, whole; and as its line says, if it has one.
fn are_whole(scene: &Scene, place: &Place, written: &[u8]) -> bool {
    let is_new = has(place, "D.log", scene.one.new.as_slice());
    let is_old = has(place, "D.log", scene.one.old.as_slice());
    let is_empty = has(place, "E.log", scene.empty.as_slice());
    let is_first = if written.starts_with(b"log D 2\n") {
        is_new
    } else if written.starts_with(b"log D 1\n") {
        is_old
    } else {
        is_new || is_old
    };
    let is_second = is_empty || (place.file("E.log").is_none() && !has_second_line(written));
    is_first && is_second
}

// Whether the line of the second log was written.
fn has_second_line(written: &[u8]) -> bool {
    written.starts_with(b"log E 0\n") || written.starts_with(WELL) || written.starts_with(NOTHING)
}

// Whether a server over this place ends well, since the object has no call left that fails. Else
// the fault is told.
fn ends_well<R: Threads + Wait + Sync + Abort>(
    rt: &R,
    alloc: Global,
    scene: &Scene,
    place: &mut Place,
    object: Object,
    call: u64,
) -> bool {
    let words = "serve-all a --sessions 1 D E";
    let failing = Failing::at(object, call);
    let sent = scene.one.stream.as_slice();
    let ((status, written), is_quiet) = run_listed(rt, alloc, place, words, sent, failing);
    let are_whole = are_whole(scene, place, written.as_slice());
    check_at(rt, "whole after call", call, are_whole);
    let is_well = status == 0 && is_quiet;
    let is_all = is_well && is_same(written.as_slice(), WELL);
    let is_told = is_told(object, call, status, written.as_slice());
    check_at(rt, "told of call", call, is_all || is_told);
    is_well
}

/// Whether it ends well over the scene's files, since the object has no call left that fails. Else
/// the fault is told.
pub fn ends_without<R: Threads + Wait + Sync + Abort>(
    rt: &R,
    alloc: Global,
    scene: &Scene,
    object: Object,
    call: u64,
) -> bool {
    let files = copied(rt, alloc, scene.files.as_slice());
    let mut place = Place::failing(rt, alloc, files, Failing::at(object, call));
    let ends = ends_well(rt, alloc, scene, &mut place, object, call);
    drop(place);
    ends
}
