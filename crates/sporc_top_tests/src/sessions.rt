//! Sessions of a member beside an honest server, where a call of an object that `client` is handed
//! fails.

use crate::checks::{check, check_at};
use crate::document::{entries, history_file, of_member, of_server};
use crate::nets::FaultyNet;
use crate::place::{Failing, NONE, Object, Place, copied, file_in};
use sporc_base::is_same;
use sporc_memory::PipeNet;
use sporc_outside::NamedFile;
use sporc_samples::{Cast, DOCUMENT};
use sporc_store::read_saved;
use std::alloc::Global;
use std::process::Abort;
use std::sync::Wait;
use std::thread::{Threads, join};

/// The member's and the server's files before a session: both have one entry, and the block of its
/// leaf is taken.
#[derive(Drop)]
pub struct Scene {
    member: Vec<NamedFile>,
    server: Vec<NamedFile>,
}

impl Scene {
    // Of these entries.
    fn of(rt: &impl Abort, alloc: Global, cast: &Cast, entries: &[Vec<u8>]) -> Scene {
        let leaf = [1, 0, 0, 0, 0, 0, 0, 0];
        let history = history_file(rt, alloc, entries);
        let member = of_member(rt, alloc, cast, &leaf, history.as_slice());
        let server = of_server(rt, alloc, cast, history.as_slice());
        Scene { member, server }
    }

    /// Makes them.
    pub fn new(rt: &impl Abort, alloc: Global) -> Scene {
        let cast = Cast::new(alloc).expect(rt, "a cast");
        let sample = entries(rt, alloc, &cast, 2, 1);
        let scene = Scene::of(rt, alloc, &cast, sample.entries());
        drop(sample);
        drop(cast);
        scene
    }
}

// The status that a session ends with, and whether its last line tells that a call outside failed.
type Ended = (u8, bool);

// What the member runs, and calls the server once more in case it did not come to that.
fn work<R: Threads + Wait + Sync + Abort>(
    rt: &R,
    alloc: Global,
    member: &mut Place,
    net: &mut FaultyNet<&R>,
) -> Ended {
    let (status, written) = member.run(rt, alloc, net, "client D 2 a --rounds 3 insert");
    net.visit(rt);
    (status, written.as_slice().ends_with(b"fault outside\n"))
}

// Whether a server of one session ends well.
fn has_served<R: Threads + Wait + Sync + Abort>(
    rt: &R,
    alloc: Global,
    server: &mut Place,
    net: &mut PipeNet<&R>,
) -> bool {
    let (status, _) = server.run_piped(rt, alloc, net, "serve D a --sessions 1");
    status == 0
}

// A session beside a server of one session.
fn session<R: Threads + Wait + Sync + Abort>(
    rt: &R,
    alloc: Global,
    member: &mut Place,
    server: &mut Place,
    failing: Failing,
) -> Ended {
    let mut far = PipeNet::new(rt, alloc).expect(rt, "memory");
    let mut near = FaultyNet::new(rt, alloc, &far, failing);
    let (served, worked) = join(
        rt,
        || has_served(rt, alloc, server, &mut far),
        || work(rt, alloc, member, &mut near),
    );
    drop(near);
    drop(far);
    check(rt, "the server failed", served);
    worked
}

// Whether each block of leaves that was taken still is.
fn stay_taken(before: &[u8], after: &[u8]) -> bool {
    before.len() == after.len() && before.iter().zip(after).all(|(b, a)| *b == 0 || b == a)
}

// Whether the member's history is whole, with one entry or two, and with two if it was the printing
// that failed.
fn is_whole<R: Threads + Wait + Sync + Abort>(
    rt: &R,
    alloc: Global,
    member: &mut Place,
    object: Object,
) -> bool {
    let (status, written) = member.run_alone(rt, alloc, "check D 2");
    let is_new = is_same(written.as_slice(), b"checked 2\n");
    let is_old = is_same(written.as_slice(), b"checked 1\n");
    status == 0 && (is_new || is_old && !matches!(object, Object::Out))
}

// The number of the leaf that signed an entry.
fn leaf_of(entry: &[u8]) -> Option<u32> {
    match entry.get(63..67) {
        Some([a, b, c, d]) => Some(u32::from_be_bytes([*a, *b, *c, *d])),
        _ => None,
    }
}

// Whether each entry was signed by a later leaf than the one before, if all are member 2's.
fn leaves_rise(rt: &impl Abort, entries: &[Vec<u8>]) -> bool {
    let mut least = 0;
    for entry in entries {
        let leaf = leaf_of(entry.as_slice()).expect(rt, "a leaf");
        if leaf < least {
            return false;
        }
        least = leaf.saturating_add(1);
    }
    entries.len() > 1
}

// Whether each entry of a log was signed by a later leaf than the one before, if all are member
// 2's.
fn leaves_rise_in(rt: &impl Abort, alloc: Global, log: &[u8]) -> bool {
    let (entries, _) = read_saved(alloc, &DOCUMENT, log).expect(rt, "memory");
    let rise = leaves_rise(rt, entries.as_slice());
    drop(entries);
    rise
}

// Whether a session over the files that one left ends well, and the server's entries then have
// rising leaves.
fn works_on<R: Threads + Wait + Sync + Abort>(
    rt: &R,
    alloc: Global,
    member: &mut Place,
    server: &mut Place,
    object: Object,
) -> bool {
    if !is_whole(rt, alloc, member, object) {
        return false;
    }
    let (status, _) = session(rt, alloc, member, server, NONE);
    let log = server.file("D.log").expect(rt, "a log");
    status == 0 && leaves_rise_in(rt, alloc, log)
}

// Whether the files that a session left are as they should, and the member goes on with them.
fn goes_on<R: Threads + Wait + Sync + Abort>(
    rt: &R,
    alloc: Global,
    scene: &Scene,
    left: &[NamedFile],
    server: &mut Place,
    object: Object,
) -> bool {
    let before = file_in(scene.member.as_slice(), "D.2.leaf").expect(rt, "a leaf file");
    let after = file_in(left, "D.2.leaf").expect(rt, "a leaf file");
    if !stay_taken(before, after) {
        return false;
    }
    let mut member = Place::new(rt, alloc, copied(rt, alloc, left));
    let works = works_on(rt, alloc, &mut member, server, object);
    drop(member);
    works
}

// Whether the session of these two ends well, since the object has no call left that fails. Else
// the fault is told.
fn ends_well<R: Threads + Wait + Sync + Abort>(
    rt: &R,
    alloc: Global,
    scene: &Scene,
    member: &mut Place,
    server: &mut Place,
    object: Object,
    call: u64,
) -> bool {
    let failing = Failing::at(object, call);
    let (status, is_told) = session(rt, alloc, member, server, failing);
    let goes_on = goes_on(rt, alloc, scene, member.files.files(), server, object);
    check_at(rt, "on after call", call, goes_on);
    let is_well = status == 0;
    check_at(
        rt,
        "told of call",
        call,
        is_well || (status == 6 && is_told),
    );
    is_well
}

/// Whether it ends well over the scene's files, since the object has no call left that fails. Else
/// the fault is told.
pub fn ends_without<R: Threads + Wait + Sync + Abort>(
    rt: &R,
    alloc: Global,
    scene: &Scene,
    object: Object,
    call: u64,
) -> bool {
    let files = copied(rt, alloc, scene.member.as_slice());
    let mut member = Place::failing(rt, alloc, files, Failing::at(object, call));
    let mut server = Place::new(rt, alloc, copied(rt, alloc, scene.server.as_slice()));
    let ends = ends_well(rt, alloc, scene, &mut member, &mut server, object, call);
    drop(member);
    drop(server);
    ends
}
