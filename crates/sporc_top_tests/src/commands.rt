//! Commands one after the other, and members who work with a server in another thread.

use crate::checks::check;
use crate::place::{Place, named};
use sporc_base::is_same;
use sporc_memory::PipeNet;
use std::alloc::Global;
use std::process::Abort;
use std::sync::Wait;
use std::thread::{Threads, join};

// The public key of member 1, whose identifier is 16 bytes 0 and whose seed 32 bytes 1, by a Python
// program.
const FIRST_KEY: &[u8] =
    b"key 00000005000000030000000000000000000000000000000021619ca96c7979649f4b1f489a20433d225d7fcd457b4f7b3e8fb37b84b0c6ed\n";

fn is_done(status: u8, written: &[u8], end: &[u8]) -> bool {
    status == 0 && written.ends_with(end)
}

fn is_stopped(status: u8, written: &[u8], line: &[u8]) -> bool {
    status == 3 && is_same(written, line)
}

// A command that is done: what it writes ends with this.
fn does<R: Threads + Wait + Sync + Abort>(
    rt: &R,
    alloc: Global,
    place: &mut Place,
    words: &str,
    end: &[u8],
) {
    let (status, written) = place.run_alone(rt, alloc, words);
    check(rt, words, is_done(status, written.as_slice(), end));
}

// A command that is stopped by a fault with this line.
fn fails<R: Threads + Wait + Sync + Abort>(
    rt: &R,
    alloc: Global,
    place: &mut Place,
    words: &str,
    line: &[u8],
) {
    let (status, written) = place.run_alone(rt, alloc, words);
    check(rt, words, is_stopped(status, written.as_slice(), line));
}

// A place with one file.
fn place_with(rt: &impl Abort, alloc: Global, name: &str, bytes: &[u8]) -> Place {
    let file = named(rt, alloc, name, bytes);
    let files = vec![in alloc; file].expect(rt, "memory");
    Place::new(rt, alloc, files)
}

// Two keys, and the document of their members.
fn founded<R: Threads + Wait + Sync + Abort>(rt: &R, alloc: Global, place: &mut Place) {
    does(rt, alloc, place, "keygen D 1 5 4", FIRST_KEY);
    does(rt, alloc, place, "keygen D 2 5 4", b"\n");
    does(rt, alloc, place, "public D 1", FIRST_KEY);
    does(rt, alloc, place, "found D 1:admin 2:editor", b"");
}

// Files that are there, or missing.
fn faults_are_told<R: Threads + Wait + Sync + Abort>(rt: &R, alloc: Global, place: &mut Place) {
    fails(
        rt,
        alloc,
        place,
        "keygen D 1 5 4",
        b"fault exists D.1.key\n",
    );
    fails(rt, alloc, place, "check D 7", b"fault missing D.7.key\n");
    fails(rt, alloc, place, "client D 1 a T", b"fault missing T\n");
}

// Whether these bytes stand in what was written.
fn has_line(written: &[u8], line: &[u8]) -> bool {
    if line.is_empty() {
        return false;
    }
    written.windows(line.len()).any(|w| w == line)
}

// Whether a session ends well, and writes this line.
fn has_worked<R: Threads + Wait + Sync + Abort>(
    rt: &R,
    alloc: Global,
    place: &mut Place,
    net: &mut PipeNet<&R>,
    words: &str,
    line: &[u8],
) -> bool {
    let (status, written) = place.run_piped(rt, alloc, net, words);
    status == 0 && has_line(written.as_slice(), line)
}

// Whether both members' sessions do, one after the other.
fn have_worked<R: Threads + Wait + Sync + Abort>(
    rt: &R,
    alloc: Global,
    place: &mut Place,
    net: &mut PipeNet<&R>,
) -> bool {
    let first = "client D 1 a --until 1 S";
    let line = b"\n1 at 1 pending 0 text \"hello\"\n";
    let has_first = has_worked(rt, alloc, place, net, first, line);
    let second = "client D 2 a --until 1";
    let line = b"\n2 at 1 pending 0 text \"hello\"\n";
    has_worked(rt, alloc, place, net, second, line) && has_first
}

// Whether a server ends well, and writes these lines.
fn has_served<R: Threads + Wait + Sync + Abort>(
    rt: &R,
    alloc: Global,
    place: &mut Place,
    net: &mut PipeNet<&R>,
    words: &str,
    lines: &[u8],
) -> bool {
    let (status, written) = place.run_piped(rt, alloc, net, words);
    status == 0 && is_same(written.as_slice(), lines)
}

// Both members work with the server, one after the other.
fn work_together<R: Threads + Wait + Sync + Abort>(
    rt: &R,
    alloc: Global,
    members: &mut Place,
    server: &mut Place,
) {
    let mut net = PipeNet::new(rt, alloc).expect(rt, "memory");
    let mut near = net.another().expect(rt, "memory");
    let words = "serve D a --sessions 2";
    let (served, worked) = join(
        rt,
        || has_served(rt, alloc, server, &mut net, words, b"log 1\n"),
        || have_worked(rt, alloc, members, &mut near),
    );
    drop(near);
    drop(net);
    check(rt, "server", served);
    check(rt, "members", worked);
}

// Members with a document work with a server that has its genesis.
fn share_a_document<R: Threads + Wait + Sync + Abort>(rt: &R, alloc: Global, members: &mut Place) {
    let genesis = members.file("D.genesis").expect(rt, "a genesis");
    let mut server = place_with(rt, alloc, "D.genesis", genesis);
    work_together(rt, alloc, members, &mut server);
    drop(server);
    does(rt, alloc, members, "compare D 1 2", b"1 2 same\n");
    does(rt, alloc, members, "check D 2", b"checked 1\n");
}

#[test]
fn members_found_a_document_and_work_with_a_server(rt: HostRuntime) {
    let alloc = rt.alloc();
    let mut members = place_with(&rt, alloc, "S", b"insert 0 \"hello\"\n");
    founded(&rt, alloc, &mut members);
    faults_are_told(&rt, alloc, &mut members);
    share_a_document(&rt, alloc, &mut members);
}
