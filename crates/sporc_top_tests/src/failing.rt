//! Each object that a command is handed fails at each of its calls in turn. The tables of a
//! session, which is handed links and disks themselves, are those of
//! `sporc_thread_tests/src/shared/session_faults.rt`, over the same loop.

use crate::checks::check_at;
use crate::place::Object;
use crate::{faults, hosts, servers, sessions};
use sporc_samples::count_calls;
use std::alloc::Global;
use std::process::Abort;
use std::sync::Wait;
use std::thread::Threads;

// A command over objects that are made anew for each run.
#[derive(Drop)]
enum Command {
    Play,
    Serve(servers::Scene),
    Client(sessions::Scene),
    ServeAll(hosts::Scene),
}

// Whether a run ends well where this call of an object is to fail, since it makes no such call.
// Else the fault is told, and what the run leaves is whole.
fn ends_without<R: Threads + Wait + Sync + Abort>(
    rt: &R,
    alloc: Global,
    command: &Command,
    object: Object,
    call: u64,
) -> bool {
    match command {
        Command::Play => faults::ends_without(rt, alloc, object, call),
        Command::Serve(scene) => servers::ends_without(rt, alloc, scene, object, call),
        Command::Client(scene) => sessions::ends_without(rt, alloc, scene, object, call),
        Command::ServeAll(scene) => hosts::ends_without(rt, alloc, scene, object, call),
    }
}

// How many calls of an object a command makes: each of them was let fail.
fn calls_of<R: Threads + Wait + Sync + Abort>(
    rt: &R,
    alloc: Global,
    command: &Command,
    object: Object,
) -> u64 {
    count_calls(|call| ends_without(rt, alloc, command, object, call)).expect(rt, "an end")
}

// An object, and how many calls of it a command makes at least and at most.
type Row = (Object, u64, u64);

// Lets each call of each of these objects fail.
fn tells_each<R: Threads + Wait + Sync + Abort>(
    rt: &R,
    alloc: Global,
    command: &Command,
    rows: &[Row],
) {
    for (object, least, most) in rows {
        let made = calls_of(rt, alloc, command, *object);
        check_at(rt, "calls", made, *least <= made && made <= *most);
    }
}

const PLAY: [Row; 2] = [
    // ten reads of at most seven bytes bring the script's 64, and one finds its end
    (Object::Source, 11, 11),
    // lines of 15, 17, 14 and 28 bytes
    (Object::Out, 12, 12),
];

const SERVE: [Row; 8] = [
    // genesis and log are read, the tail is opened before the log, the log is written, and the tail
    // removed
    (Object::Files, 5, 5),
    // the empty tail is synced, read, cut and synced; its head is appended and synced, and so is
    // the entry
    (Object::Tail, 8, 8),
    (Object::Out, 1, 1),
    // it listens, and takes the link
    (Object::Net, 2, 2),
    // three messages are read in three pieces, then their end, and two answers are written
    (Object::Link, 6, 9),
    (Object::Source, 0, 0),
    (Object::Disk, 0, 0),
    (Object::Chance, 0, 0),
];

const CLIENT: [Row; 7] = [
    // genesis, key, ring, script, leaf disk and history are read, and the history is written
    (Object::Files, 7, 7),
    // the leaf file is opened by three calls, and its next block is written and synced
    (Object::Disk, 5, 5),
    // journal and report
    (Object::Out, 2, 20),
    // each submission draws two words, and each phase has at most three
    (Object::Chance, 6, 24),
    (Object::Net, 1, 1),
    // Hello, four messages and their answers, which come in pieces
    (Object::Link, 9, 99),
    (Object::Source, 0, 0),
];

const SERVE_ALL: [Row; 8] = [
    // genesis and log of both documents are read and both tails opened, both logs are written, and
    // both tails removed
    (Object::Files, 10, 10),
    // the tail of the first one, as of one document
    (Object::Tail, 8, 8),
    // a line for each
    (Object::Out, 2, 2),
    // as of one document
    (Object::Net, 2, 2),
    (Object::Link, 6, 9),
    (Object::Source, 0, 0),
    (Object::Disk, 0, 0),
    (Object::Chance, 0, 0),
];

#[test]
fn each_call_of_a_play_that_fails_is_told(rt: HostRuntime) {
    tells_each(&rt, rt.alloc(), &Command::Play, &PLAY);
}

#[test]
fn each_call_of_a_server_that_fails_is_told(rt: HostRuntime) {
    let server = Command::Serve(servers::Scene::new(&rt, rt.alloc()));
    tells_each(&rt, rt.alloc(), &server, &SERVE);
}

#[test]
fn each_call_of_a_client_that_fails_is_told(rt: HostRuntime) {
    let member = Command::Client(sessions::Scene::new(&rt, rt.alloc()));
    tells_each(&rt, rt.alloc(), &member, &CLIENT);
}

#[test]
fn each_call_of_a_server_of_documents_that_fails_is_told(rt: HostRuntime) {
    let server = Command::ServeAll(hosts::Scene::new(&rt, rt.alloc()));
    tells_each(&rt, rt.alloc(), &server, &SERVE_ALL);
}
