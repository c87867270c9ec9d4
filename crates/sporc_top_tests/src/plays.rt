//! The longest script that is read, and the generated run.

use crate::answers::{answer, answers};
use crate::checks::check;
use sporc_play::MAX_SCRIPT;
use std::alloc::Global;
use std::process::Abort;
use std::sync::Wait;
use std::thread::Threads;

fn reads_scripts_up_to_a_size<R: Threads + Wait + Sync + Abort>(rt: &R, alloc: Global) {
    let mut script = vec![in alloc; b'#'; MAX_SCRIPT].expect(rt, "memory");
    answers(rt, alloc, "longest", "play", script.as_slice(), 0, b"");
    script.push(b'\n').expect(rt, "memory");
    let report = b"fault too long script\n";
    answers(rt, alloc, "longer", "play", script.as_slice(), 3, report);
}

// 13 whole batches of 66 remove, 39 characters in all; the other 161 edits insert one each.
const SUMMARY: &[u8] = b"clients 3 entries 200 characters 122 same ";

// Whether this is a summary with a digest and an LF behind it.
fn is_summary(written: &[u8]) -> bool {
    match written.strip_prefix(SUMMARY) {
        Some(hash) => hash.len() == 65,
        None => false,
    }
}

fn a_generated_run_has_one_summary<R: Threads + Wait + Sync + Abort>(rt: &R, alloc: Global) {
    let words = "play --generate 200";
    let (status, written) = answer(rt, alloc, words, b"", 1 << 20, 0, 0);
    check(rt, words, status == 0);
    check(rt, "summary", is_summary(written.as_slice()));
    answers(rt, alloc, "again", words, b"", 0, written.as_slice());
}

#[test]
fn long_scripts_and_generated_runs_are_played(rt: HostRuntime) {
    reads_scripts_up_to_a_size(&rt, rt.alloc());
    a_generated_run_has_one_summary(&rt, rt.alloc());
}
