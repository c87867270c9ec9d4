//! A history that is examined, in a folder that fails.

use super::folder::{Files, Room};
use crate::checks::{check_answer, check_same};
use sporc_commands::check;
use sporc_files::{Fault, File};
use sporc_member::Device;
use sporc_outside::OpenGate;
use sporc_samples::Cast;
use sporc_words::{Check, Word};
use std::alloc::Global;
use std::process::Abort;
use std::sync::Wait;
use std::thread::Threads;

// Member 2 examines its history.
fn examines<R: Threads + Wait + Sync + Abort>(
    rt: &R,
    alloc: Global,
    room: &mut Room,
    answer: Result<(), Fault>,
    line: &[u8],
) {
    let asked = Check {
        name: Word::new(alloc, "D").expect(rt, "memory"),
        device: Device::first(2),
    };
    let folder = &mut *room.folder;
    let found = check(rt, alloc, folder, &mut *room.out, &asked, &OpenGate);
    check_answer(rt, "check", found, answer);
    check_same(rt, "line of check", room.out.as_slice(), line);
}

// There is no history, and this call of the folder fails.
fn failing<R: Threads + Wait + Sync + Abort>(
    rt: &R,
    alloc: Global,
    cast: &Cast,
    call: u64,
    fault: Fault,
) {
    let mut room = Files::of_member(rt, alloc, cast).room(rt, alloc, call);
    examines(rt, alloc, &mut room, Err(fault), b"");
}

/// The fourth call looks for the history, and there is no fifth.
pub fn each_failing_call_is_told<R: Threads + Wait + Sync + Abort>(
    rt: &R,
    alloc: Global,
    cast: &Cast,
) {
    for call in 1..=4 {
        failing(rt, alloc, cast, call, Fault::Outside);
    }
    failing(
        rt,
        alloc,
        cast,
        5,
        Fault::Missing(File::History(Device::first(2))),
    );
}
