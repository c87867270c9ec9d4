//! What a run answers over a script, an empty folder, a chance without words and a net without
//! links.

ghost use Rattle.std.specs.Prelude.{◌<◌};

use crate::checks::check_answer;
use crate::place::{Answer, Streams, few_words};
use sporc_memory::{Calls, ListedChance, MemoryFolder, MemoryNet};
use sporc_outside::OpenGate;
use sporc_top::run;
use std::alloc::Global;
use std::process::Abort;
use std::sync::Wait;
use std::thread::Threads;

// Calls none of which fails.
fn sound(alloc: Global) -> Calls {
    Calls::failing(Vec::new(alloc))
}

// The status, if these are the words.
fn status<R: Threads + Wait + Sync>(
    rt: &R,
    alloc: Global,
    words: &[String],
    streams: &mut Streams,
) -> u8 {
    let mut net = MemoryNet::new(alloc, Vec::new(alloc), sound(alloc));
    let mut files = MemoryFolder::new(alloc, Vec::new(alloc), sound(alloc));
    let mut chance = ListedChance::new(Vec::new(alloc), sound(alloc));
    let status = run(
        rt,
        alloc,
        words,
        &mut *streams.source,
        &mut *streams.out,
        &mut files,
        &mut net,
        &mut chance,
        &OpenGate,
    );
    drop(net);
    drop(files);
    drop(chance);
    status
}

// The status and what is written, if the words are those of a line.
fn answer_over<R: Threads + Wait + Sync + Abort>(
    rt: &R,
    alloc: Global,
    words: &str,
    streams: &mut Streams,
) -> Answer {
    let words = few_words(rt, alloc, words);
    let status = status(rt, alloc, words.as_slice(), streams);
    drop(words);
    (status, streams.written(rt, alloc))
}

/// The answer over this script, if the source and the sink move at most `piece` bytes a call, and
/// their calls of these numbers fail.
pub fn answer<R: Threads + Wait + Sync + Abort>(
    rt: &R,
    alloc: Global,
    words: &str,
    script: &[u8],
    piece: usize,
    read_failing: u64,
    write_failing: u64,
) -> Answer
    requires { 0 < piece }
{
    let mut streams = Streams::new(rt, alloc, script, piece, read_failing, write_failing);
    let answer = answer_over(rt, alloc, words, &mut streams);
    drop(streams);
    answer
}

/// The words and the script of this row are answered so, if nothing fails.
pub fn answers<R: Threads + Wait + Sync + Abort>(
    rt: &R,
    alloc: Global,
    row: &str,
    words: &str,
    script: &[u8],
    status: u8,
    report: &[u8],
) {
    let (got, written) = answer(rt, alloc, words, script, 1 << 20, 0, 0);
    check_answer(rt, row, (got, written.as_slice()), status, report);
}
