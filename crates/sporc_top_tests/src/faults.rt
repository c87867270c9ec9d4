//! Words that ask for nothing, and what is told if a read or a write of a play fails.

use crate::answers::{answer, answers};
use crate::checks::{check_answer, check_at};
use crate::place::{Failing, Object};
use sporc_base::is_same;
use std::alloc::Global;
use std::process::Abort;
use std::sync::Wait;
use std::thread::Threads;

const THIN: &str = "member 1 admin\nedit 1 insert 0 \"abc\"\nsubmit 1\ngive 1 1 1\nshow 1\n";

const THIN_REPORT: &str =
    "1 edit event 1\n1 submit entry 1\n1 accept 1 ok\n1 at 1 pending 0 text \"abc\"\n";

// Words that ask for nothing.
const OTHER_WORDS: [&str; 16] = [
    "paly",
    "",
    "play play",
    "Play",
    "play --generate",
    "play --generate 0",
    "play --generate 3001",
    "play --generate 01",
    "play --generate +1",
    "play --generate 1 1",
    "play --x",
    "keygen D 1 5",
    "check D 1 2",
    "serve-all a --sessions 1",
    "serve-all a --sessions 0 D",
    "serve-all a D",
];

fn other_words_ask_for_nothing<R: Threads + Wait + Sync + Abort>(rt: &R, alloc: Global) {
    for words in &OTHER_WORDS {
        let script = THIN.as_bytes();
        answers(rt, alloc, *words, *words, script, 2, b"fault words\n");
    }
}

// The status stays if the second write of four bytes fails, and with it the line.
fn keeps<R: Threads + Wait + Sync + Abort>(
    rt: &R,
    alloc: Global,
    word: &str,
    script: &[u8],
    status: u8,
) {
    let (got, written) = answer(rt, alloc, word, script, 4, 0, 2);
    check_answer(rt, word, (got, written.as_slice()), status, b"faul");
}

#[test]
fn words_ask_for_nothing_and_statuses_stay(rt: HostRuntime) {
    other_words_ask_for_nothing(&rt, rt.alloc());
    keeps(&rt, rt.alloc(), "paly", b"", 2);
    keeps(&rt, rt.alloc(), "play", b"x", 3);
}

// Whether this is how a play ends none of whose calls failed.
fn is_well(status: u8, written: &[u8]) -> bool {
    status == 0 && is_same(written, THIN_REPORT.as_bytes())
}

// Whether this is how a play ends one of whose calls failed: the fault alone if it was a read, and
// else the fault after a prefix of the report.
fn is_told(object: Object, status: u8, written: &[u8]) -> bool {
    let Some(prefix) = written.strip_suffix(b"fault outside\n".as_slice()) else {
        return false;
    };
    let is_prefix = match object {
        Object::Out => THIN_REPORT.as_bytes().starts_with(prefix),
        _ => prefix.is_empty(),
    };
    is_prefix && status == 6
}

/// Whether a short play, which moves seven bytes a call, ends well, since the object has no call
/// left that fails. Else the fault is told.
pub fn ends_without<R: Threads + Wait + Sync + Abort>(
    rt: &R,
    alloc: Global,
    object: Object,
    call: u64,
) -> bool {
    let Failing { source, out, .. } = Failing::at(object, call);
    let (status, written) = answer(rt, alloc, "play", THIN.as_bytes(), 7, source, out);
    let is_well = is_well(status, written.as_slice());
    let is_told = is_told(object, status, written.as_slice());
    check_at(rt, "told of call", call, is_well || is_told);
    is_well
}
