//! What stops a test. An assertion is proved anew wherever it stands, so each stands here once, but
//! for those whose condition a call requires.

use sporc_base::is_same;
use sporc_files::Fault;
use sporc_store::Stop;
use std::process::Abort;

/// Stops the test unless this holds.
pub fn check(rt: &impl Abort, what: &str, holds: bool) {
    assert!(rt; holds, "{what}");
}

/// Stops the test unless this holds of the one with this number: a call, or a place.
pub fn check_at(rt: &impl Abort, what: &str, number: u64, holds: bool) {
    assert!(rt; holds, "{what} {number}");
}

/// Stops the test unless these bytes are the same.
pub fn check_same(rt: &impl Abort, what: &str, found: &[u8], expected: &[u8]) {
    check(rt, what, is_same(found, expected));
}

/// Stops the test unless a command answered so.
pub fn check_answer(
    rt: &impl Abort,
    what: &str,
    found: Result<(), Fault>,
    answer: Result<(), Fault>,
) {
    check(rt, what, found == answer);
}

/// Stops the test unless a reading stopped so.
pub fn check_stop(rt: &impl Abort, what: &str, number: u64, found: Stop, stop: Stop) {
    check_at(rt, what, number, found == stop);
}
