//! What stops a test. An assertion is proved anew wherever it stands, so each stands here once, but
//! for those whose condition a call requires.

use sporc_base::is_same;
use std::process::Abort;

/// Stops the test unless this holds.
pub fn check(rt: &impl Abort, what: &str, holds: bool) {
    assert!(rt; holds, "{what}");
}

/// Stops the test unless this holds of the one with this number: a call, or a status.
pub fn check_at(rt: &impl Abort, what: &str, number: u64, holds: bool) {
    assert!(rt; holds, "{what} {number}");
}

/// Stops the test unless a run ended with this status, and wrote this.
pub fn check_answer(rt: &impl Abort, what: &str, found: (u8, &[u8]), status: u8, written: &[u8]) {
    let (found_status, found_written) = found;
    check(rt, what, is_same(found_written, written));
    check_at(rt, what, u64::from(found_status), found_status == status);
}
