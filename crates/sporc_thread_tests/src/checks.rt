//! What stops a test. An assertion is proved wherever it stands, so each stands here once.

use sporc_session::SessionFault;
use std::process::Abort;

/// Stops the test unless this holds.
pub fn check(rt: &impl Abort, what: &str, holds: bool) {
    assert!(rt; holds, "{what}");
}

/// Stops the test unless this holds of the one with this number.
pub fn check_at(rt: &impl Abort, what: &str, number: u64, holds: bool) {
    assert!(rt; holds, "{what} {number}");
}

/// Stops the test unless a text is as it is to be.
pub fn check_text(rt: &impl Abort, found: &str, wanted: &str) {
    assert!(rt; found == wanted, "the text {found}");
}

/// Stops the test unless a session ended by this fault, or well if there is none.
pub fn check_end(rt: &impl Abort, found: Option<SessionFault>, fault: Option<SessionFault>) {
    assert!(rt; found == fault, "{found:?} in place of {fault:?}");
}
