//! What a test asserts. A failure names what was compared.

use std::process::Abort;

/// Stops the test unless this holds.
pub fn check(rt: &impl Abort, what: &str, holds: bool) {
    assert!(rt; holds, "{what}");
}

/// Stops the test unless a row is answered so.
pub fn check_answer(rt: &impl Abort, row: &str, found: &str, answer: &str) {
    assert!(rt; found == answer, "{row}: {found}");
}
