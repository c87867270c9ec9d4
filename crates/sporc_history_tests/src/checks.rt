//! What a test asserts. A failure names what was compared.

use sporc_base::is_same;
use sporc_head::Refusal;
use std::process::Abort;

/// Stops the test unless this holds.
pub fn check(rt: &impl Abort, what: &str, holds: bool) {
    assert!(rt; holds, "{what}");
}

/// Stops the test unless this holds of one of several, which has this number.
pub fn check_at(rt: &impl Abort, what: &str, number: u64, holds: bool) {
    assert!(rt; holds, "{what} {number}");
}

/// Stops the test unless the bytes are the wanted ones.
pub fn check_bytes(rt: &impl Abort, what: &str, found: &[u8], wanted: &[u8]) {
    check(rt, what, is_same(found, wanted));
}

/// Whether what was found is this refusal.
pub fn is_refusal(found: Option<Refusal>, refusal: Refusal) -> bool {
    found == Some(refusal)
}
