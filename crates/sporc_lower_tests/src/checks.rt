//! What tests assert with: one assert for all of them, since each is proved where it stands.

use sporc_outside::{FileFault, Link};
use std::process::Abort;

/// Stops the test unless this holds of it.
pub fn check(rt: &impl Abort, what: &str, holds: bool) {
    assert!(rt; holds, "{what}");
}

/// Stops the test unless a call on files ended by this fault.
pub fn fails_by(rt: &impl Abort, what: &str, found: Option<FileFault>, fault: FileFault) {
    check(rt, what, found == Some(fault));
}

/// Stops the test unless a read of a link gives so many bytes.
pub fn hears<L: Link>(rt: &impl Abort, link: &mut L, bytes: usize) {
    let mut buffer = [0u8; 4];
    check(rt, "a read", link.read(&mut buffer) == Ok(bytes));
}
