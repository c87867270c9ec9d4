//! Bytes that tests spell out.

use std::alloc::Global;
use std::process::Abort;

/// A vector of these bytes.
pub fn bytes_of(rt: &impl Abort, alloc: Global, bytes: &[u8]) -> Vec<u8> {
    Vec::from_slice(alloc, bytes).expect(rt, "memory")
}

/// Appends bytes.
pub fn append(rt: &impl Abort, bytes: &mut Vec<u8>, more: &[u8]) {
    bytes.extend_from_slice(more).expect(rt, "memory");
}
