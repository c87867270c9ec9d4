//! Bytes that tests spell out and change.

use std::alloc::Global;
use std::process::Abort;

/// A vector of these bytes.
pub fn bytes_of(rt: &impl Abort, alloc: Global, bytes: &[u8]) -> Vec<u8> {
    Vec::from_slice(alloc, bytes).expect(rt, "memory")
}

/// The bytes that a hexadecimal text spells.
pub fn spelled(rt: &impl Abort, alloc: Global, text: &str) -> Vec<u8> {
    hex::decode(alloc, text).expect(rt, "bytes")
}

/// Appends bytes.
pub fn append(rt: &impl Abort, bytes: &mut Vec<u8>, more: &[u8]) {
    bytes.extend_from_slice(more).expect(rt, "memory");
}

/// The first of these bytes, so many.
pub fn first_of<'a>(rt: &impl Abort, bytes: &'a [u8], len: usize) -> &'a [u8] {
    bytes.get(..len).expect(rt, "a part")
}

/// Changes the byte at a place, if there is one.
pub fn put(bytes: &mut [u8], place: usize, byte: u8) {
    if let Some(changed) = bytes.get_mut(place) {
        *changed = byte;
    }
}

/// Turns a bit of the byte at a place, if there is one.
pub fn turn_bit(bytes: &mut [u8], place: usize) {
    if let Some(byte) = bytes.get_mut(place) {
        *byte ^= 1;
    }
}
