//! Pairwise keys.

use std::collections::BTreeMap;

/// The keys of 32 bytes that a member shares with each other member, by the other's number. A
/// member's key with itself is among them.
pub type Pairs = BTreeMap<u16, [u8; 32]>;
