//! Limits of histories.

/// How many entries a history has at most.
pub const MAX_ENTRIES: u32 = 16_384;

// How many devices a member can ever have: each u8 is the number of one.
pub(crate) const DEVICE_NUMBERS: u32 = 256;
