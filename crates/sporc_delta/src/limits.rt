//! How long deltas and their texts are.

/// The greatest count of a part, and the most characters of a text that an edit is made for: 2^40.
pub const MAX_COUNT: u64 = 1 << 40;

/// The most characters that the text before a delta has, and the text after it: 2^60.
pub const MAX_TEXT_LEN: u64 = 1 << 60;

/// The most bytes that are read as one delta: 4 MiB.
pub const MAX_DELTA_BYTES: usize = 4_194_304;
