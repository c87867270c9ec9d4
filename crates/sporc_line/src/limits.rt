//! How long a text is.

/// The most characters of a committed text: 2^35.
pub const MAX_COMMITTED_LEN: u64 = 1 << 35;
