//! What stands where a word is left out.

/// The rounds of `client`, where none are named.
pub const DEFAULT_ROUNDS: u32 = 64;

/// The position of `client`, where none is named.
pub const DEFAULT_UNTIL: u32 = 0;

/// The position of `entries`, where none is named.
pub const DEFAULT_FROM: u32 = 1;

/// The times of `serve` and `serve-all`, where none are named.
pub const DEFAULT_TIMES: u32 = 1;
