//! How long the chunks of a text are.

/// The most characters of one chunk.
pub const MAX_CHUNK: usize = 1_024;

/// Neighbouring chunks that hold at most so many characters together are joined.
pub const MAX_JOINED: usize = 512;

/// How many characters the chunks of a text hold at least on average, one of them left out.
pub const MEAN_CHUNK: usize = MAX_JOINED / 2;
