//! How many workers load a history.

/// How many workers may load one history.
pub const MAX_WORKERS: u32 = 64;

/// How many workers load a history for a command.
pub const LOADERS: u32 = 4;

// How many entries the workers examine while as many before them are appended. The first block has
// an entry for each of `MAX_WORKERS`, if the file does.
pub(crate) const BLOCK: usize = 512;

// How many entries are appended in the time that the examination of one takes.
pub(crate) const APPENDING: usize = 9;
