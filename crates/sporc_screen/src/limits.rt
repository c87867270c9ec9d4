//! How many lines are known by their numbers.

/// The most lines behind the last edit that an editor may name: 1,024.
pub const MAX_NAMED: usize = 1_024;
