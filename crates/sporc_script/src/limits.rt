//! Limits of what is read, played and edited.

/// The most bytes of a text that is read as a script: 1 GiB, as many as a file has at most. A play
/// takes fewer.
pub const MAX_SCRIPT_BYTES: usize = 1 << 30;

/// The most edits of a generated run.
pub const MAX_GENERATED: u32 = 3_000;

/// The most editor scripts of a session.
pub const MAX_EDITORS: usize = 8;
