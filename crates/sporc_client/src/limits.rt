//! The limits of a client.

/// How many edits and changes of a client may wait to be committed.
pub const MAX_PENDING: usize = 1_024;

/// How many events a journal may have.
pub const MAX_EVENTS: usize = 1_048_576;

/// How many characters a shown text has at most: 2^35.
pub const MAX_SHOWN_LEN: u64 = 1 << 35;

/// How many bytes an edit may have when it is made.
pub const MAX_EDIT_BYTES: u64 = 65_536;

/// How many bytes an edit may have when it is signed, after it passed what came in between.
pub const MAX_HEAD_BYTES: u64 = 1_048_576;
