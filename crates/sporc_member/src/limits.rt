//! Limits of members.

/// How many members a document has at most at one time.
pub const MAX_MEMBERS: u16 = 64;

/// How many live devices a member has at most at one time.
pub const MAX_DEVICES: u8 = 8;
