//! Limits of entries: the highest number of a member, and lengths in bytes.

/// The highest number of a member.
pub const HIGHEST_MEMBER: u32 = 65_535;

/// The longest body of an edit.
pub const MAX_EDIT_BODY: u32 = 1_048_576;

/// The longest body of a change.
pub const MAX_CHANGE_BODY: u32 = 65_536;

/// The longest signature: of a tree of height 25 with one-time keys of Winternitz parameter 1,
/// whose signature has 8,516 bytes. Two numbers have 8 bytes, and each of the 25 nodes of the path
/// 32.
pub const MAX_SIGNATURE: u32 = 9_324;

/// The longest entry: an edit with the longest body and signature that names its author's device. A
/// header has 69 bytes then, and each of the two lengths 4.
pub const MAX_ENTRY: u32 = 77 + MAX_EDIT_BODY + MAX_SIGNATURE;
