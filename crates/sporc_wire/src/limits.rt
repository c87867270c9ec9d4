//! The limits of a server.

/// The most sessions of a server.
pub const MAX_SESSIONS: u32 = 1_024;

/// The most documents of a server.
pub const MAX_DOCUMENTS: usize = 64;
