//! The limit on tickets.

/// How many tickets a lock draws at most, 2^62: the tickets are the numbers below it.
pub const MAX_TICKETS: u64 = 1 << 62;
