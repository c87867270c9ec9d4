//! Moments of a journal.

/// A moment of a journal: how many events it had.
#[derive(Clone, Copy, PartialEq, Eq)]
pub struct Front {
    pub events: u64,
}
