//! What passes know, for contracts alone.

use std::collections::LinkedList;

/// The number of a pass that was joined, and its items. No value of it is made.
pub struct Joined<E> {
    pub number: u64,
    pub items: LinkedList<E>,
}

/// What a pass knows of the log, for contracts alone: no value of it is made.
pub struct Known<E> {
    /// The number of the pass.
    pub number: u64,
    /// The pass was joined to another, and is no more.
    pub spent: bool,
    /// The length of the log as the lock was opened.
    pub start: u64,
    /// The prefix of the log that was seen.
    pub seen: LinkedList<E>,
    /// The items that were added through this pass.
    pub mine: LinkedList<E>,
    /// After a join the shorter of the lists seen, until it was compared with the longer one.
    pub unmatched: LinkedList<E>,
    /// The last news of this pass.
    pub news: u64,
    /// How many passes were split from it.
    pub splits: u64,
    /// The passes that were joined to it, the last one first.
    pub joined: LinkedList<Joined<E>>,
}

/// Where a pass stands in the line, with what it knows, for contracts alone: no value of it is
/// made.
pub struct View<E> {
    /// It has a ticket, which was not served yet.
    pub waits: bool,
    /// Its ticket is served: the value is out with it.
    pub turns: bool,
    /// The ticket, where it has one.
    pub ticket: u64,
    /// The next ticket, as it was last read.
    pub read: u64,
    /// The watermark of the value, as it was last seen.
    pub watermark: u64,
    pub known: Known<E>,
}
