//! A tail in memory.

use sporc_order::{Tail, Unkept};
use std::alloc::Global;
use std::sync::atomic::{AtomicU64, Ordering};

/// A tail in memory, of which one put may fail. A gate may look how many entries it keeps. Its
/// clauses say nothing of what it keeps, since the tests compare that.
#[derive(Drop)]
pub struct Notes<'a> {
    alloc: Global,
    entries: Vec<Vec<u8>>,
    puts: u32,
    // The put that fails, from 1 on; 0 if none does.
    failing: u32,
    kept: &'a AtomicU64,
}

impl<'a> Notes<'a> {
    /// No entries, and none is counted. The put with this number fails, from 1 on, or none if it is
    /// 0.
    pub fn new(alloc: Global, kept: &'a AtomicU64, failing: u32) -> Notes<'a> {
        Notes {
            alloc,
            entries: Vec::new(alloc),
            puts: 0,
            failing,
            kept,
        }
    }

    /// The entries that it keeps.
    pub fn entries(&self) -> &[Vec<u8>] {
        self.entries.as_slice()
    }

    // Keeps a copy of an entry, if there is memory for it.
    fn note(&mut self, entry: &[u8]) -> bool {
        match Vec::from_slice(self.alloc, entry) {
            Ok(copy) => self.entries.push(copy).is_ok(),
            Err(_) => false,
        }
    }
}

impl<'a> Tail for Notes<'a> {
    ghost keeps = { λ _ _. Unit {0} };

    ghost may_fail = { Unit {0} };

    fn put(&mut self, position: u32, entry: &[u8]) -> Result<(), Unkept> {
        self.puts = self.puts.saturating_add(1);
        let is_next = position as usize == self.entries.len().saturating_add(1);
        if !is_next || self.puts == self.failing || !self.note(entry) {
            return Err(Unkept);
        }
        self.kept.fetch_add(1, Ordering::SeqCst);
        Ok(())
    }
}
