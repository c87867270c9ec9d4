//! The entries of a message.

ghost use Rattle.std.specs.Prelude.{◌≡◌, ◌++◌, ◌∷◌, [], length, map, IfOk, OnOk, IsTrue, ◌↔◌};

use sporc_base::Memory;
use std::alloc::Global;
use std::marker::Model;

/// Entries, oldest first, seen as the list of their bytes.
#[derive(Drop)]
pub struct Entries {
    entries: Vec<Vec<u8>>,
}

impl Model for Entries {
    ghost use Rattle.std.specs.Prelude.{ℕ, List, map};

    ghost Value = { List (List ℕ) };

    ghost view = { λ e. map (λ v. v.items) e.entries.items };
}

impl Entries {
    /// No entries.
    pub fn new(alloc: Global) -> Entries
        ensures value { result ≡ [] }
    {
        Entries {
            entries: Vec::new(alloc),
        }
    }

    // No entries, with room for so many.
    pub(crate) fn with_capacity(alloc: Global, count: usize) -> Result<Entries, Memory>
        ensures ok { IfOk result (λ entries. entries ≡ []) }
    {
        Ok(Entries {
            entries: Vec::with_capacity(alloc, count)?,
        })
    }

    /// How many there are.
    pub fn len(&self) -> usize
        ensures value { result ≡ length self.now }
    {
        self.entries.len()
    }

    /// Whether there are none.
    pub fn is_empty(&self) -> bool
        ensures value { IsTrue result ↔ (length self.now ≡ 0) }
    {
        self.len() == 0
    }

    /// The bytes of each.
    pub fn as_slice(&self) -> &[Vec<u8>]
        ensures value { map (λ v. v.items) result.now ≡ self.now }
    {
        self.entries.as_slice()
    }

    /// The vector of the entries' bytes, which takes no memory.
    pub fn into_vec(self) -> Vec<Vec<u8>>
        ensures value { map (λ v. v.items) result.items ≡ self }
    {
        self.entries
    }

    // Appends an entry, which is moved.
    pub(crate) fn push(&mut self, entry: Vec<u8>) -> Result<(), Memory>
        ensures ok { OnOk result (self.new ≡ self.old ++ entry.items ∷ []) }
    {
        Ok(self.entries.push(entry)?)
    }

    /// Appends entries, which are moved.
    pub fn append(&mut self, mut more: Entries) -> Result<(), Memory>
        ensures ok { OnOk result (self.new ≡ self.old ++ more) }
    {
        Ok(self.entries.append(&mut more.entries)?)
    }
}
