//! One chunk of a text.

ghost use Rattle.std.specs.Prelude.{◌≡◌, ◌+◌, ◌≤◌, ◌++◌, [], length, take, drop, IfOk};
ghost use Rattle.sporc_text.specs.declared.limits.TheConstants.{MAX_CHUNK};

use crate::limits::MAX_CHUNK;
use sporc_base::Memory;
use std::alloc::Global;
use std::marker::Model;

/// Some characters of a text, with room for as many as a chunk has at most.
#[derive(Drop)]
pub(crate) struct Chunk {
    characters: Vec<char>,
}

impl Model for Chunk {
    ghost use Rattle.std.specs.Prelude.{List, ℕ, ◌≤◌};
    ghost use Rattle.std.specs.Vec.{vec_len, vec_capacity};
    ghost use Rattle.sporc_text.specs.declared.limits.TheConstants.{MAX_CHUNK};

    ghost Value = { List ℕ };

    ghost view = { λ c. c.characters.items };

    ghost invariant = { λ c. (vec_len c.characters ≤ MAX_CHUNK)
        × (MAX_CHUNK ≤ vec_capacity c.characters) };
}

impl Chunk {
    // No characters.
    pub(crate) fn new(alloc: Global) -> Result<Chunk, Memory>
        ensures { IfOk result (λ c. c ≡ []) }
    {
        let characters = Vec::with_capacity(alloc, MAX_CHUNK)?;
        Ok(Chunk { characters })
    }

    // A copy.
    pub(crate) fn copy(&self, alloc: Global) -> Result<Chunk, Memory>
        ensures { IfOk result (λ c. c ≡ self.now) }
    {
        let mut chunk = Chunk::new(alloc)?;
        chunk.extend(self.characters());
        Ok(chunk)
    }

    pub(crate) fn len(&self) -> usize
        ensures value { result ≡ length self.now }
        ensures within { result ≤ MAX_CHUNK }
    {
        self.characters.len()
    }

    pub(crate) fn characters(&self) -> &[char]
        ensures value { result.now ≡ self.now }
        ensures within { length self.now ≤ MAX_CHUNK }
    {
        self.characters.as_slice()
    }

    // Appends characters.
    pub(crate) fn extend(&mut self, more: &[char])
        requires { length self.old + length more.now ≤ MAX_CHUNK }
        ensures { self.new ≡ self.old ++ more.now }
    {
        let _ = self.characters.extend_from_slice(more);
    }

    // Leaves the first characters alone.
    pub(crate) fn truncate(&mut self, count: usize)
        ensures { self.new ≡ take count self.old }
    {
        self.characters.truncate(count);
    }
}

// The first characters of some, and the others.
pub(crate) fn cut(characters: &[char], count: usize) -> (&[char], &[char])
    ensures front { result.0.now ≡ take count characters.now }
    ensures back { result.1.now ≡ drop count characters.now }
    ensures within { length result.0.now ≤ count }
{
    if count < characters.len() {
        characters.split_at(count)
    } else {
        characters.split_at(characters.len())
    }
}
