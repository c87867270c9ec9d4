//! The text of a document.

ghost use Rattle.std.specs.Prelude.{◌≡◌, ◌≢◌, ◌↔◌, ◌-◌, ◌*◌, ◌≤◌, ◌++◌, [], length, IsTrue, IfOk};
ghost use Rattle.std.specs.Prelude.{OnOk, OnErr};
ghost use Rattle.std.specs.String.{string_bytes};
ghost use Rattle.std.specs.Str.{chars, encode_utf8_all};
ghost use Rattle.sporc_delta.specs.Marks.{base_len, apply};
ghost use Rattle.sporc_text.specs.declared.limits.TheConstants.{MAX_CHUNK, MEAN_CHUNK};
ghost use Rattle.sporc_text.specs.ReadyTextModel.{rewritten};

use crate::chunk::Chunk;
use crate::chunks::copies;
use crate::ready::ReadyText;
use sporc_base::Memory;
use sporc_delta::Delta;
use std::alloc::Global;
use std::marker::Model;

/// The text of a document, seen as the list of its characters (Unicode scalar values).
///
/// It is kept in chunks of 1 to 1,024 characters. Neighbours that hold at most 512 together are
/// joined.
#[derive(Drop)]
pub struct Doc {
    chunks: Vec<Chunk>,
    len: usize,
}

impl Model for Doc {
    ghost use Rattle.std.specs.Prelude.{List, ℕ};
    ghost use Rattle.std.specs.List.{concat};
    ghost use Rattle.sporc_text.specs.Chunks.{DocInvariant};

    ghost Value = { List ℕ };

    ghost view = { λ d. concat d.chunks.items };

    ghost invariant = { λ d. DocInvariant d.chunks.items d.len };
}

impl Doc {
    /// The empty text.
    pub fn new(alloc: Global) -> Doc
        ensures value { result ≡ [] }
    {
        Doc {
            chunks: Vec::new(alloc),
            len: 0,
        }
    }

    /// A copy.
    pub fn copy(&self) -> Result<Doc, Memory>
        ensures ok { IfOk result (λ d. d ≡ self.now) }
    {
        let chunks = copies(*self.chunks.allocator(), self.chunks.as_slice())?;
        Ok(Doc {
            chunks,
            len: self.len,
        })
    }

    /// The number of characters.
    pub fn len(&self) -> u64
        ensures value { result ≡ length self.now }
    {
        self.len as u64
    }

    /// Whether there are no characters.
    pub fn is_empty(&self) -> bool
        ensures meaning { IsTrue result ↔ (self.now ≡ []) }
    {
        self.len == 0
    }

    /// How many chunks the text is kept in.
    pub fn chunk_count(&self) -> u64
        ensures most { length self.now ≤ MAX_CHUNK * result }
        ensures joined { self.now ≢ [] → MEAN_CHUNK * (result - 1) ≤ length self.now }
        ensures empty { self.now ≡ [] → result ≡ 0 }
    {
        self.chunks.len() as u64
    }

    /// The text as UTF-8.
    #[tactic(auto, using(crate::proofs::Spelled::spelled))]
    pub fn text(&self) -> Result<String, Memory>
        ensures ok { IfOk result (λ t. string_bytes t ≡ encode_utf8_all self.now) }
        ensures characters { IfOk result (λ t. chars (string_bytes t) ≡ self.now) }
    {
        let mut text = String::with_capacity(*self.chunks.allocator(), self.len)?;
        for chunk in &self.chunks {
            push_characters(&mut text, chunk.characters())?;
        }
        Ok(text)
    }

    /// Takes all the memory that applying a delta wants, and leaves the text. Of the characters
    /// only those between its first and its last change are copied.
    pub fn ready(&mut self, delta: &Delta) -> Result<ReadyText, Memory>
        requires base { base_len delta.now ≡ length self.old }
        ensures ok { IfOk result (λ r. rewritten r self.old ≡ apply delta.now self.old) }
        ensures unchanged { self.new ≡ self.old }
    {
        ReadyText::new(*self.chunks.allocator(), self.chunks.as_slice(), delta)
    }

    /// Makes the text that was made ready; a text of another length stays. It takes no memory.
    pub fn put(&mut self, ready: ReadyText)
        ensures value { self.new ≡ rewritten ready self.old }
    {
        if self.len == ready.base() {
            self.len = ready.put_into(&mut self.chunks);
        }
    }

    /// Applies a delta. If memory runs out, the text stays.
    pub fn apply(&mut self, delta: &Delta) -> Result<(), Memory>
        requires base { base_len delta.now ≡ length self.old }
        ensures ok { OnOk result (self.new ≡ apply delta.now self.old) }
        ensures memory { OnErr result (self.new ≡ self.old) }
    {
        let ready = self.ready(delta)?;
        self.put(ready);
        Ok(())
    }
}

// Appends characters as UTF-8.
fn push_characters(text: &mut String, characters: &[char]) -> Result<(), Memory>
    ensures { OnOk result
        (string_bytes text.new ≡ string_bytes text.old ++ encode_utf8_all characters.now) }
{
    for c in characters {
        text.push(*c)?;
    }
    Ok(())
}
