//! The parts of a delta.

ghost use Rattle.std.specs.Prelude.{◌≡◌, IfOk};
ghost use Rattle.sporc_delta.specs.Parts.{kind_of, owned};
ghost use Rattle.sporc_delta.specs.Same.{same_part, same_parts};

use crate::{Text, TextSlice};
use sporc_base::Memory;
use std::alloc::Global;

/// A part of a delta. Lengths are in characters.
#[derive(Drop)]
pub enum Part {
    /// Keeps so many characters of the text before.
    Keep(u64),
    /// Inserts this text.
    Insert(Text),
    /// Removes so many characters of the text before.
    Remove(u64),
}

/// A part of a delta whose text stands elsewhere.
#[derive(Drop)]
pub enum Piece<'a> {
    /// Keeps so many characters of the text before.
    Keep(u64),
    /// Inserts this text.
    Insert(TextSlice<'a>),
    /// Removes so many characters of the text before.
    Remove(u64),
}

/// The kinds of parts.
#[derive(Clone, Copy, PartialEq, Eq)]
pub enum Kind {
    Keep,
    Insert,
    Remove,
}

impl Part {
    /// A copy.
    pub fn copy(&self, alloc: Global) -> Result<Part, Memory>
        ensures ok { IfOk result (λ copy. copy ≡ self.now) }
    {
        match self {
            Part::Keep(count) => Ok(Part::Keep(*count)),
            Part::Insert(text) => Ok(Part::Insert(Text::new(alloc, &text.as_slice())?)),
            Part::Remove(count) => Ok(Part::Remove(*count)),
        }
    }

    /// Whether two parts are the same.
    pub fn is_same(&self, other: &Part) -> bool
        ensures value { result ≡ same_part self.now other.now }
    {
        match (self, other) {
            (Part::Keep(m), Part::Keep(n)) | (Part::Remove(m), Part::Remove(n)) => m == n,
            (Part::Insert(s), Part::Insert(t)) => s.as_str() == t.as_str(),
            _ => false,
        }
    }
}

impl Piece<'_> {
    /// The kind.
    pub fn kind(&self) -> Kind
        ensures value { result ≡ kind_of (owned self.now) }
    {
        match self {
            Piece::Keep(_) => Kind::Keep,
            Piece::Insert(_) => Kind::Insert,
            Piece::Remove(_) => Kind::Remove,
        }
    }
}

// Copies of parts.
pub(crate) fn copies(alloc: Global, parts: &[Part]) -> Result<Vec<Part>, Memory>
    ensures ok { IfOk result (λ copies. copies.items ≡ parts.now) }
{
    let mut copies = Vec::with_capacity(alloc, parts.len())?;
    for part in parts {
        copies.push(part.copy(alloc)?)?;
    }
    Ok(copies)
}

// Whether two lists of parts are the same.
pub(crate) fn are_same_parts(a: &[Part], b: &[Part]) -> bool
    ensures value { result ≡ same_parts a.now b.now }
{
    if a.len() != b.len() {
        return false;
    }
    for (i, part) in a.iter().enumerate() {
        if !part.is_same(&b[i]) {
            return false;
        }
    }
    true
}
