//! Edits as an editor states them.

ghost use Rattle.std.specs.Prelude.{◌≡◌, ◌+◌, ◌≤◌, length, IsTrue, IfOk};
ghost use Rattle.sporc_delta.specs.declared.limits.TheConstants.{MAX_TEXT_LEN};
ghost use Rattle.sporc_delta.specs.Marks.{insertion, removal};
ghost use Rattle.sporc_screen.specs.Edits.{edit_marks, is_in_bounds, typed_len};

use sporc_base::Memory;
use sporc_delta::{Delta, TextSlice};
use std::alloc::Global;

/// An edit of the text that an editor has, by a place in it. Places and counts are of characters.
#[derive(Drop)]
pub enum Edit<'a> {
    /// A text before the character at a place.
    Insert { at: u64, text: TextSlice<'a> },
    /// So many characters from a place on.
    Remove { at: u64, count: u64 },
}

impl<'a> Edit<'a> {
    // Whether it is in bounds of a text of `len` characters.
    pub(crate) fn is_in_bounds(&self, len: u64) -> bool
        ensures value { result ≡ is_in_bounds len self.now }
    {
        match self {
            Edit::Insert { at, .. } => *at <= len,
            Edit::Remove { at, count } => *at <= len && *count <= len - *at,
        }
    }

    // The number of characters that it inserts.
    pub(crate) fn typed_len(&self) -> u64
        ensures value { result ≡ typed_len self.now }
    {
        match self {
            Edit::Insert { text, .. } => text.len(),
            Edit::Remove { .. } => 0,
        }
    }

    // The delta of it over a text of `len` characters.
    pub(crate) fn delta(&self, alloc: Global, len: u64) -> Result<Delta, Memory>
        requires in_bounds { IsTrue (is_in_bounds len self.now) }
        requires limit { len + typed_len self.now ≤ MAX_TEXT_LEN }
        ensures ok { IfOk result (λ d. d ≡ edit_marks len self.now) }
    {
        match self {
            Edit::Insert { at, text } => inserted(alloc, len, *at, text),
            Edit::Remove { at, count } => removed(alloc, len, *at, *count),
        }
    }
}

// A text before the character at a place of a text of `len` characters.
#[tactic(auto, using(sporc_delta::proofs::Lengths::lengths))]
fn inserted(alloc: Global, len: u64, at: u64, text: &TextSlice<'_>) -> Result<Delta, Memory>
    requires in_bounds { at ≤ len }
    requires limit { len + length text.now ≤ MAX_TEXT_LEN }
    ensures { IfOk result (λ d. d ≡ insertion len at text.now) }
{
    let mut delta = Delta::new(alloc);
    delta.push_keep(at)?;
    delta.push_insert(text)?;
    delta.push_keep(len - at)?;
    Ok(delta)
}

// So many characters of a text of `len` removed, from a place on.
#[tactic(auto, using(sporc_delta::proofs::Lengths::lengths))]
fn removed(alloc: Global, len: u64, at: u64, count: u64) -> Result<Delta, Memory>
    requires in_bounds { at + count ≤ len }
    requires limit { len ≤ MAX_TEXT_LEN }
    ensures { IfOk result (λ d. d ≡ removal len at count) }
{
    let mut delta = Delta::new(alloc);
    delta.push_keep(at)?;
    delta.push_remove(count)?;
    delta.push_keep(len - (at + count))?;
    Ok(delta)
}
