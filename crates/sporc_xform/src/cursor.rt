//! A walk along the parts of a delta.

ghost use Rattle.std.specs.Prelude.{◌≡◌, ◌≤◌, ◌<◌, take};
ghost use Rattle.sporc_delta.specs.declared.limits.TheConstants.{MAX_TEXT_LEN};
ghost use Rattle.sporc_delta.specs.Marks.{base_len, out_len};
ghost use Rattle.sporc_delta.specs.Parts.{marks_of, runs};
ghost use Rattle.sporc_xform.specs.Left.{NoneEmpty, first_inserts, first_len, first_removes};
ghost use Rattle.sporc_xform.specs.Left.{first_text, without};

use sporc_delta::{Delta, Part, TextSlice};
use std::marker::Model;
use std::mem;

/// What is left of a delta, seen as its parts, the first of which may be a part cut off in front.
#[derive(Drop)]
pub(crate) struct Cursor<'a> {
    parts: &'a [Part],
    // So many marks of the first part are left.
    left: u64,
    // The text that is left of a first part that inserts, else none.
    text: TextSlice<'a>,
}

impl<'a> Model for Cursor<'a> {
    ghost use Rattle.std.specs.Prelude.{List};
    ghost use Rattle.sporc_delta.specs.declared.part.Part.{Part};
    ghost use Rattle.sporc_xform.specs.Left.{CursorInvariant, left_of};

    ghost Value = { List Part };

    ghost view = { λ c. left_of c.parts.now c.left c.text };

    ghost invariant = { λ c. CursorInvariant c.parts.now c.left c.text };
}

impl<'a> Cursor<'a> {
    /// All of a delta.
    pub fn new(delta: &'a Delta) -> Cursor<'a>
        ensures value { result ≡ runs delta.entry.now }
        ensures marks { marks_of result ≡ delta.entry.now }
        ensures none_empty { NoneEmpty result }
        ensures within { (base_len delta.entry.now ≤ MAX_TEXT_LEN)
            × (out_len delta.entry.now ≤ MAX_TEXT_LEN) }
    {
        at_start(delta.parts())
    }

    /// The number of marks that are left of the first part, 0 at the end.
    pub fn first_len(&self) -> u64
        ensures value { result ≡ first_len self.now }
    {
        self.left
    }

    /// Whether the first part inserts.
    pub fn inserts(&self) -> bool
        ensures value { result ≡ first_inserts self.now }
    {
        matches!(self.parts.first(), Some(Part::Insert(_)))
    }

    /// Whether the first part removes.
    pub fn removes(&self) -> bool
        ensures value { result ≡ first_removes self.now }
    {
        matches!(self.parts.first(), Some(Part::Remove(_)))
    }

    /// Takes marks of the first part, and hands out the text that they insert.
    pub fn take(&mut self, count: u64) -> TextSlice<'a>
        requires positive { 0 < first_len self.old }
        requires in_bounds { count ≤ first_len self.old }
        ensures left { self.new ≡ without count self.old }
        ensures text { result ≡ take count (first_text self.old) }
        ensures none_empty { NoneEmpty self.old → NoneEmpty self.new }
    {
        if count == self.left {
            let rest = at_start(&self.parts[1..]);
            let Cursor { text, .. } = mem::replace(self, rest);
            return text;
        }
        if !self.inserts() {
            self.left -= count;
            return TextSlice::new("");
        }
        let (front, back) = self.text.split_at(count);
        self.left -= count;
        self.text = back;
        front
    }
}

// A walk from the first of these parts on.
fn at_start(parts: &[Part]) -> Cursor<'_>
    requires { NoneEmpty parts.now }
    ensures value { result ≡ parts.now }
{
    let (left, text) = match parts.first() {
        Some(Part::Keep(count)) | Some(Part::Remove(count)) => (*count, TextSlice::new("")),
        Some(Part::Insert(text)) => (text.len(), text.as_slice()),
        None => (0, TextSlice::new("")),
    };
    Cursor { parts, left, text }
}
