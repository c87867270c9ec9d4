//! Deltas.

ghost use Rattle.std.specs.Prelude.{◌≡◌, ◌≢◌, ◌+◌, ◌≤◌, ◌++◌, ◌↔◌, [], length, IsTrue, Ok, Err};
ghost use Rattle.std.specs.Prelude.{IfOk, IfErr, OnOk, OnErr};
ghost use Rattle.std.specs.Str.{chars};
ghost use Rattle.sporc_delta.specs.declared.limits.TheConstants.{MAX_COUNT, MAX_DELTA_BYTES};
ghost use Rattle.sporc_delta.specs.declared.limits.TheConstants.{MAX_TEXT_LEN};
ghost use Rattle.sporc_delta.specs.declared.fault.DeltaFault.TheVariants as faults;
ghost use Rattle.sporc_delta.specs.Format.{delta_bytes};
ghost use Rattle.sporc_delta.specs.Marks.{base_len, out_len, keep_marks, remove_marks};
ghost use Rattle.sporc_delta.specs.Marks.{insert_marks, insertion, removal, replacement};
ghost use Rattle.sporc_delta.specs.Parts.{AreRuns, marks_of, owned, part_marks, runs};
ghost use Rattle.sporc_delta.specs.Same.{same_delta};
ghost use Rattle.sporc_delta.specs.Shifts.{CanShift, kept_first, kept_last, shifted};
ghost use Rattle.sporc_delta.specs.Typed.{IsTypedDelta};
ghost use Rattle.sporc_delta.specs.Reading.{read_delta};

use crate::decode::read_part;
use crate::encode::{parts_encoded, parts_len};
use crate::ends::{append_keep, append_remove, append_text, kept_last};
use crate::part::{are_same_parts, copies};
use crate::shift::{kept_first, kept_there, shift_parts};
use crate::{DeltaFault, Part, Piece, Shift, TextSlice};
use sporc_base::Memory;
use sporc_bytes::Cursor;
use std::alloc::Global;
use std::marker::Model;

/// A delta, seen as the list of its marks.
#[derive(Drop)]
pub struct Delta {
    parts: Vec<Part>,
    base: u64,
    out: u64,
}

impl Model for Delta {
    ghost use Rattle.std.specs.Prelude.{List};
    ghost use Rattle.sporc_delta.specs.Marks.{Mark};
    ghost use Rattle.sporc_delta.specs.Parts.{marks_of, DeltaInvariant};

    ghost Value = { List Mark };

    ghost view = { λ d. marks_of d.parts.items };

    ghost invariant = { λ d. DeltaInvariant d.parts.items d.base d.out };
}

impl Delta {
    /// The delta over the empty text that changes nothing.
    pub fn new(alloc: Global) -> Delta
        ensures value { result ≡ [] }
    {
        Delta {
            parts: Vec::new(alloc),
            base: 0,
            out: 0,
        }
    }

    /// The delta that bytes spell (see `encode`), or the first fault from the left.
    pub fn decode(alloc: Global, bytes: &[u8]) -> Result<Delta, DeltaFault>
        requires limit { length bytes.now ≤ MAX_DELTA_BYTES }
        ensures ok { IfOk result (λ delta. read_delta bytes.now ≡ Ok delta) }
        ensures err { IfErr result (λ e. e ≢ faults.Memory → read_delta bytes.now ≡ Err e) }
    {
        let mut delta = Delta::new(alloc);
        let mut before = None;
        let mut cursor = Cursor::new(bytes);
        while !cursor.end() {
            let piece = read_part(before, &mut cursor)?;
            delta.push(&piece)?;
            before = Some(piece.kind());
        }
        Ok(delta)
    }

    /// Inserts a text before the character at a place of a text of `len` characters.
    #[tactic(auto, using(crate::proofs::Lengths::lengths))]
    pub fn insert_at(alloc: Global, len: u64, at: u64, text: &str) -> Result<Delta, Memory>
        requires in_bounds { at ≤ len }
        requires limit { len ≤ MAX_COUNT }
        requires text_limit { length text.now ≤ MAX_COUNT }
        ensures ok { IfOk result (λ d. d ≡ insertion len at (chars text.now)) }
    {
        let mut delta = Delta::new(alloc);
        delta.push_keep(at)?;
        delta.push_insert(&TextSlice::new(text))?;
        delta.push_keep(len - at)?;
        Ok(delta)
    }

    /// Removes `count` characters from a place of a text of `len` characters on.
    #[tactic(auto, using(crate::proofs::Lengths::lengths))]
    pub fn remove_at(alloc: Global, len: u64, at: u64, count: u64) -> Result<Delta, Memory>
        requires in_bounds { at + count ≤ len }
        requires limit { len ≤ MAX_COUNT }
        ensures ok { IfOk result (λ d. d ≡ removal len at count) }
    {
        let mut delta = Delta::new(alloc);
        delta.push_keep(at)?;
        delta.push_remove(count)?;
        delta.push_keep(len - (at + count))?;
        Ok(delta)
    }

    /// Keeps all of a text of `len` characters.
    pub fn keep_all(alloc: Global, len: u64) -> Result<Delta, Memory>
        requires { len ≤ MAX_COUNT }
        ensures ok { IfOk result (λ d. d ≡ keep_marks len) }
    {
        let mut delta = Delta::new(alloc);
        delta.push_keep(len)?;
        Ok(delta)
    }

    /// Puts a text in place of all of a text of `len` characters.
    #[tactic(auto, using(crate::proofs::Lengths::lengths))]
    pub fn replace_all(alloc: Global, len: u64, text: &str) -> Result<Delta, Memory>
        requires limit { len ≤ MAX_COUNT }
        requires text_limit { length text.now ≤ MAX_COUNT }
        ensures ok { IfOk result (λ d. d ≡ replacement len (chars text.now)) }
    {
        let mut delta = Delta::new(alloc);
        let text = TextSlice::new(text);
        delta.push_remove(len)?;
        delta.push_insert(&text)?;
        Ok(delta)
    }

    /// The number of characters of the text before.
    pub fn base_len(&self) -> u64
        ensures value { result ≡ base_len self.now }
        ensures within { result ≤ MAX_TEXT_LEN }
    {
        self.base
    }

    /// The number of characters of the text after.
    pub fn out_len(&self) -> u64
        ensures value { result ≡ out_len self.now }
        ensures within { result ≤ MAX_TEXT_LEN }
    {
        self.out
    }

    /// The parts: no part is empty, and no two neighbours are of one kind.
    pub fn parts(&self) -> &[Part]
        ensures value { result.now ≡ runs self.now }
        ensures marks { marks_of result.now ≡ self.now }
        ensures are_runs { AreRuns result.now }
        ensures within { (base_len self.now ≤ MAX_TEXT_LEN) × (out_len self.now ≤ MAX_TEXT_LEN) }
    {
        self.parts.as_slice()
    }

    /// How many characters it keeps before its first change, all of them if it changes nothing.
    pub fn kept_first(&self) -> u64
        ensures value { result ≡ kept_first self.now }
        ensures within { result ≤ MAX_TEXT_LEN }
    {
        kept_first(self.parts.as_slice())
    }

    /// How many characters it keeps behind its last change, all of them if it changes nothing.
    pub fn kept_last(&self) -> u64
        ensures value { result ≡ kept_last self.now }
        ensures within { result ≤ MAX_TEXT_LEN }
    {
        kept_last(self.parts.as_slice())
    }

    /// Keeps another number of characters at one of its ends, which takes no memory.
    pub fn shift(&mut self, shift: Shift)
        requires { CanShift shift self.old }
        ensures value { self.new ≡ shifted shift self.old }
    {
        let kept = kept_there(self.parts.as_slice(), shift);
        let count = shift.count();
        shift_parts(&mut self.parts, shift);
        self.base = self.base - kept + count;
        self.out = self.out - kept + count;
    }

    /// A copy.
    pub fn copy(&self) -> Result<Delta, Memory>
        ensures ok { IfOk result (λ d. d ≡ self.now) }
    {
        let parts = copies(*self.parts.allocator(), self.parts.as_slice())?;
        Ok(Delta {
            parts,
            base: self.base,
            out: self.out,
        })
    }

    /// Whether two deltas are the same.
    #[tactic(auto, using(crate::proofs::Same::sameness))]
    pub fn is_same(&self, other: &Delta) -> bool
        ensures value { result ≡ same_delta self.now other.now }
        ensures meaning { IsTrue result ↔ (self.now ≡ other.now) }
    {
        are_same_parts(self.parts(), other.parts())
    }

    /// The number of bytes that `encode` gives.
    pub fn encoded_len(&self) -> u64
        ensures value { result ≡ length (delta_bytes self.now) }
    {
        parts_len(self.parts.as_slice())
    }

    /// The bytes of the delta: for each part a byte for its kind (1 keeps, 2 inserts, 3 removes),
    /// eight bytes for its count, the high ones first, and for an insertion its text in UTF-8,
    /// whose bytes are counted.
    pub fn encode(&self) -> Result<Vec<u8>, Memory>
        ensures ok { IfOk result (λ v. v.items ≡ delta_bytes self.now) }
        // Its counts and its characters are such as a delta's bytes can have.
        ensures typed { OnOk result (IsTypedDelta self.now) }
    {
        parts_encoded(*self.parts.allocator(), self.parts.as_slice())
    }

    /// Appends a part.
    #[tactic(auto, using(crate::proofs::Lengths::lengths))]
    pub fn push(&mut self, piece: &Piece<'_>) -> Result<(), Memory>
        requires base_limit { base_len self.old + base_len (part_marks (owned piece.now))
            ≤ MAX_TEXT_LEN }
        requires out_limit { out_len self.old + out_len (part_marks (owned piece.now))
            ≤ MAX_TEXT_LEN }
        ensures ok { OnOk result (self.new ≡ self.old ++ part_marks (owned piece.now)) }
        ensures memory { OnErr result (self.new ≡ self.old) }
    {
        match piece {
            Piece::Keep(count) => self.push_keep(*count),
            Piece::Insert(text) => self.push_insert(text),
            Piece::Remove(count) => self.push_remove(*count),
        }
    }

    /// Keeps so many more characters behind what is there.
    pub fn push_keep(&mut self, count: u64) -> Result<(), Memory>
        requires base_limit { base_len self.old + count ≤ MAX_TEXT_LEN }
        requires out_limit { out_len self.old + count ≤ MAX_TEXT_LEN }
        ensures ok { OnOk result (self.new ≡ self.old ++ keep_marks count) }
        ensures memory { OnErr result (self.new ≡ self.old) }
    {
        if count == 0 {
            return Ok(());
        }
        append_keep(&mut self.parts, count)?;
        self.base += count;
        self.out += count;
        Ok(())
    }

    /// Removes so many more characters behind what is there.
    pub fn push_remove(&mut self, count: u64) -> Result<(), Memory>
        requires { base_len self.old + count ≤ MAX_TEXT_LEN }
        ensures ok { OnOk result (self.new ≡ self.old ++ remove_marks count) }
        ensures memory { OnErr result (self.new ≡ self.old) }
    {
        if count == 0 {
            return Ok(());
        }
        append_remove(&mut self.parts, count)?;
        self.base += count;
        Ok(())
    }

    /// Inserts a text behind what is there.
    pub fn push_insert(&mut self, text: &TextSlice<'_>) -> Result<(), Memory>
        requires { out_len self.old + length text.now ≤ MAX_TEXT_LEN }
        ensures ok { OnOk result (self.new ≡ self.old ++ insert_marks text.now) }
        ensures memory { OnErr result (self.new ≡ self.old) }
    {
        if text.is_empty() {
            return Ok(());
        }
        append_text(&mut self.parts, text)?;
        self.out += text.len();
        Ok(())
    }
}
