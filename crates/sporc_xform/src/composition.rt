//! Two deltas in one.

ghost use Rattle.std.specs.Prelude.{◌≡◌, ◌+◌, ◌≤◌, ◌<◌, ◌++◌, [], length, IfOk, IfSome, IfNone};
ghost use Rattle.std.specs.Prelude.{OnSome};
ghost use Rattle.sporc_delta.specs.declared.limits.TheConstants.{MAX_TEXT_LEN};
ghost use Rattle.sporc_delta.specs.Marks.{base_len, out_len};
ghost use Rattle.sporc_delta.specs.Parts.{marks_of};
ghost use Rattle.sporc_delta.specs.Transforms.{compose};
ghost use Rattle.sporc_xform.specs.Chunks.{chunk_marks, through_marks};
ghost use Rattle.sporc_xform.specs.Left.{InARowInvariant};

use crate::cursor::Cursor;
use sporc_base::Memory;
use sporc_delta::{Delta, Piece, TextSlice};
use std::alloc::Global;
use std::marker::Model;

/// `p1` and then `p2`, which is stated on the text after `p1`, in one delta.
pub fn compose(alloc: Global, p1: &Delta, p2: &Delta) -> Result<Delta, Memory>
    requires { out_len p1.now ≡ base_len p2.now }
    ensures ok { IfOk result (λ d. d ≡ compose p1.now p2.now) }
{
    let mut row = InARow::new(p1, p2);
    let mut delta = Delta::new(alloc);
    'chunks: while let Some(chunk) = row.next() {
        if let Chunk::Left(piece) = chunk {
            delta.push(&piece)?;
        }
    }
    Ok(delta)
}

/// A piece of two deltas that follow each other.
#[derive(Drop)]
pub(crate) enum Chunk<'a> {
    /// What the two have in one.
    Left(Piece<'a>),
    /// Characters that the first inserts and the second removes.
    Gone,
}

/// Two deltas that follow each other, seen as the marks of each that are left.
#[derive(Drop)]
struct InARow<'a> {
    first: Cursor<'a>,
    second: Cursor<'a>,
}

impl<'a> Model for InARow<'a> {
    ghost use Rattle.sporc_delta.specs.Parts.{marks_of};
    ghost use Rattle.sporc_xform.specs.Left.{InARowInvariant, InARowModel};

    ghost Value = { InARowModel };

    ghost view = { λ r. record { first = marks_of r.first; second = marks_of r.second } };

    ghost invariant = { λ r. InARowInvariant r.first r.second };
}

impl<'a> InARow<'a> {
    /// All of two deltas.
    fn new(first: &'a Delta, second: &'a Delta) -> InARow<'a>
        requires { out_len first.now ≡ base_len second.now }
        ensures first { result.first ≡ first.entry.now }
        ensures second { result.second ≡ second.entry.now }
        ensures base_within { base_len first.entry.now ≤ MAX_TEXT_LEN }
        ensures out_within { out_len second.entry.now ≤ MAX_TEXT_LEN }
    {
        InARow {
            first: Cursor::new(first),
            second: Cursor::new(second),
        }
    }

    /// The next piece, if any is left.
    fn next(&mut self) -> Option<Chunk<'a>>
        ensures taken { IfSome result (λ chunk. compose self.old.first self.old.second
            ≡ chunk_marks chunk ++ compose self.new.first self.new.second) }
        ensures less { OnSome result (length self.new.first + length self.new.second
            < length self.old.first + length self.old.second) }
        ensures end { IfNone result (compose self.old.first self.old.second ≡ []) }
    {
        next_chunk(&mut self.first, &mut self.second)
    }
}

// The next piece of two deltas: an insertion of the second, else a removal of the first, else what
// both do with characters of the text between them.
fn next_chunk<'a>(p: &mut Cursor<'a>, q: &mut Cursor<'a>) -> Option<Chunk<'a>>
    requires { InARowInvariant p.old q.old }
    ensures row { InARowInvariant p.new q.new }
    ensures taken { IfSome result (λ chunk. compose (marks_of p.old) (marks_of q.old)
        ≡ chunk_marks chunk ++ compose (marks_of p.new) (marks_of q.new)) }
    ensures less { OnSome result (length (marks_of p.new) + length (marks_of q.new)
        < length (marks_of p.old) + length (marks_of q.old)) }
    ensures end { IfNone result (compose (marks_of p.old) (marks_of q.old) ≡ []) }
{
    if q.inserts() {
        let len = q.first_len();
        return Some(Chunk::Left(Piece::Insert(q.take(len))));
    }
    if p.removes() {
        let len = p.first_len();
        let _ = p.take(len);
        return Some(Chunk::Left(Piece::Remove(len)));
    }
    let count = p.first_len().min(q.first_len());
    if count == 0 {
        return None;
    }
    let inserted = p.inserts();
    let removed = q.removes();
    let text = p.take(count);
    let _ = q.take(count);
    Some(through(inserted, removed, text, count))
}

// What two deltas do with so many characters between them, which the first inserts or keeps and the
// second removes or keeps.
fn through(inserted: bool, removed: bool, text: TextSlice<'_>, count: u64) -> Chunk<'_>
    ensures value { chunk_marks result ≡ through_marks inserted removed text.entry count }
{
    if inserted && removed {
        return Chunk::Gone;
    }
    if inserted {
        return Chunk::Left(Piece::Insert(text));
    }
    if removed {
        return Chunk::Left(Piece::Remove(count));
    }
    Chunk::Left(Piece::Keep(count))
}
