//! Deltas from their bytes.

ghost use Rattle.std.specs.Prelude.{◌≡◌, ◌+◌, ◌≤◌, drop, length, Ok, Err, IfOk, IfErr, OnOk};
ghost use Rattle.std.specs.Int.{w64, from_be_bytes};
ghost use Rattle.sporc_delta.specs.declared.limits.TheConstants.{MAX_COUNT};
ghost use Rattle.sporc_delta.specs.Marks.{base_len, out_len};
ghost use Rattle.sporc_delta.specs.Parts.{owned, part_marks};
ghost use Rattle.sporc_delta.specs.Reading.{kind_at, count_at, is_kind, head_at, text_at, part_at};

use crate::encode::{HEAD_LEN, INSERT, KEEP, REMOVE};
use crate::{DeltaFault, Kind, MAX_COUNT, Piece, TextSlice};
use sporc_bytes::Cursor;

// The kind that a byte stands for.
fn kind_of_byte(byte: u8) -> Result<Kind, DeltaFault>
    ensures ok { IfOk result (λ kind. kind_at byte ≡ Ok kind) }
    ensures err { IfErr result (λ e. kind_at byte ≡ Err e) }
{
    match byte {
        KEEP => Ok(Kind::Keep),
        INSERT => Ok(Kind::Insert),
        REMOVE => Ok(Kind::Remove),
        _ => Err(DeltaFault::BadKind),
    }
}

// The count, if it is allowed.
fn count_of(head: &[u8; HEAD_LEN]) -> Result<u64, DeltaFault>
    ensures ok { IfOk result (λ count. count_at (from_be_bytes w64 (drop 1 head.now)) ≡ Ok count) }
    ensures err { IfErr result (λ e. count_at (from_be_bytes w64 (drop 1 head.now)) ≡ Err e) }
    ensures within { IfOk result (λ count. count ≤ MAX_COUNT) }
{
    let count = u64::from_be_bytes([
        head[1], head[2], head[3], head[4], head[5], head[6], head[7], head[8],
    ]);
    if count == 0 || count > MAX_COUNT {
        return Err(DeltaFault::BadCount);
    }
    Ok(count)
}

// Whether the part before is of this kind.
fn repeats(before: Option<Kind>, kind: Kind) -> bool
    ensures value { result ≡ is_kind before kind }
{
    match before {
        Some(before) => before == kind,
        None => false,
    }
}

// The kind and the count of the next part.
#[tactic(auto, unfolding(crate::specs::Reading::head_at))]
fn read_head(before: Option<Kind>, cursor: &mut Cursor<'_>) -> Result<(Kind, u64), DeltaFault>
    ensures ok { IfOk result (λ x. head_at before cursor.old ≡ Ok (x.0, x.1, cursor.new)) }
    ensures err { IfErr result (λ e. head_at before cursor.old ≡ Err e) }
    ensures within { IfOk result (λ x. x.1 ≤ MAX_COUNT) }
    ensures rest { OnOk result (9 + length cursor.new.rest ≡ length cursor.old.rest) }
{
    let head = cursor.array()?;
    let kind = kind_of_byte(head[0])?;
    let count = count_of(&head)?;
    if repeats(before, kind) {
        return Err(DeltaFault::SameNeighbours);
    }
    Ok((kind, count))
}

// The text of so many bytes.
#[tactic(auto, unfolding(crate::specs::Reading::text_at))]
fn read_text<'a>(cursor: &mut Cursor<'a>, count: u64) -> Result<TextSlice<'a>, DeltaFault>
    ensures ok { IfOk result (λ text. text_at count cursor.old ≡ Ok (text, cursor.new)) }
    ensures err { IfErr result (λ e. text_at count cursor.old ≡ Err e) }
    ensures within { IfOk result (λ text. length text ≤ count) }
    ensures rest { OnOk result (length cursor.new.rest ≤ length cursor.old.rest) }
{
    let text = cursor.take(count as usize)?;
    match str::from_utf8(text) {
        Ok(text) => Ok(TextSlice::new(text)),
        Err(_) => Err(DeltaFault::NotUtf8),
    }
}

// The next part, behind one of the kind before.
#[tactic(auto, using(crate::proofs::Lengths::lengths), unfolding(crate::specs::Reading::part_at))]
pub(crate) fn read_part<'a>(
    before: Option<Kind>,
    cursor: &mut Cursor<'a>,
) -> Result<Piece<'a>, DeltaFault>
    ensures ok { IfOk result (λ piece. part_at before cursor.old ≡ Ok (owned piece, cursor.new)) }
    ensures err { IfErr result (λ e. part_at before cursor.old ≡ Err e) }
    ensures base_within { IfOk result (λ piece. base_len (part_marks (owned piece)) ≤ MAX_COUNT) }
    ensures out_within { IfOk result (λ piece. out_len (part_marks (owned piece)) ≤ MAX_COUNT) }
    ensures rest { OnOk result (9 + length cursor.new.rest ≤ length cursor.old.rest) }
{
    let (kind, count) = read_head(before, cursor)?;
    match kind {
        Kind::Keep => Ok(Piece::Keep(count)),
        Kind::Insert => {
            let text = read_text(cursor, count)?;
            Ok(Piece::Insert(text))
        }
        Kind::Remove => Ok(Piece::Remove(count)),
    }
}
