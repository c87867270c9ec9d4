//! The application of parts of a delta to a text in chunks.

ghost use Rattle.std.specs.Prelude.{◌≡◌, ◌+◌, ◌≤◌, ◌++◌, length, take, drop, OnOk, IfOk};
ghost use Rattle.std.specs.List.{concat};
ghost use Rattle.sporc_delta.specs.declared.limits.TheConstants.{MAX_TEXT_LEN};
ghost use Rattle.sporc_delta.specs.Marks.{base_len, apply, keep_marks};
ghost use Rattle.sporc_delta.specs.Parts.{marks_of};
ghost use Rattle.sporc_text.specs.Edit.{IsBetween, characters_read, characters_written};

use crate::chunk::{Chunk, cut};
use crate::chunks::find;
use sporc_base::Memory;
use sporc_delta::{Delta, Part, Text};

// How many characters a delta keeps before its first change and behind its last one, and the parts
// between.
pub(crate) fn changes(delta: &Delta) -> (u64, &[Part], u64)
    ensures { IsBetween delta.now (marks_of result.1.now) result.0 result.2 }
{
    let (kept, others) = without_keep(delta.parts());
    let (parts, left) = without_last_keep(others);
    (kept, parts, left)
}

// How many characters parts keep before their first change, and the parts from there on.
fn without_keep(parts: &[Part]) -> (u64, &[Part])
    ensures marks { marks_of parts.now ≡ keep_marks result.0 ++ marks_of result.1.now }
{
    match parts.split_first() {
        Some((Part::Keep(count), others)) => (*count, others),
        _ => (0, parts),
    }
}

// The parts up to their last change, and how many characters they keep behind it.
fn without_last_keep(parts: &[Part]) -> (&[Part], u64)
    ensures marks { marks_of parts.now ≡ marks_of result.0.now ++ keep_marks result.1 }
{
    match parts.split_last() {
        Some((Part::Keep(count), others)) => (others, *count),
        _ => (parts, 0),
    }
}

// Appends what parts make of the characters from a place on.
pub(crate) fn edited(
    before: Vec<char>,
    chunks: &[Chunk],
    from: usize,
    parts: &[Part],
) -> Result<Vec<char>, Memory>
    requires in_bounds { from + base_len (marks_of parts.now) ≤ length (concat chunks.now) }
    requires limit { length (concat chunks.now) ≤ MAX_TEXT_LEN }
    ensures ok { IfOk result (λ v. v.items
        ≡ before.items ++ apply (marks_of parts.now) (drop from (concat chunks.now))) }
{
    let mut out = before;
    let mut rest = chunks;
    let mut at = from;
    for part in parts {
        let (others, offset) = from_place(rest, at);
        at = edit_part(&mut out, others, offset, part)?;
        rest = others;
    }
    Ok(out)
}

// The chunks from the first that reaches to a place on, and how many characters they have in front
// of the place.
fn from_place(chunks: &[Chunk], place: usize) -> (&[Chunk], usize)
    requires { place ≤ length (concat chunks.now) }
    ensures behind { drop result.1 (concat result.0.now) ≡ drop place (concat chunks.now) }
    ensures len { length (concat result.0.now) + place ≡ length (concat chunks.now) + result.1 }
    ensures within { result.1 ≤ place }
{
    let (i, offset) = find(chunks, place);
    let (_, others) = chunks.split_at(i);
    (others, offset)
}

// Appends what one part makes of the characters from a place on, and says where the next part
// stands.
fn edit_part(out: &mut Vec<char>, chunks: &[Chunk], at: usize, part: &Part) -> Result<usize, Memory>
    requires in_bounds { at + characters_read part.now ≤ length (concat chunks.now) }
    requires limit { length (concat chunks.now) ≤ MAX_TEXT_LEN }
    ensures next { IfOk result (λ n. n ≡ at + characters_read part.now) }
    ensures written { OnOk result (out.new.items
        ≡ out.old.items ++ characters_written part.now (drop at (concat chunks.now))) }
{
    match part {
        Part::Keep(count) => {
            push_kept(out, chunks, at, *count as usize)?;
            Ok(at + *count as usize)
        }
        Part::Insert(text) => {
            push_text(out, text)?;
            Ok(at)
        }
        Part::Remove(count) => Ok(at + *count as usize),
    }
}

// Appends so many characters of a text, from a place on.
fn push_kept(out: &mut Vec<char>, chunks: &[Chunk], from: usize, count: usize) -> Result<(), Memory>
    ensures ok { OnOk result
        (out.new.items ≡ out.old.items ++ take count (drop from (concat chunks.now))) }
{
    let mut skipped = from;
    let mut left = count;
    for chunk in chunks {
        if left == 0 {
            break;
        }
        let (_, behind) = cut(chunk.characters(), skipped);
        let (wanted, _) = cut(behind, left);
        out.extend_from_slice(wanted)?;
        skipped -= chunk.len() - behind.len();
        left -= wanted.len();
    }
    Ok(())
}

// Appends the characters of a text.
fn push_text(out: &mut Vec<char>, text: &Text) -> Result<(), Memory>
    ensures ok { OnOk result (out.new.items ≡ out.old.items ++ text.now) }
{
    for c in text.as_str().chars() {
        out.push(c)?;
    }
    Ok(())
}
