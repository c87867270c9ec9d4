//! The bytes of deltas.

ghost use Rattle.std.specs.Prelude.{◌≡◌, ◌<◌, ◌≤◌, ◌^◌, ◌∷◌, ◌++◌, length, IfOk, OnOk};
ghost use Rattle.std.specs.Int.{w64, to_be_bytes};
ghost use Rattle.std.specs.List.{AllByRecursion};
ghost use Rattle.sporc_delta.specs.declared.limits.TheConstants.{MAX_TEXT_LEN};
ghost use Rattle.sporc_delta.specs.Marks.{out_len};
ghost use Rattle.sporc_delta.specs.Parts.{marks_of};
ghost use Rattle.sporc_delta.specs.Format.{part_bytes, parts_bytes};
ghost use Rattle.sporc_delta.specs.Typed.{IsTypedPart};

use crate::Part;
use sporc_base::Memory;
use std::alloc::Global;

// The byte for each kind of part.
pub(crate) const KEEP: u8 = 1;

pub(crate) const INSERT: u8 = 2;

pub(crate) const REMOVE: u8 = 3;

// The number of bytes of a kind and a count.
pub(crate) const HEAD_LEN: usize = 9;

// The number of bytes of a part.
fn part_len(part: &Part) -> u64
    requires { length (part_bytes part.now) < 2 ^ 64 }
    ensures value { result ≡ length (part_bytes part.now) }
{
    match part {
        Part::Keep(_) | Part::Remove(_) => HEAD_LEN as u64,
        Part::Insert(text) => HEAD_LEN as u64 + text.as_str().len() as u64,
    }
}

// The number of bytes of all parts.
pub(crate) fn parts_len(parts: &[Part]) -> u64
    requires { out_len (marks_of parts.now) ≤ MAX_TEXT_LEN }
    ensures value { result ≡ length (parts_bytes parts.now) }
{
    let mut total = 0;
    for part in parts {
        total += part_len(part);
    }
    total
}

// Writes the kind and the count of a part.
fn put_head(bytes: &mut Vec<u8>, kind: u8, count: u64) -> Result<(), Memory>
    ensures ok { OnOk result (bytes.new.items ≡ bytes.old.items ++ kind ∷ to_be_bytes w64 count) }
{
    bytes.push(kind)?;
    bytes.extend_from_slice(&count.to_be_bytes())
}

// Writes a part.
fn put_part(bytes: &mut Vec<u8>, part: &Part) -> Result<(), Memory>
    ensures ok { OnOk result (bytes.new.items ≡ bytes.old.items ++ part_bytes part.now) }
    ensures typed { OnOk result (IsTypedPart part.now) }
{
    match part {
        Part::Keep(count) => put_head(bytes, KEEP, *count)?,
        Part::Remove(count) => put_head(bytes, REMOVE, *count)?,
        Part::Insert(text) => {
            let text = text.as_str().as_bytes();
            put_head(bytes, INSERT, text.len() as u64)?;
            bytes.extend_from_slice(text)?;
        }
    }
    Ok(())
}

// The bytes of all parts.
pub(crate) fn parts_encoded(alloc: Global, parts: &[Part]) -> Result<Vec<u8>, Memory>
    requires { out_len (marks_of parts.now) ≤ MAX_TEXT_LEN }
    ensures ok { IfOk result (λ v. v.items ≡ parts_bytes parts.now) }
    ensures typed { OnOk result (AllByRecursion IsTypedPart parts.now) }
{
    let mut bytes = Vec::with_capacity(alloc, parts_len(parts) as usize)?;
    for part in parts {
        put_part(&mut bytes, part)?;
    }
    Ok(bytes)
}
