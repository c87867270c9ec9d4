//! Lists of parts that grow at the end, where a part joins the last one of its kind.

ghost use Rattle.std.specs.Prelude.{◌≡◌, true, ◌+◌, ◌<◌, ◌^◌, length, OnOk, OnErr};
ghost use Rattle.sporc_delta.specs.Marks.{base_len, out_len, keep_marks, remove_marks};
ghost use Rattle.sporc_delta.specs.Marks.{insert_marks};
ghost use Rattle.sporc_delta.specs.Parts.{Appends, marks_of, kept_at_end, removed_at_end};
ghost use Rattle.sporc_delta.specs.Parts.{text_at_end};

use crate::{Part, Text, TextSlice};
use sporc_base::Memory;

// The number of characters that a last part keeps.
pub(crate) fn kept_last(parts: &[Part]) -> u64
    ensures value { result ≡ kept_at_end parts.now }
{
    match parts.last() {
        Some(Part::Keep(count)) => *count,
        _ => 0,
    }
}

// The number of characters that a last part removes.
fn removed_last(parts: &[Part]) -> u64
    ensures value { result ≡ removed_at_end parts.now }
{
    match parts.last() {
        Some(Part::Remove(count)) => *count,
        _ => 0,
    }
}

// Whether the last part inserts.
fn inserts_last(parts: &[Part]) -> bool
    ensures value { result ≡ text_at_end parts.now }
{
    matches!(parts.last(), Some(Part::Insert(_)))
}

// Appends a part that keeps, joined with a last one that does too.
pub(crate) fn append_keep(parts: &mut Vec<Part>, count: u64) -> Result<(), Memory>
    requires positive { 0 < count }
    requires limit { out_len (marks_of parts.old.items) + count < 2 ^ 64 }
    ensures ok { OnOk result (Appends parts.old.items parts.new.items (keep_marks count)) }
    ensures memory { OnErr result (parts.new.items ≡ parts.old.items) }
{
    let kept = kept_last(parts.as_slice());
    if kept == 0 {
        parts.push(Part::Keep(count))?;
    } else {
        let last = parts.len() - 1;
        parts[last] = Part::Keep(kept + count);
    }
    Ok(())
}

// Appends a part that removes, joined with a last one that does too.
pub(crate) fn append_remove(parts: &mut Vec<Part>, count: u64) -> Result<(), Memory>
    requires positive { 0 < count }
    requires limit { base_len (marks_of parts.old.items) + count < 2 ^ 64 }
    ensures ok { OnOk result (Appends parts.old.items parts.new.items (remove_marks count)) }
    ensures memory { OnErr result (parts.new.items ≡ parts.old.items) }
{
    let removed = removed_last(parts.as_slice());
    if removed == 0 {
        parts.push(Part::Remove(count))?;
    } else {
        let last = parts.len() - 1;
        parts[last] = Part::Remove(removed + count);
    }
    Ok(())
}

// Appends a part that inserts, joined with a last one that does too.
pub(crate) fn append_text(parts: &mut Vec<Part>, text: &TextSlice<'_>) -> Result<(), Memory>
    requires positive { 0 < length text.now }
    requires limit { out_len (marks_of parts.old.items) + length text.now < 2 ^ 64 }
    ensures ok { OnOk result (Appends parts.old.items parts.new.items (insert_marks text.now)) }
    ensures memory { OnErr result (parts.new.items ≡ parts.old.items) }
{
    if inserts_last(parts.as_slice()) {
        return grow_text(parts, text);
    }
    let alloc = *parts.allocator();
    parts.push(Part::Insert(Text::new(alloc, text)?))?;
    Ok(())
}

// Appends a text to that of the last part, which inserts.
fn grow_text(parts: &mut Vec<Part>, text: &TextSlice<'_>) -> Result<(), Memory>
    requires inserts { text_at_end parts.old.items ≡ true }
    requires positive { 0 < length text.now }
    requires limit { out_len (marks_of parts.old.items) + length text.now < 2 ^ 64 }
    ensures ok { OnOk result (Appends parts.old.items parts.new.items (insert_marks text.now)) }
    ensures memory { OnErr result (parts.new.items ≡ parts.old.items) }
{
    match parts.pop() {
        Some(Part::Insert(mut last)) => {
            let grown = last.push(text);
            // Its place in the list is free.
            parts.push(Part::Insert(last)).unwrap();
            grown
        }
        Some(Part::Keep(_)) => unreachable!(),
        Some(Part::Remove(_)) => unreachable!(),
        None => unreachable!(),
    }
}
