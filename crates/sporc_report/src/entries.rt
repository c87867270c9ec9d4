//! The lines of a history's entries.

ghost use Rattle.std.specs.Prelude.{◌≡◌, ◌-◌, ◌≤◌, ◌++◌, length, Ok, IsOk, OnErr, OnOk};
ghost use Rattle.std.specs.Prelude.{codes, string_bytes};
ghost use Rattle.std.specs.Fmt.{decimal};
ghost use Rattle.std.specs.Option.{option_copied};
ghost use Rattle.sporc_base.specs.Lists.{StartsWith};
ghost use Rattle.sporc_entry.specs.Entry.{author_device, entry_of};
ghost use Rattle.sporc_line.specs.Good.{Good};
ghost use Rattle.sporc_script.specs.Spelling.{device_text};
ghost use Rattle.sporc_report.specs.EntryLines.{committed_by, done_by, entry_line, entry_lines};
ghost use Rattle.sporc_report.specs.EntryLines.{lines_left, origin_text, what_text};

use crate::appending::{push_counted, push_decimal, push_word};
use crate::journal::{push_change, push_delta};
use crate::showing::push_device;
use sporc_base::Memory;
use sporc_delta::Delta;
use sporc_entry::{ChangeBody, EntryFault, EntryView, Header};
use sporc_line::Line;
use std::alloc::{AllocError, Global};

/// Appends a line for each entry of a history from a position on: its position, its author's
/// device, number and base, and what it did. Of an edit that is its form, so that the text can be
/// followed by the lines alone.
#[tactic(auto, using(crate::proofs::Beginnings::begins_more))]
pub fn push_entries(alloc: Global, out: &mut String, line: &Line, from: u32) -> Result<(), Memory>
    ensures ok { OnOk result (string_bytes out.new
        ≡ string_bytes out.old ++ entry_lines from line.now.genesis line.now.kit line.now.entries) }
    ensures memory { OnErr result (StartsWith (string_bytes out.new) (string_bytes out.old)) }
{
    let mut behind = from.saturating_sub(1);
    'lines: while behind < line.len() {
        behind += 1;
        push_at(alloc, out, line, behind)?;
    }
    Ok(())
}

// Appends the line of the entry at a position: with the lines behind it, all is what it was with
// those from there on.
fn push_at(alloc: Global, out: &mut String, line: &Line, position: u32) -> Result<(), Memory>
    requires positive { 1 ≤ position }
    requires in_bounds { position ≤ length line.now.entries }
    requires good { Good line.now.genesis line.now.kit line.now.entries }
    ensures ok { OnOk result (string_bytes out.new ++ lines_left position line.now
        ≡ string_bytes out.old ++ lines_left (position - 1) line.now) }
    ensures grows { StartsWith (string_bytes out.new) (string_bytes out.old) }
{
    let entry = line.entries()[position as usize - 1].as_slice();
    push_entry(alloc, out, position, entry, line.form(position))
}

// Appends the line of an entry with this form.
fn push_entry(
    alloc: Global,
    out: &mut String,
    position: u32,
    bytes: &[u8],
    form: &Delta,
) -> Result<(), Memory>
    requires { IsOk (entry_of bytes.now) }
    ensures ok { OnOk result (string_bytes out.new ≡ string_bytes out.old
        ++ entry_line position (committed_by (entry_of bytes.now) form.now)) }
    ensures memory { OnErr result (StartsWith (string_bytes out.new) (string_bytes out.old)) }
{
    match EntryView::read(alloc, bytes) {
        Ok(entry) => push_view(alloc, out, position, &entry, form),
        Err(EntryFault::Memory) => Err(AllocError),
        Err(EntryFault::Malformed(_)) => unreachable!(),
    }
}

fn push_view(
    alloc: Global,
    out: &mut String,
    position: u32,
    entry: &EntryView<'_>,
    form: &Delta,
) -> Result<(), Memory>
    ensures ok { OnOk result (string_bytes out.new ≡ string_bytes out.old
        ++ entry_line position (committed_by (Ok entry.now.entry) form.now)) }
    ensures memory { OnErr result (StartsWith (string_bytes out.new) (string_bytes out.old)) }
{
    push_origin(out, position, entry.header())?;
    push_told(alloc, out, entry.change(), form)
}

// Appends where an entry stands, whose it is, and behind how many it was made.
fn push_origin(out: &mut String, position: u32, header: &Header) -> Result<(), Memory>
    ensures ok { OnOk result (string_bytes out.new ≡ string_bytes out.old
        ++ origin_text position (author_device header.now) header.now.number header.now.base) }
    ensures memory { OnErr result (StartsWith (string_bytes out.new) (string_bytes out.old)) }
{
    push_decimal(out, u64::from(position))?;
    push_word(out, " ")?;
    push_author(out, header)
}

// Appends whose an entry is, its number, and behind how many it was made.
fn push_author(out: &mut String, header: &Header) -> Result<(), Memory>
    ensures ok { OnOk result (string_bytes out.new ≡ string_bytes out.old
        ++ (device_text (author_device header.now) ++ (codes " "
        ++ (decimal header.now.number ++ (codes " " ++ decimal header.now.base))))) }
    ensures memory { OnErr result (StartsWith (string_bytes out.new) (string_bytes out.old)) }
{
    push_device(out, header.author_device())?;
    push_counted(out, " ", u64::from(header.number))?;
    push_counted(out, " ", u64::from(header.base))
}

// Appends the rest of the line of an entry with this form, from the space behind its base on.
fn push_told(
    alloc: Global,
    out: &mut String,
    change: Option<&ChangeBody>,
    form: &Delta,
) -> Result<(), Memory>
    ensures ok { OnOk result (string_bytes out.new ≡ string_bytes out.old ++ (codes " "
        ++ (what_text (done_by (option_copied change.entry) form.now) ++ codes "\n"))) }
    ensures memory { OnErr result (StartsWith (string_bytes out.new) (string_bytes out.old)) }
{
    push_word(out, " ")?;
    push_done(alloc, out, change, form)?;
    push_word(out, "\n")
}

// Appends what an entry with this form did.
fn push_done(
    alloc: Global,
    out: &mut String,
    change: Option<&ChangeBody>,
    form: &Delta,
) -> Result<(), Memory>
    ensures ok { OnOk result (string_bytes out.new
        ≡ string_bytes out.old ++ what_text (done_by (option_copied change.entry) form.now)) }
    ensures memory { OnErr result (StartsWith (string_bytes out.new) (string_bytes out.old)) }
{
    match change {
        Some(body) => {
            push_word(out, "change ")?;
            push_change(alloc, out, &body.change)
        }
        None => {
            push_word(out, "edit ")?;
            push_delta(out, form)
        }
    }
}
