//! `entries NAME M --from POS`.

ghost use Rattle.std.specs.Prelude.{◌≡◌, ◌≤◌, IfOk, string_bytes};
ghost use Rattle.sporc_outside.specs.Uses.{use_of};
ghost use Rattle.sporc_files.specs.Names.{names_of_document};
ghost use Rattle.sporc_report.specs.EntryLines.{entry_lines};
ghost use Rattle.sporc_commands.specs.Outcomes.{EntriesOutcome};

use crate::printing::print;
use crate::reading::read_line;
use sporc_base::Memory;
use sporc_files::{Fault, Names};
use sporc_line::Line;
use sporc_outside::{Folder, Gate, Sink};
use sporc_report::push_entries;
use sporc_words::EntriesFrom;
use std::alloc::Global;
use std::sync::Wait;
use std::thread::Threads;

/// `entries NAME M --from POS` examines the saved history of a member's device as
/// [`check`](crate::check) does, all of it, and writes a line for each of its entries from position
/// `from` on: its position, author, number and base, and what it did. Of an edit that is its form,
/// by which the text can be followed. Behind the last entry there is no line.
pub fn list_entries<R: Threads + Wait + Sync, F: Folder, O: Sink, G: Gate + Sync>(
    rt: &R,
    alloc: Global,
    files: &mut F,
    out: &mut O,
    asked: &EntriesFrom,
    gate: &G,
) -> Result<(), Fault>
    ensures outcome { EntriesOutcome (names_of_document asked.now.name) asked.now.device
        asked.now.from (use_of F.told files.old files.new) (use_of O.told out.old out.new) result }
    ensures lent { (F.told files.new).lent ≡ (F.told files.old).lent }
    ensures files_kept { (F.told files.old).faults ≤ (F.told files.new).faults }
    ensures out_kept { (O.told out.old).faults ≤ (O.told out.new).faults }
{
    let names = Names::of_document(asked.name.as_str());
    let line = read_line(rt, alloc, files, &names, asked.device, gate)?;
    let lines = entry_lines(alloc, &line, asked.from);
    drop(line);
    let lines = lines?;
    print(out, lines.as_str())
}

// The lines of the entries from a position on.
fn entry_lines(alloc: Global, line: &Line, from: u32) -> Result<String, Memory>
    ensures { IfOk result (λ lines. string_bytes lines
        ≡ entry_lines from line.now.genesis line.now.kit line.now.entries) }
{
    let mut lines = String::new(alloc);
    push_entries(alloc, &mut lines, line, from)?;
    Ok(lines)
}
