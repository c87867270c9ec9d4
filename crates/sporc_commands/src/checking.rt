//! `check NAME M`.

ghost use Rattle.std.specs.Prelude.{◌≡◌, ◌≤◌, IfOk, string_bytes};
ghost use Rattle.sporc_commands.specs.Checking.{IsCheckedLine};
ghost use Rattle.sporc_commands.specs.Outcomes.{CheckOutcome};
ghost use Rattle.sporc_outside.specs.Uses.{use_of};
ghost use Rattle.sporc_files.specs.Names.{names_of_document};

use crate::printing::print;
use crate::reading::read_line;
use sporc_base::Memory;
use sporc_files::{Fault, Names};
use sporc_outside::{Folder, Gate, Sink};
use sporc_words::Check;
use std::alloc::Global;
use std::fmt::Write;
use std::sync::Wait;
use std::thread::Threads;

/// `check NAME M` examines the saved history of a member's device, entry by entry, with its own
/// keys, and writes `checked LEN`, how many entries it has. Who is no founder takes the keys of
/// earlier epochs from the history. The signatures are examined by
/// [`LOADERS`](sporc_store::LOADERS) workers.
pub fn check<R: Threads + Wait + Sync, F: Folder, O: Sink, G: Gate + Sync>(
    rt: &R,
    alloc: Global,
    files: &mut F,
    out: &mut O,
    asked: &Check,
    gate: &G,
) -> Result<(), Fault>
    ensures outcome { CheckOutcome (names_of_document asked.now.name) asked.now.device
        (use_of F.told files.old files.new) (use_of O.told out.old out.new) result }
    ensures lent { (F.told files.new).lent ≡ (F.told files.old).lent }
    ensures files_kept { (F.told files.old).faults ≤ (F.told files.new).faults }
    ensures out_kept { (O.told out.old).faults ≤ (O.told out.new).faults }
{
    let names = Names::of_document(asked.name.as_str());
    let line = read_line(rt, alloc, files, &names, asked.device, gate)?;
    let checked = checked_line(alloc, line.len());
    drop(line);
    let checked = checked?;
    print(out, checked.as_str())
}

// The line that says how many entries there are.
fn checked_line(alloc: Global, len: u32) -> Result<String, Memory>
    ensures { IfOk result (λ line. IsCheckedLine len (string_bytes line)) }
{
    let mut line = String::new(alloc);
    writeln!(line, "checked {len}")?;
    Ok(line)
}
