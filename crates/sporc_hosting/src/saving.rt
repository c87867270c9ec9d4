//! The logs of several documents, saved.

ghost use Rattle.std.specs.Prelude.{◌≡◌, ◌≤◌, [], ◌∷◌, length, IfOk, string_bytes};
ghost use Rattle.sporc_outside.specs.Uses.{use_of};
ghost use Rattle.sporc_files.specs.Names.{file_name, names_of_document};
ghost use Rattle.sporc_files.specs.Uses.{AsksOnly};
ghost use Rattle.sporc_hosting.specs.Outcomes.{KeepsLog};
ghost use Rattle.sporc_hosting.specs.Moments.{moment_of};
ghost use Rattle.sporc_hosting.specs.Saving.{KeepsLogs, document_line, logs_of};

use crate::log::save_log;
use sporc_base::Memory;
use sporc_files::{Fault, File, Names, first_fault};
use sporc_order::Order;
use sporc_outside::{Folder, Sink};
use sporc_words::Word;
use std::alloc::Global;
use std::fmt::Write;

// Saves the log of each of these documents, also if one before it was not saved, and tells how many
// entries each has.
#[tactic(auto, using(crate::proofs::Saved::as_many_left))]
pub(crate) fn keep_logs<F: Folder, O: Sink>(
    alloc: Global,
    files: &mut F,
    out: &mut O,
    names: &[Word],
    orders: &[Order],
) -> Result<(), Fault>
    requires one_length { length names.now ≡ length orders.now }
    ensures keeps { KeepsLogs names.now orders.now (moment_of F.told O.told files.old out.old)
        (moment_of F.told O.told files.new out.new)
        result }
    ensures lent { (F.told files.new).lent ≡ (F.told files.old).lent }
    ensures may_ask { AsksOnly (logs_of names.now) (F.told files.old).asked
        (F.told files.new).asked }
    ensures kept { (F.told files.old).faults ≤ (F.told files.new).faults }
    ensures out_kept { (O.told out.old).faults ≤ (O.told out.new).faults }
{
    let Some((name, more_names)) = names.split_first() else {
        return Ok(());
    };
    let Some((order, more_orders)) = orders.split_first() else {
        return Ok(());
    };
    let first = keep_document(alloc, files, out, name, order);
    let others = keep_logs(alloc, files, out, more_names, more_orders);
    first_fault(first, others)
}

// Saves the log of one document, and writes `log NAME LEN`, how many entries it has.
fn keep_document<F: Folder, O: Sink>(
    alloc: Global,
    files: &mut F,
    out: &mut O,
    name: &Word,
    order: &Order,
) -> Result<(), Fault>
    ensures keeps { KeepsLog (names_of_document name.now) (use_of F.told files.old files.new)
        (use_of O.told out.old out.new) order.now
        (document_line name.now (length order.now.entries)) result }
    ensures lent { (F.told files.new).lent ≡ (F.told files.old).lent }
    ensures may_ask { AsksOnly (file_name (names_of_document name.now) File.Log ∷ [])
        (F.told files.old).asked (F.told files.new).asked }
    ensures kept { (F.told files.old).faults ≤ (F.told files.new).faults }
    ensures out_kept { (O.told out.old).faults ≤ (O.told out.new).faults }
{
    let line = document_line(alloc, name.as_str(), order.len())?;
    let names = Names::of_document(name.as_str());
    save_log(alloc, files, out, &names, order, line.as_str())
}

// The line that says how many entries of a document were saved.
fn document_line(alloc: Global, name: &str, len: u32) -> Result<String, Memory>
    ensures { IfOk result (λ line. string_bytes line ≡ document_line name.now len) }
{
    let mut line = String::new(alloc);
    writeln!(line, "log {name} {len}")?;
    Ok(line)
}
