//! The log of a server: loaded before it serves, and saved behind that.

ghost use Rattle.std.specs.Prelude.{◌≡◌, ◌≤◌, [], ◌∷◌, length, IfOk, string_bytes};
ghost use Rattle.sporc_outside.specs.Uses.{use_of};
ghost use Rattle.sporc_entry.specs.Genesis.{IsGenesis};
ghost use Rattle.sporc_store.specs.SavedFile.{read_to};
ghost use Rattle.sporc_files.specs.Names.{file_name};
ghost use Rattle.sporc_files.specs.Uses.{AsksOnly, OnlyReads};
ghost use Rattle.sporc_files.specs.Faults.{AnswersUnlessOutside};
ghost use Rattle.sporc_files.specs.Contents.{AnswersOfFile};
ghost use Rattle.sporc_hosting.specs.Serving.{logged, logged_in, order_of_whole, saved_log};
ghost use Rattle.sporc_hosting.specs.Outcomes.{KeepsLog, log_line};

use sporc_base::Memory;
use sporc_entry::Genesis;
use sporc_files::{Fault, File, Names, read_if_there, stopped, write_whole_file};
use sporc_order::Order;
use sporc_outside::{Folder, Gate, Sink, write_all};
use sporc_store::{LOADERS, Stop, load_order_many, save};
use std::alloc::Global;
use std::fmt::Write;
use std::sync::Wait;
use std::thread::Threads;

// The order in the log of a document, behind its genesis, or an empty one if there is no log.
pub(crate) fn read_log<R: Threads + Wait + Sync, F: Folder, G: Gate + Sync>(
    rt: &R,
    alloc: Global,
    files: &mut F,
    names: &Names<'_>,
    genesis: Genesis,
    gate: &G,
) -> Result<Order, Fault>
    requires { IsGenesis genesis }
    ensures found { AnswersOfFile (λ order. order) (use_of F.told files.old files.new)
        (file_name names.now File.Log) result (logged genesis) }
    ensures reads { OnlyReads names.now (File.Log ∷ []) (use_of F.told files.old files.new) }
{
    let log = read_if_there(alloc, files, names, File::Log)?;
    match log {
        Some(bytes) => order_of(rt, alloc, genesis, bytes.as_slice(), gate),
        None => {
            let order = Order::open(alloc, genesis)?;
            Ok(order)
        }
    }
}

// The order that a log holds, if it is whole and each entry is accepted.
fn order_of<R: Threads + Wait + Sync, G: Gate + Sync>(
    rt: &R,
    alloc: Global,
    genesis: Genesis,
    bytes: &[u8],
    gate: &G,
) -> Result<Order, Fault>
    requires { IsGenesis genesis }
    ensures value { AnswersUnlessOutside (λ order. order) ⊥ result (logged_in genesis bytes.now) }
{
    let empty = Order::open(alloc, genesis)?;
    match load_order_many(rt, alloc, bytes, empty, LOADERS, gate) {
        Ok((order, stop)) => whole_order(order, stop),
        Err(_) => Err(Fault::Memory),
    }
}

// An order, if it was loaded to the end of its log.
fn whole_order(order: Order, stop: Stop) -> Result<Order, Fault>
    ensures value { AnswersUnlessOutside (λ order. order) ⊥ result
        (order_of_whole File.Log order.genesis (read_to order.entries stop)) }
{
    stopped(File::Log, stop)?;
    Ok(order)
}

// Saves the log of an order, and writes `log LEN`, how many entries it has.
pub(crate) fn keep_log<F: Folder, O: Sink>(
    alloc: Global,
    files: &mut F,
    out: &mut O,
    names: &Names<'_>,
    order: &Order,
) -> Result<(), Fault>
    ensures keeps { KeepsLog names.now (use_of F.told files.old files.new)
        (use_of O.told out.old out.new) order.now (log_line (length order.now.entries)) result }
    ensures lent { (F.told files.new).lent ≡ (F.told files.old).lent }
    ensures may_ask { AsksOnly (file_name names.now File.Log ∷ []) (F.told files.old).asked
        (F.told files.new).asked }
    ensures kept { (F.told files.old).faults ≤ (F.told files.new).faults }
    ensures out_kept { (O.told out.old).faults ≤ (O.told out.new).faults }
{
    let line = log_line(alloc, order.len())?;
    save_log(alloc, files, out, names, order, line.as_str())
}

// Saves the log of an order, and writes this line once it is saved.
pub(crate) fn save_log<F: Folder, O: Sink>(
    alloc: Global,
    files: &mut F,
    out: &mut O,
    names: &Names<'_>,
    order: &Order,
    line: &str,
) -> Result<(), Fault>
    ensures keeps { KeepsLog names.now (use_of F.told files.old files.new)
        (use_of O.told out.old out.new) order.now line.now result }
    ensures lent { (F.told files.new).lent ≡ (F.told files.old).lent }
    ensures may_ask { AsksOnly (file_name names.now File.Log ∷ []) (F.told files.old).asked
        (F.told files.new).asked }
    ensures kept { (F.told files.old).faults ≤ (F.told files.new).faults }
    ensures out_kept { (O.told out.old).faults ≤ (O.told out.new).faults }
{
    let log = log_of(alloc, order)?;
    write_whole_file(alloc, files, names, File::Log, log.as_slice())?;
    write_all(out, line.as_bytes())?;
    Ok(())
}

// The file of an order's entries.
fn log_of(alloc: Global, order: &Order) -> Result<Vec<u8>, Fault>
    ensures value { AnswersUnlessOutside (λ log. log.items) ⊥ result (saved_log order.now) }
{
    let log = save(alloc, order.document(), order.entries())?;
    Ok(log)
}

// The line that says how many entries were saved.
fn log_line(alloc: Global, len: u32) -> Result<String, Memory>
    ensures { IfOk result (λ line. string_bytes line ≡ log_line len) }
{
    let mut line = String::new(alloc);
    writeln!(line, "log {len}")?;
    Ok(line)
}
