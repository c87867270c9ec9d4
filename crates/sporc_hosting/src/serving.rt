//! `serve NAME ADDRESS --sessions K --times T`.

ghost use Rattle.std.specs.Prelude.{◌≡◌, ◌≤◌, map};
ghost use Rattle.sporc_wire.specs.declared.limits.TheConstants.{MAX_SESSIONS};
ghost use Rattle.sporc_outside.specs.Uses.{use_of};
ghost use Rattle.sporc_outside.specs.Nets.{AreShutBehind};
ghost use Rattle.sporc_files.specs.Names.{file_name, names_of_document};
ghost use Rattle.sporc_files.specs.Uses.{AsksAtMost, AsksOnly};
ghost use Rattle.sporc_hosting.specs.Serving.{ended, serve_fault, served_files};
ghost use Rattle.sporc_hosting.specs.Outcomes.{ServeOutcome};
ghost use Rattle.sporc_hosting.specs.Tails.{GivesLastBack, KeepsBehind, KeepsTail, RemovesTail};
ghost use Rattle.sporc_hosting.specs.Tails.{after_last};

use crate::opening::{OpenedOrder, open_order};
use crate::rounds::{RoundEnd, Rounds, serve_rounds};
use crate::tail::LogTail;
use sporc_files::{Fault, File, Names, first_fault};
use sporc_order::Order;
use sporc_outside::{AppendFile, Counted, Folder, Gate, Listen, Sink};
use sporc_serve::{KeptOrder, ServeFault};
use sporc_words::Serve;
use std::alloc::Global;
use std::sync::Wait;
use std::thread::Threads;

/// `serve NAME ADDRESS --sessions K --times T` serves so many sessions from the log of a document,
/// or from an empty one if there is none, saves the log and writes `log LEN`, how many entries it
/// then has, whatever came of the sessions; and so again, up to a time that does not end well. A
/// fault of the server goes before one of saving, but out of memory at the saving before it.
pub fn serve<R: Threads + Wait + Sync, F: Folder, N: Listen + Send, O: Sink, G: Gate + Sync>(
    rt: &R,
    alloc: Global,
    files: &mut F,
    net: &mut N,
    out: &mut O,
    asked: &Serve,
    gate: &G,
) -> Result<(), Fault>
where
    F::Appended: Send,
    N::Link: Send,
    requires positive { 1 ≤ asked.now.sessions }
    requires limit { asked.now.sessions ≤ MAX_SESSIONS }
    requires times_positive { 1 ≤ asked.now.times }
    ensures outcome { ServeOutcome (names_of_document asked.now.name) asked.now.sessions
        asked.now.times (use_of F.told files.old files.new) (use_of O.told out.old out.new)
        (N.told net.old) (N.told net.new) result }
    ensures lent { (F.told files.new).lent ≡ (F.told files.old).lent }
    ensures files_may_ask { AsksOnly
        (map (file_name (names_of_document asked.now.name)) served_files)
        (F.told files.old).asked (F.told files.new).asked }
    ensures files_kept { (F.told files.old).faults ≤ (F.told files.new).faults }
    ensures net_may_ask { AsksAtMost asked.now.times (N.told net.old).asked (N.told net.new).asked
        asked.now.address }
    ensures shut { AreShutBehind (N.told net.old).returned (N.told net.new).returned }
    ensures links_out { (N.told net.new).out ≡ (N.told net.old).out }
    ensures net_kept { (N.told net.old).faults ≤ (N.told net.new).faults }
    ensures out_kept { (O.told out.old).faults ≤ (O.told out.new).faults }
{
    let names = Names::of_document(asked.name.as_str());
    let opened = open_order(rt, alloc, files, &names, gate)?;
    let OpenedOrder { kept, name, logged } = opened;
    let address = asked.address.as_str();
    let rounds = Rounds {
        names: &names,
        address,
        sessions: asked.sessions,
        times: asked.times,
        gate,
    };
    let last = serve_rounds(rt, alloc, files, net, out, &rounds, kept);
    give_back(files, name.as_str(), logged, last)
}

// Gives the tail's file back behind the last round, and answers.
fn give_back<F: Folder>(
    files: &mut F,
    name: &str,
    logged: u32,
    last: RoundEnd<KeptOrder<LogTail<F::Appended>>>,
) -> Result<(), Fault>
    requires tail { ∥ KeepsBehind F.Appended.told last.held.tail last.held.order.entries ∥₁ }
    ensures given { GivesLastBack name.now (use_of F.told files.old files.new) logged
        last.held.order last.saved last.answer result }
    ensures lent { (F.told files.new).lent ≡ (F.told files.old).lent }
    ensures asked { (F.told files.new).asked ≡ (F.told files.old).asked }
    ensures kept { (F.told files.old).faults ≤ (F.told files.new).faults }
{
    let KeptOrder { order, tail } = last.held;
    let given = match last.saved {
        Ok(()) => remove_tail(files, name, tail),
        Err(_) => keep_tail(files, name, &order, logged, tail),
    };
    after_last(last.answer, given)
}

// Removes the file of a tail whose log has all entries.
pub(crate) fn remove_tail<F: Folder>(
    files: &mut F,
    name: &str,
    tail: LogTail<F::Appended>,
) -> Result<(), Fault>
    ensures removes { RemovesTail name.now (use_of F.told files.old files.new) result }
    ensures lent { (F.told files.new).lent ≡ (F.told files.old).lent }
    ensures asked { (F.told files.new).asked ≡ (F.told files.old).asked }
    ensures kept { (F.told files.old).faults ≤ (F.told files.new).faults }
{
    // Not called for its answer: that the folder's count can be told here is what `kept` rests on.
    let _faults = files.faults();
    match files.remove(name, tail.close()) {
        Ok(()) => Ok(()),
        Err(_) => Err(Fault::Outside),
    }
}

// Gives the file of a tail back, which keeps the entries of this order behind a log that has at
// least so many.
pub(crate) fn keep_tail<F: Folder>(
    files: &mut F,
    name: &str,
    order: &Order,
    logged: u32,
    tail: LogTail<F::Appended>,
) -> Result<(), Fault>
    requires tail { ∥ KeepsBehind F.Appended.told tail order.now.entries ∥₁ }
    ensures keeps { KeepsTail name.now (use_of F.told files.old files.new) logged
        order.now.genesis.document order.now.entries result }
    ensures lent { (F.told files.new).lent ≡ (F.told files.old).lent }
    ensures asked { (F.told files.new).asked ≡ (F.told files.old).asked }
    ensures kept { (F.told files.old).faults ≤ (F.told files.new).faults }
{
    // A lock hands back the tail that it was handed, but no contract says that.
    let is_own = tail.is_behind(order.document(), logged);
    // Not called for its answer: that the folder's count can be told here is what `kept` rests on.
    let _faults = files.faults();
    files.take_file(name, tail.close());
    if is_own {
        return Ok(());
    }
    Err(Fault::Malformed(File::Tail, 0))
}

// What is answered behind the last round, by its answer and by what came of giving the tail back.
pub(crate) fn after_last(answer: Result<(), Fault>, given: Result<(), Fault>) -> Result<(), Fault>
    ensures value { result ≡ after_last answer given }
{
    let Err(fault) = answer else {
        return given;
    };
    match given {
        Err(Fault::Malformed(_, _)) => given,
        Ok(()) | Err(_) => Err(fault),
    }
}

// What `serve` answers, by what came of the sessions and of saving the log: a server's fault goes
// before one of saving its log, but for out of memory at that.
pub(crate) fn end(served: Result<(), ServeFault>, kept: Result<(), Fault>) -> Result<(), Fault>
    ensures value { result ≡ ended served kept }
{
    match served {
        Ok(()) => kept,
        Err(fault) => first_fault(Err(fault_of(fault)), kept),
    }
}

// The fault of the program that a server's is.
fn fault_of(fault: ServeFault) -> Fault
    ensures value { result ≡ serve_fault fault }
{
    match fault {
        ServeFault::ListenFault => Fault::Outside,
        ServeFault::Worn(_) => Fault::Worn,
        ServeFault::Memory => Fault::Memory,
        ServeFault::Unkept => Fault::Outside,
    }
}
