//! `serve-all ADDRESS --sessions K --times T NAME ..`.

ghost use Rattle.std.specs.Prelude.{◌≡◌, ◌≤◌, length};
ghost use Rattle.sporc_wire.specs.declared.limits.TheConstants.{MAX_DOCUMENTS, MAX_SESSIONS};
ghost use Rattle.sporc_outside.specs.Uses.{use_of};
ghost use Rattle.sporc_outside.specs.Nets.{AreShutBehind};
ghost use Rattle.sporc_docs.specs.Served.{AreKept};
ghost use Rattle.sporc_files.specs.Uses.{AsksAtMost, AsksOnly};
ghost use Rattle.sporc_hosting.specs.Loading.{files_of_all};
ghost use Rattle.sporc_hosting.specs.Tails.{KeepsBehind};
ghost use Rattle.sporc_hosting.specs.Hosting.{GivesAllBack, ServeAllOutcome};

use crate::giving::give_back_all;
use crate::loading::{OpenDocs, open_documents};
use crate::open_log::OpenLog;
use crate::rounds::Rounds;
use crate::rounds_of_all::{DocumentNames, serve_rounds};
use crate::serving::after_last;
use crate::tail::LogTail;
use sporc_docs::{Docs, KeptDocs};
use sporc_files::Fault;
use sporc_outside::{AppendFile, Folder, Gate, Listen, Sink};
use sporc_words::ServeAll;
use std::alloc::Global;
use std::sync::Wait;
use std::thread::Threads;

/// `serve-all ADDRESS --sessions K --times T NAME ..` serves so many sessions of the documents of
/// these names, each from its log, or from an empty one if there is none. Whatever came of the
/// sessions, it then saves each log in the order of the names, also if one before it was not saved,
/// and writes `log NAME LEN` for each, how many entries it has; and so again, up to a time that
/// does not end well.
///
/// If two names are of one document, that is a fault of the later, `Fault::Exists`, once its log
/// was loaded; nothing is served then. A fault of the server goes before those of saving, and of
/// these the first counts, but out of memory at the saving goes before all.
pub fn serve_all<R: Threads + Wait + Sync, F: Folder, N: Listen + Send, O: Sink, G: Gate + Sync>(
    rt: &R,
    alloc: Global,
    files: &mut F,
    net: &mut N,
    out: &mut O,
    asked: &ServeAll,
    gate: &G,
) -> Result<(), Fault>
where
    F::Appended: Drop + Send,
    N::Link: Send,
    requires documents_limit { length asked.now.names ≤ MAX_DOCUMENTS }
    requires positive { 1 ≤ asked.now.sessions }
    requires limit { asked.now.sessions ≤ MAX_SESSIONS }
    requires times_positive { 1 ≤ asked.now.times }
    ensures outcome { ServeAllOutcome asked.now.names asked.now.sessions asked.now.times
        (use_of F.told files.old files.new) (use_of O.told out.old out.new) (N.told net.old)
        (N.told net.new) result }
    ensures lent { (F.told files.new).lent ≡ (F.told files.old).lent }
    ensures files_may_ask { AsksOnly (files_of_all asked.now.names) (F.told files.old).asked
        (F.told files.new).asked }
    ensures files_kept { (F.told files.old).faults ≤ (F.told files.new).faults }
    ensures net_may_ask { AsksAtMost asked.now.times (N.told net.old).asked (N.told net.new).asked
        asked.now.address }
    ensures shut { AreShutBehind (N.told net.old).returned (N.told net.new).returned }
    ensures links_out { (N.told net.new).out ≡ (N.told net.old).out }
    ensures net_kept { (N.told net.old).faults ≤ (N.told net.new).faults }
    ensures out_kept { (O.told out.old).faults ≤ (O.told out.new).faults }
{
    let mut held = OpenDocs {
        docs: Docs::new(alloc),
        tails: Vec::new(alloc),
        logs: Vec::new(alloc),
    };
    let names = asked.names.as_slice();
    match open_documents(rt, alloc, files, names, 1, &mut held, gate) {
        Ok(()) => {
            let OpenDocs { docs, tails, logs } = held;
            let address = asked.address.as_str();
            let rounds = Rounds {
                names: &DocumentNames { words: names },
                address,
                sessions: asked.sessions,
                times: asked.times,
                gate,
            };
            let kept = KeptDocs { docs, tails };
            let last = serve_rounds(rt, alloc, files, net, out, &rounds, kept);
            after_last(last.answer, give_back(files, logs, last.held, last.saved))
        }
        Err(fault) => {
            let OpenDocs { docs, tails, logs } = held;
            let kept = KeptDocs { docs, tails };
            after_last(Err(fault), give_back(files, logs, kept, Err(fault)))
        }
    }
}

// Gives the files of all tails back.
fn give_back<F: Folder>(
    files: &mut F,
    logs: Vec<OpenLog>,
    kept: KeptDocs<LogTail<F::Appended>>,
    saved: Result<(), Fault>,
) -> Result<(), Fault>
where
    F::Appended: Drop,
    requires one_length { length logs.items ≡ length kept.docs }
    requires tails { AreKept (KeepsBehind F.Appended.told) kept.tails.items kept.docs }
    ensures gives { GivesAllBack 1 logs.items kept.docs saved (F.told files.old) (F.told files.new)
        result }
    ensures lent { (F.told files.new).lent ≡ (F.told files.old).lent }
    ensures asked { (F.told files.new).asked ≡ (F.told files.old).asked }
    ensures kept { (F.told files.old).faults ≤ (F.told files.new).faults }
{
    let KeptDocs { docs, tails } = kept;
    let mut tails = tails;
    give_back_all(files, &logs, docs.orders(), 1, &mut tails, saved)
}
