//! Rounds of a server of many documents: sessions are served, and each log is saved.

ghost use Rattle.std.specs.Prelude.{◌≡◌, ◌≤◌};
ghost use Rattle.sporc_outside.specs.Told.{MayAppend};
ghost use Rattle.sporc_wire.specs.declared.limits.TheConstants.{MAX_SESSIONS};
ghost use Rattle.sporc_outside.specs.Nets.{AreShutBehind};
ghost use Rattle.sporc_files.specs.Uses.{AsksAtMost, AsksOnly};
ghost use Rattle.sporc_hosting.specs.Rounds.{GoRounds, ends, stands};
ghost use Rattle.sporc_hosting.specs.Hosting.{AreHeld, IsRoundOfAll};
ghost use Rattle.sporc_hosting.specs.Saving.{logs_of};

use crate::rounds::{RoundEnd, Rounds};
use crate::saving::keep_logs;
use crate::serving::end;
use crate::tail::LogTail;
use sporc_docs::{KeptDocs, serve_docs_kept};
use sporc_outside::{AppendFile, Folder, Gate, Listen, Sink};
use sporc_words::Word;
use std::alloc::Global;
use std::sync::Wait;
use std::thread::Threads;

// The names of several documents.
#[derive(Drop)]
pub(crate) struct DocumentNames<'a> {
    pub(crate) words: &'a [Word],
}

// Serves so many sessions so many times, up to the first round that does not end well.
pub(crate) fn serve_rounds<
    R: Threads + Wait + Sync,
    F: Folder,
    N: Listen + Send,
    O: Sink,
    G: Gate + Sync,
>(
    rt: &R,
    alloc: Global,
    files: &mut F,
    net: &mut N,
    out: &mut O,
    rounds: &Rounds<'_, DocumentNames<'_>, G>,
    held: KeptDocs<LogTail<F::Appended>>,
) -> RoundEnd<KeptDocs<LogTail<F::Appended>>>
where
    F::Appended: Drop + Send,
    N::Link: Send,
    requires positive { 1 ≤ rounds.now.sessions }
    requires limit { rounds.now.sessions ≤ MAX_SESSIONS }
    requires times_positive { 1 ≤ rounds.now.times }
    requires tails { AreHeld F.Appended.told rounds.now.names.now.words.now held.tails.items
        held.docs }
    ensures rounds { GoRounds (IsRoundOfAll rounds.now.names.now.words.now rounds.now.sessions)
        rounds.now.times (stands F.told O.told N.told held.docs files.old out.old net.old)
        (ends F.told O.told N.told (λ kept. kept.docs) result files.new out.new net.new) }
    ensures tails { AreHeld F.Appended.told rounds.now.names.now.words.now result.held.tails.items
        result.held.docs }
    ensures lent { (F.told files.new).lent ≡ (F.told files.old).lent }
    ensures files_may_ask { AsksOnly (logs_of rounds.now.names.now.words.now)
        (F.told files.old).asked (F.told files.new).asked }
    ensures files_kept { (F.told files.old).faults ≤ (F.told files.new).faults }
    ensures net_may_ask { AsksAtMost rounds.now.times (N.told net.old).asked (N.told net.new).asked
        rounds.now.address.now }
    ensures shut { AreShutBehind (N.told net.old).returned (N.told net.new).returned }
    ensures links_out { (N.told net.new).out ≡ (N.told net.old).out }
    ensures net_kept { (N.told net.old).faults ≤ (N.told net.new).faults }
    ensures out_kept { (O.told out.old).faults ≤ (O.told out.new).faults }
{
    let mut last = serve_round(rt, alloc, files, net, out, rounds, held);
    let mut done = 1;
    'rounds: while done < rounds.times {
        match last.answer {
            Ok(()) => {}
            Err(_) => return last,
        }
        last = serve_round(rt, alloc, files, net, out, rounds, last.held);
        done += 1;
    }
    last
}

// Serves so many sessions, saves each log, and writes how many entries it has.
fn serve_round<R: Threads + Wait + Sync, F: Folder, N: Listen + Send, O: Sink, G: Gate + Sync>(
    rt: &R,
    alloc: Global,
    files: &mut F,
    net: &mut N,
    out: &mut O,
    rounds: &Rounds<'_, DocumentNames<'_>, G>,
    held: KeptDocs<LogTail<F::Appended>>,
) -> RoundEnd<KeptDocs<LogTail<F::Appended>>>
where
    F::Appended: Drop + Send,
    N::Link: Send,
    requires positive { 1 ≤ rounds.now.sessions }
    requires limit { rounds.now.sessions ≤ MAX_SESSIONS }
    requires tails { AreHeld F.Appended.told rounds.now.names.now.words.now held.tails.items
        held.docs }
    ensures round { IsRoundOfAll rounds.now.names.now.words.now rounds.now.sessions
        (stands F.told O.told N.told held.docs files.old out.old net.old)
        (ends F.told O.told N.told (λ kept. kept.docs) result files.new out.new net.new) }
    ensures tails { AreHeld F.Appended.told rounds.now.names.now.words.now result.held.tails.items
        result.held.docs }
    ensures lent { (F.told files.new).lent ≡ (F.told files.old).lent }
    ensures files_may_ask { AsksOnly (logs_of rounds.now.names.now.words.now)
        (F.told files.old).asked (F.told files.new).asked }
    ensures files_kept { (F.told files.old).faults ≤ (F.told files.new).faults }
    ensures net_may_ask { MayAppend (N.told net.old).asked (N.told net.new).asked
        rounds.now.address.now }
    ensures shut { AreShutBehind (N.told net.old).returned (N.told net.new).returned }
    ensures links_out { (N.told net.new).out ≡ (N.told net.old).out }
    ensures net_kept { (N.told net.old).faults ≤ (N.told net.new).faults }
    ensures out_kept { (O.told out.old).faults ≤ (O.told out.new).faults }
{
    let sessions = rounds.sessions;
    let (held, served) = serve_docs_kept(
        rt,
        alloc,
        net,
        rounds.address,
        held,
        sessions,
        rounds.gate,
    );
    let saved = keep_logs(alloc, files, out, rounds.names.words, held.docs.orders());
    RoundEnd {
        held,
        saved,
        answer: end(served, saved),
    }
}
