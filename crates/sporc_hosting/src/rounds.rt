//! Rounds of a server: sessions are served from an order, and its log is saved.

ghost use Rattle.std.specs.Prelude.{◌≡◌, ◌≤◌, [], ◌∷◌};
ghost use Rattle.sporc_outside.specs.Told.{MayAppend};
ghost use Rattle.sporc_wire.specs.declared.limits.TheConstants.{MAX_SESSIONS};
ghost use Rattle.sporc_outside.specs.Nets.{AreShutBehind};
ghost use Rattle.sporc_files.specs.Names.{file_name};
ghost use Rattle.sporc_files.specs.Uses.{AsksAtMost, AsksOnly};
ghost use Rattle.sporc_files.specs.declared.file.File.TheVariants as kinds;
ghost use Rattle.sporc_hosting.specs.Outcomes.{IsRound};
ghost use Rattle.sporc_hosting.specs.Rounds.{GoRounds, ends, stands};
ghost use Rattle.sporc_hosting.specs.Tails.{KeepsBehind};

use crate::log::keep_log;
use crate::serving::end;
use crate::tail::LogTail;
use sporc_files::{Fault, Names};
use sporc_outside::{AppendFile, Folder, Gate, Listen, Sink};
use sporc_serve::{KeptOrder, serve_kept};
use std::alloc::Global;
use std::sync::Wait;
use std::thread::Threads;

// What a server is asked for: so many sessions at an address, so many times.
#[derive(Drop)]
pub(crate) struct Rounds<'a, D, G> {
    // What names the logs.
    pub(crate) names: &'a D,
    // Where it listens.
    pub(crate) address: &'a str,
    // How many sessions it serves each time.
    pub(crate) sessions: u32,
    // How often it serves so many at the most.
    pub(crate) times: u32,
    pub(crate) gate: &'a G,
}

// What stands after a round, what came of saving the logs, and the round's answer.
#[derive(Drop)]
pub(crate) struct RoundEnd<H> {
    pub(crate) held: H,
    pub(crate) saved: Result<(), Fault>,
    pub(crate) answer: Result<(), Fault>,
}

// Serves so many sessions so many times, up to the first round that does not end well.
pub(crate) fn serve_rounds<
    R: Threads + Wait + Sync,
    F: Folder,
    N: Listen + Send,
    O: Sink,
    G: Gate + Sync,
>(
    rt: &R,
    alloc: Global,
    files: &mut F,
    net: &mut N,
    out: &mut O,
    rounds: &Rounds<'_, Names<'_>, G>,
    held: KeptOrder<LogTail<F::Appended>>,
) -> RoundEnd<KeptOrder<LogTail<F::Appended>>>
where
    F::Appended: Send,
    N::Link: Send,
    requires positive { 1 ≤ rounds.now.sessions }
    requires limit { rounds.now.sessions ≤ MAX_SESSIONS }
    requires times_positive { 1 ≤ rounds.now.times }
    requires tail { ∥ KeepsBehind F.Appended.told held.tail held.order.entries ∥₁ }
    ensures rounds { GoRounds (IsRound rounds.now.names.now rounds.now.sessions) rounds.now.times
        (stands F.told O.told N.told held.order files.old out.old net.old)
        (ends F.told O.told N.told (λ kept. kept.order) result files.new out.new net.new) }
    ensures tail { ∥ KeepsBehind F.Appended.told result.held.tail result.held.order.entries ∥₁ }
    ensures lent { (F.told files.new).lent ≡ (F.told files.old).lent }
    ensures files_may_ask { AsksOnly (file_name rounds.now.names.now kinds.Log ∷ [])
        (F.told files.old).asked (F.told files.new).asked }
    ensures files_kept { (F.told files.old).faults ≤ (F.told files.new).faults }
    ensures net_may_ask { AsksAtMost rounds.now.times (N.told net.old).asked (N.told net.new).asked
        rounds.now.address.now }
    ensures shut { AreShutBehind (N.told net.old).returned (N.told net.new).returned }
    ensures links_out { (N.told net.new).out ≡ (N.told net.old).out }
    ensures net_kept { (N.told net.old).faults ≤ (N.told net.new).faults }
    ensures out_kept { (O.told out.old).faults ≤ (O.told out.new).faults }
{
    let mut last = serve_round(rt, alloc, files, net, out, rounds, held);
    let mut done = 1;
    'rounds: while done < rounds.times {
        match last.answer {
            Ok(()) => {}
            Err(_) => return last,
        }
        last = serve_round(rt, alloc, files, net, out, rounds, last.held);
        done += 1;
    }
    last
}

// Serves so many sessions, saves the log, and writes `log LEN`.
fn serve_round<R: Threads + Wait + Sync, F: Folder, N: Listen + Send, O: Sink, G: Gate + Sync>(
    rt: &R,
    alloc: Global,
    files: &mut F,
    net: &mut N,
    out: &mut O,
    rounds: &Rounds<'_, Names<'_>, G>,
    held: KeptOrder<LogTail<F::Appended>>,
) -> RoundEnd<KeptOrder<LogTail<F::Appended>>>
where
    F::Appended: Send,
    N::Link: Send,
    requires positive { 1 ≤ rounds.now.sessions }
    requires limit { rounds.now.sessions ≤ MAX_SESSIONS }
    requires tail { ∥ KeepsBehind F.Appended.told held.tail held.order.entries ∥₁ }
    ensures round { IsRound rounds.now.names.now rounds.now.sessions
        (stands F.told O.told N.told held.order files.old out.old net.old)
        (ends F.told O.told N.told (λ kept. kept.order) result files.new out.new net.new) }
    ensures tail { ∥ KeepsBehind F.Appended.told result.held.tail result.held.order.entries ∥₁ }
    ensures lent { (F.told files.new).lent ≡ (F.told files.old).lent }
    ensures files_may_ask { AsksOnly (file_name rounds.now.names.now kinds.Log ∷ [])
        (F.told files.old).asked (F.told files.new).asked }
    ensures files_kept { (F.told files.old).faults ≤ (F.told files.new).faults }
    ensures net_may_ask { MayAppend (N.told net.old).asked (N.told net.new).asked
        rounds.now.address.now }
    ensures shut { AreShutBehind (N.told net.old).returned (N.told net.new).returned }
    ensures links_out { (N.told net.new).out ≡ (N.told net.old).out }
    ensures net_kept { (N.told net.old).faults ≤ (N.told net.new).faults }
    ensures out_kept { (O.told out.old).faults ≤ (O.told out.new).faults }
{
    let sessions = rounds.sessions;
    let (held, served) = serve_kept(rt, alloc, net, rounds.address, held, sessions, rounds.gate);
    let saved = keep_log(alloc, files, out, rounds.names, &held.order);
    RoundEnd {
        held,
        saved,
        answer: end(served, saved),
    }
}
