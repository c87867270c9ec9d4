//! The entries of a saved history, appended one after another.

ghost use Rattle.std.specs.Prelude.{◌≡◌, ◌+◌, ◌≤◌, ◌<◌, ◌^◌, [], length, vec_len, IfOk, IfNone};
ghost use Rattle.std.specs.Prelude.{IfSome, OnErr};
ghost use Rattle.std.specs.Thread.{IsSync};
ghost use Rattle.sporc_entry.specs.Genesis.{IsGenesis};
ghost use Rattle.sporc_store.specs.declared.limits.TheConstants.{MAX_WORKERS};
ghost use Rattle.sporc_store.specs.SavedFile.{read_to, saved_in, IsPrefix};
ghost use Rattle.sporc_store.specs.Loading.{accepted, accepted_from, loaded, AppendsPart};
ghost use Rattle.sporc_store.specs.Loading.{AppendsSome, NamesCheck};
ghost use Rattle.sporc_store.specs.TailFiles.{IsRefused};
ghost use Rattle.sporc_store.specs.Verdicts.{AreExact};

use crate::foretelling::foretell;
use crate::history::{DocumentHistory, History};
use crate::limits::{APPENDING, BLOCK};
use crate::reading::saved_entries;
use crate::saved_entry::SavedEntry;
use crate::stop::Stop;
use crate::workers::{Workers, examine_by, examine_part, tell};
use sporc_base::Memory;
use sporc_entry::Genesis;
use sporc_head::Verdict;
use sporc_member::Roster;
use sporc_outside::Gate;
use std::alloc::Global;
use std::sync::Wait;
use std::thread::{Threads, join_mut};

// Appends the entries of a document's saved history to an empty one, up to the first that is cut
// short or refused.
pub(crate) fn append_saved<H: History>(
    alloc: Global,
    history: &mut H,
    document: &[u8; 16],
    bytes: &[u8],
) -> Result<Stop, Memory>
    requires { H.entries history.old ≡ [] }
    ensures ok { IfOk result (λ stop. read_to (H.entries history.new) stop
        ≡ loaded (H.checker history.old) document.now bytes.now) }
    ensures named { IfOk result NamesCheck }
    ensures memory { OnErr result (IsPrefix (H.entries history.new)
        (loaded (H.checker history.old) document.now bytes.now).entries) }
    ensures checker { H.checker history.new ≡ H.checker history.old }
{
    let (entries, stop) = saved_entries(alloc, document, bytes)?;
    append_entries(alloc, history, entries.as_slice(), stop)
}

// Appends such entries with their signatures examined by so many workers: while entries are
// appended, they examine those behind.
pub(crate) fn append_examined<R: Threads + Wait + Sync, G: Gate + Sync, H: DocumentHistory>(
    rt: &R,
    alloc: Global,
    history: &mut H,
    bytes: &[u8],
    workers: u32,
    gate: &G,
) -> Result<Stop, Memory>
    requires empty { H.entries history.old ≡ [] }
    requires positive { 1 ≤ workers }
    requires limit { workers ≤ MAX_WORKERS }
    ensures ok { IfOk result (λ stop. read_to (H.entries history.new) stop
        ≡ loaded (H.checker history.old) (H.genesis history.old).document bytes.now) }
    ensures named { IfOk result NamesCheck }
    ensures memory { OnErr result (IsPrefix (H.entries history.new)
        (loaded (H.checker history.old) (H.genesis history.old).document bytes.now).entries) }
    ensures checker { H.checker history.new ≡ H.checker history.old }
{
    let (mut entries, stop) = foretold_entries(alloc, history.genesis(), bytes)?;
    let workers = Workers {
        rt,
        alloc,
        gate,
        count: workers,
    };
    append_blocks(&workers, history, 0, entries.as_mut_slice(), 0, stop)
}

// The entries of a saved history, where they stand, each with the key that its author is foretold
// to have.
fn foretold_entries<'a>(
    alloc: Global,
    genesis: &Genesis,
    bytes: &'a [u8],
) -> Result<(Vec<SavedEntry<'a>>, Stop), Memory>
    requires is_genesis { IsGenesis genesis.now }
    ensures ok { IfOk result
        (λ read. read_to read.0.items read.1 ≡ saved_in genesis.now.document bytes.entry.now) }
    ensures within { IfOk result (λ read. vec_len read.0 < 2 ^ 32) }
    ensures named { IfOk result (λ read. NamesCheck read.1) }
{
    let roster = Roster::found(alloc, genesis.founders.as_slice())?;
    let (mut entries, stop) = saved_entries(alloc, &genesis.document, bytes)?;
    foretell(alloc, roster, entries.as_mut_slice())?;
    Ok((entries, stop))
}

// Appends entries behind so many others, up to the first that is refused, or where their reading
// stopped. The first `known` of them were examined. While they are appended, the workers examine
// the next block, and so on.
fn append_blocks<R: Threads + Wait + Sync, G: Gate + Sync, H: History>(
    workers: &Workers<'_, R, G>,
    history: &mut H,
    before: usize,
    entries: &mut [SavedEntry<'_>],
    known: usize,
    stop: Stop,
) -> Result<Stop, Memory>
    requires before { length (H.entries history.old) ≡ before }
    requires entries_limit { before + length entries.old < 2 ^ 32 }
    requires in_bounds { known ≤ length entries.old }
    requires positive { 1 ≤ workers.now.count }
    requires limit { workers.now.count ≤ MAX_WORKERS }
    requires named { NamesCheck stop }
    ensures ok { IfOk result (λ end. read_to (H.entries history.new) end
        ≡ accepted_from (H.checker history.old) (H.entries history.old) entries.old stop) }
    ensures named { IfOk result NamesCheck }
    ensures memory { OnErr result (IsPrefix (H.entries history.new)
        (accepted_from (H.checker history.old) (H.entries history.old) entries.old stop).entries) }
    ensures checker { H.checker history.new ≡ H.checker history.old }
{
    if entries.is_empty() {
        return Ok(stop);
    }
    let (block, rest) = entries.split_at_mut(known);
    let count = rest.len().min(BLOCK);
    let behind = before + known;
    match append_beside(workers, history, before, block, rest, count) {
        Ok(Some(refused)) => Ok(refused),
        Ok(None) => append_blocks(workers, history, behind, rest, count, stop),
        Err(memory) => Err(memory),
    }
}

// Appends examined entries behind so many others, up to the first that is refused, while the
// workers examine the first few of the rest. The first worker does both, so its part of these is
// the smaller.
fn append_beside<R: Threads + Wait + Sync, G: Gate + Sync, H: History>(
    workers: &Workers<'_, R, G>,
    history: &mut H,
    before: usize,
    block: &[SavedEntry<'_>],
    rest: &mut [SavedEntry<'_>],
    count: usize,
) -> Result<Option<Stop>, Memory>
    requires before { length (H.entries history.old) ≡ before }
    requires entries_limit { before + length block.now + length rest.old < 2 ^ 32 }
    requires in_bounds { count ≤ length rest.old }
    requires positive { 1 ≤ workers.now.count }
    requires limit { workers.now.count ≤ MAX_WORKERS }
    ensures ok { IfOk result (λ refused. AppendsPart (H.checker history.old)
        (H.entries history.old) block.now refused (H.entries history.new)) }
    ensures memory { OnErr result (AppendsSome (H.checker history.old)
        (H.entries history.old) block.now (H.entries history.new)) }
    ensures checker { H.checker history.new ≡ H.checker history.old }
    ensures rest { rest.new ≡ rest.old }
{
    let helpers = workers.count - 1;
    let share = first_share(block.len(), count, workers.count);
    let behind = (before + block.len() + share) as u32;
    let (own, others) = rest[..count].split_at(share);
    let (found, appended) = join_mut(
        workers.rt,
        &mut || -> Result<Vec<Option<Verdict>>, Memory>
            requires { IsSync R.row × IsSync G.row × (2 + helpers < 2 ^ 32)
                × (behind + length others.now < 2 ^ 32) }
            ensures { IfOk result (λ verdicts. AreExact verdicts.items others.entry.now) }
        { examine_by(workers, 2, helpers, behind, others) },
        &mut || -> Result<Appended, Memory>
            requires { IsSync R.row × IsSync G.row × (length (H.entries history.now) ≡ before)
                × (before + length block.now + length own.now < 2 ^ 32) }
            ensures ok { IfOk result
                (λ appended. AppendsPart (H.checker history.entry.now) (H.entries history.entry.now)
                block.entry.now appended.refused (H.entries history.exit.now)) }
            ensures exact { IfOk result (λ appended. IfNone appended.refused
                (AreExact appended.verdicts.items own.entry.now)) }
            ensures memory { OnErr result (AppendsSome (H.checker history.entry.now)
                (H.entries history.entry.now) block.entry.now (H.entries history.exit.now)) }
            ensures checker { H.checker history.exit.now ≡ H.checker history.entry.now }
        { append_and_examine(workers, history, before, block, own) },
    );
    let mut appended = appended?;
    if appended.refused.is_none() {
        let mut found = found?;
        appended.verdicts.append(&mut found)?;
        tell(rest, count, appended.verdicts.as_slice());
    }
    Ok(appended.refused)
}

// How many of the entries to examine the first worker takes, while it appends so many: its part of
// all that is to be done.
fn first_share(appended: usize, count: usize, workers: u32) -> usize
    requires positive { 1 ≤ workers }
    requires limit { appended + count < 2 ^ 32 }
    ensures within { result ≤ count }
{
    let appending = appended / APPENDING;
    ((count + appending) / workers as usize)
        .saturating_sub(appending)
        .min(count)
}

// The first worker's work on a block: what came of the entries that it appended, and what it found
// of those that it examined.
#[derive(Drop)]
struct Appended {
    refused: Option<Stop>,
    verdicts: Vec<Option<Verdict>>,
}

// Appends examined entries behind so many others, and unless one is refused, examines some of those
// behind them.
fn append_and_examine<R: Wait, G: Gate, H: History>(
    workers: &Workers<'_, R, G>,
    history: &mut H,
    before: usize,
    block: &[SavedEntry<'_>],
    next: &[SavedEntry<'_>],
) -> Result<Appended, Memory>
    requires before { length (H.entries history.old) ≡ before }
    requires limit { before + length block.now + length next.now < 2 ^ 32 }
    ensures ok { IfOk result (λ appended. AppendsPart (H.checker history.old)
        (H.entries history.old) block.now appended.refused (H.entries history.new)) }
    ensures exact { IfOk result
        (λ appended. IfNone appended.refused (AreExact appended.verdicts.items next.now)) }
    ensures memory { OnErr result (AppendsSome (H.checker history.old)
        (H.entries history.old) block.now (H.entries history.new)) }
    ensures checker { H.checker history.new ≡ H.checker history.old }
{
    let refused = append_part(workers.alloc, history, before, block)?;
    let verdicts = match refused {
        Some(_) => Vec::new(workers.alloc),
        None => {
            let behind = (before + block.len()) as u32;
            examine_part(workers, 1, behind, next)?
        }
    };
    Ok(Appended { refused, verdicts })
}

// Appends entries to an empty history, up to the first that is refused, or where their reading
// stopped.
fn append_entries<H: History>(
    alloc: Global,
    history: &mut H,
    entries: &[SavedEntry<'_>],
    stop: Stop,
) -> Result<Stop, Memory>
    requires empty { H.entries history.old ≡ [] }
    requires limit { length entries.now < 2 ^ 32 }
    requires named { NamesCheck stop }
    ensures ok { IfOk result (λ end. read_to (H.entries history.new) end
        ≡ accepted (H.checker history.old) (read_to entries.now stop)) }
    ensures named { IfOk result NamesCheck }
    ensures memory { OnErr result (IsPrefix (H.entries history.new)
        (accepted (H.checker history.old) (read_to entries.now stop)).entries) }
    ensures checker { H.checker history.new ≡ H.checker history.old }
{
    match append_part(alloc, history, 0, entries) {
        Ok(Some(refused)) => Ok(refused),
        Ok(None) => Ok(stop),
        Err(memory) => Err(memory),
    }
}

// Appends entries behind so many others, up to the first that is refused.
pub(crate) fn append_part<H: History>(
    alloc: Global,
    history: &mut H,
    before: usize,
    entries: &[SavedEntry<'_>],
) -> Result<Option<Stop>, Memory>
    requires before { length (H.entries history.old) ≡ before }
    requires limit { before + length entries.now < 2 ^ 32 }
    ensures ok { IfOk result (λ refused. AppendsPart (H.checker history.old)
        (H.entries history.old) entries.now refused (H.entries history.new)) }
    ensures refused { IfOk result (λ refused. IfSome refused IsRefused) }
    ensures memory { OnErr result (AppendsSome (H.checker history.old)
        (H.entries history.old) entries.now (H.entries history.new)) }
    ensures checker { H.checker history.new ≡ H.checker history.old }
{
    for (taken, entry) in entries.iter().enumerate() {
        if let Some(refusal) = history.append(alloc, entry)? {
            return Ok(Some(Stop::Refused((before + taken) as u32 + 1, refusal)));
        }
    }
    Ok(None)
}
