//! The signatures of a file's entries, examined by several workers.

ghost use Rattle.std.specs.Prelude.{◌≡◌, ◌+◌, ◌≤◌, ◌<◌, ◌^◌, length, take, IfOk};
ghost use Rattle.std.specs.Thread.{IsSync};
ghost use Rattle.sporc_store.specs.Verdicts.{AreExact};

use crate::saved_entry::SavedEntry;
use sporc_base::Memory;
use sporc_head::Verdict;
use sporc_outside::Gate;
use std::alloc::Global;
use std::sync::Wait;
use std::thread::{Threads, join_mut};

// So many workers, and what they work with.
#[derive(Drop)]
pub(crate) struct Workers<'a, R, G> {
    pub(crate) rt: &'a R,
    pub(crate) alloc: Global,
    pub(crate) gate: &'a G,
    pub(crate) count: u32,
}

// Examines the signatures of entries, the first of which stands behind so many others, by so many
// of all workers, numbered from `worker` on. Each takes entries that stand together, in a thread of
// its own where one can be made. If there is none, the first takes them.
pub(crate) fn examine_by<R: Threads + Wait + Sync, G: Gate + Sync>(
    all: &Workers<'_, R, G>,
    worker: u32,
    workers: u32,
    before: u32,
    entries: &[SavedEntry<'_>],
) -> Result<Vec<Option<Verdict>>, Memory>
    requires workers_limit { worker + workers < 2 ^ 32 }
    requires limit { before + length entries.now < 2 ^ 32 }
    ensures { IfOk result (λ verdicts. AreExact verdicts.items entries.now) }
{
    if workers <= 1 {
        return examine_part(all, worker, before, entries);
    }
    let next = worker + 1;
    let others = workers - 1;
    let count = entries.len() / workers as usize;
    let behind = before + count as u32;
    let (part, rest) = entries.split_at(count);
    let (first, second) = join_mut(
        all.rt,
        &mut || -> Result<Vec<Option<Verdict>>, Memory>
            requires { IsSync R.row × IsSync G.row × (before + length part.now < 2 ^ 32) }
            ensures { IfOk result (λ verdicts. AreExact verdicts.items part.entry.now) }
        { examine_part(all, worker, before, part) },
        &mut || -> Result<Vec<Option<Verdict>>, Memory>
            requires { IsSync R.row × IsSync G.row × (1 ≤ others) × (next + others < 2 ^ 32)
                × (behind + length rest.now < 2 ^ 32) }
            ensures { IfOk result (λ verdicts. AreExact verdicts.items rest.entry.now) }
        { examine_by(all, next, others, behind, rest) },
    );
    let mut verdicts = first?;
    let mut further = second?;
    verdicts.append(&mut further)?;
    Ok(verdicts)
}

// Examines the signatures of entries by one worker.
pub(crate) fn examine_part<R: Wait, G: Gate>(
    all: &Workers<'_, R, G>,
    worker: u32,
    before: u32,
    entries: &[SavedEntry<'_>],
) -> Result<Vec<Option<Verdict>>, Memory>
    requires { before + length entries.now < 2 ^ 32 }
    ensures { IfOk result (λ verdicts. AreExact verdicts.items entries.now) }
{
    let mut verdicts = Vec::new(all.alloc);
    for (i, entry) in entries.iter().enumerate() {
        all.gate.before_line(all.rt, worker, before + i as u32 + 1);
        let verdict = entry.examine(all.alloc)?;
        verdicts.push(verdict)?;
    }
    Ok(verdicts)
}

// Tells each of the first few entries what its examination found.
#[tactic(auto, using(crate::proofs::Exactly::exact_count))]
pub(crate) fn tell(entries: &mut [SavedEntry<'_>], count: usize, verdicts: &[Option<Verdict>])
    requires in_bounds { count ≤ length entries.old }
    requires exact { AreExact verdicts.now (take count entries.old) }
    ensures { entries.new ≡ entries.old }
{
    for i in 0..count {
        entries[i].learn(verdicts[i]);
    }
}
