//! The change that adds a member.

ghost use Rattle.std.specs.Prelude.{◌≡◌, ◌∷◌, ◌<◌, map, reverse, option_map, IfOk, IfSome};
ghost use Rattle.sporc_entry.specs.CommittedChanges.{changes};
ghost use Rattle.sporc_epoch.specs.Hints.{adds, joins, joining, start_by, starts_before};

use crate::start::EpochStart;
use crate::streams::MAX_EPOCH;
use crate::wraps::wrap_for;
use sporc_base::Memory;
use sporc_entry::{CommittedChange, read_committed};
use sporc_member::Change;
use std::alloc::Global;

/// The first change that adds a member, and what the changes up to it say of epochs, in the
/// history's order.
#[derive(Drop)]
pub(crate) struct Joining {
    pub(crate) change: CommittedChange,
    pub(crate) starts: Vec<EpochStart>,
}

// The first change of a history that adds this member.
#[tactic(auto, using(crate::proofs::Joinings::joins_below))]
pub(crate) fn find_joining(
    alloc: Global,
    entries: &[Vec<u8>],
    me: u16,
) -> Result<Option<Joining>, Memory>
    ensures change { IfOk result (λ found.
        option_map (λ j. j.change) found ≡ joining me (changes (map (λ e. e.items) entries.now))) }
    ensures starts { IfOk result (λ found. IfSome found (λ j. reverse j.starts.items
        ≡ start_by j.change ∷ starts_before me (changes (map (λ e. e.items) entries.now)))) }
    ensures within { IfOk result (λ found. IfSome found (λ j. j.change.header.epoch < MAX_EPOCH)) }
{
    let mut starts = Vec::new(alloc);
    for bytes in entries {
        let Some(change) = read_committed(alloc, bytes.as_slice())? else {
            continue;
        };
        starts.push(EpochStart::by(&change))?;
        if joins(&change, me) {
            return Ok(Some(Joining { change, starts }));
        }
    }
    Ok(None)
}

// Whether a change adds this member, with a wrap for it, and leaves an epoch to start.
fn joins(change: &CommittedChange, me: u16) -> bool
    ensures value { result ≡ joins me change.now }
{
    adds(&change.body.change, me)
        && wrap_for(change.body.wraps.as_slice(), me).is_some()
        && change.header.epoch < MAX_EPOCH
}

// Whether a change adds this member.
fn adds(change: &Change, me: u16) -> bool
    ensures value { result ≡ adds me change.now }
{
    match change {
        Change::Add { member, .. } => *member == me,
        Change::Remove { .. }
        | Change::SetRole { .. }
        | Change::AddDevice { .. }
        | Change::DropDevice { .. }
        | Change::Upgrade => false,
    }
}
