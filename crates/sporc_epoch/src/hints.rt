//! The keys of earlier epochs, for a member whom a change adds.

ghost use Rattle.std.specs.Prelude.{map, reverse};
ghost use Rattle.std.specs.FinMap.{empty};
ghost use Rattle.sporc_base.specs.Outcome.{GivesUnless};
ghost use Rattle.sporc_epoch.specs.Hints.{keys_back, ring_of, hints_of};
ghost use Rattle.sporc_epoch.specs.Keys.{pairs_in};

use crate::fault::HintFault;
use crate::joining::{Joining, find_joining};
use crate::pairs::Pairs;
use crate::ring::Ring;
use crate::start::EpochStart;
use crate::streams::{masked, previous_stream, stream_of};
use crate::wraps::open_wrap_at;
use std::alloc::Global;

/// The keys of the epochs that the first change to add `me` gives it: it has a wrap for `me`, and
/// its epoch is below [`MAX_EPOCH`]. The wrap opens to the key of the epoch that the change starts;
/// from there the walk goes back, epoch by epoch, each by the nearest earlier change that ended the
/// epoch before, and ends where there is none. Entries that are no changes are passed over, and no
/// signature is verified: the keys are hints, until a history is checked with them.
///
/// NotAdded if there is no such change; NoPairKey if `me` holds no pairwise key with its author;
/// WrongKey with the epoch of a key that does not meet the commitment of the change that started
/// it.
#[tactic(auto, unfolding(crate::specs::Hints::hints_of))]
pub fn hints_from(
    alloc: Global,
    entries: &[Vec<u8>],
    me: u16,
    pairs: &Pairs,
) -> Result<Ring, HintFault>
    ensures value { GivesUnless HintFault.Memory (λ ring. ring.keys) result
        (hints_of (map (λ e. e.items) entries.now) me (pairs_in pairs.now)) }
{
    let Some(Joining { change, starts }) = find_joining(alloc, entries, me)? else {
        return Err(HintFault::NotAdded);
    };
    let header = change.header;
    match open_wrap_at(&change.body, header.author, stream_of(&header), me, pairs) {
        Some(key) => keys_back(alloc, starts, header.epoch + 1, key),
        None => Err(HintFault::NoPairKey(header.author)),
    }
}

// The keys of the epochs from this one down, of which the first is given; the starts of epochs
// stand in the history's order.
fn keys_back(
    alloc: Global,
    mut starts: Vec<EpochStart>,
    mut epoch: u32,
    mut key: [u8; 32],
) -> Result<Ring, HintFault>
    ensures value { GivesUnless HintFault.Memory (λ ring. ring.keys) result
        (ring_of empty (keys_back epoch key (reverse starts.items))) }
{
    let mut ring = Ring::new(alloc);
    while let Some(start) = starts.pop() {
        if !start.is_of(epoch) {
            continue;
        }
        if !start.is_committed(epoch, &key) {
            return Err(HintFault::WrongKey(epoch));
        }
        ring.put(epoch, key)?;
        key = masked(&key, previous_stream(epoch), &start.previous);
        epoch = start.ended;
    }
    ring.put(epoch, key)?;
    Ok(ring)
}
