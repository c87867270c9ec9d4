//! Keys, sealed.

ghost use Rattle.std.specs.Prelude.{◌≡◌, ℕ, ◌<◌, ◌≤◌, ◌^◌, true, length, IfOk, filter, fold};
ghost use Rattle.std.specs.Prelude.{is_none};
ghost use Rattle.std.specs.FinMap as map;
ghost use Rattle.std.specs.List.{All};
ghost use Rattle.sporc_base.specs.Outcome.{GivesUnless};
ghost use Rattle.sporc_member.specs.declared.limits.TheConstants.{MAX_MEMBERS};
ghost use Rattle.sporc_member.specs.Device.{first_device};
ghost use Rattle.sporc_entry.specs.ChangeBody.{kind_of, IsChange, IsChangeBody};
ghost use Rattle.sporc_entry.specs.Version.{has_kind};
ghost use Rattle.sporc_epoch.specs.Keys.{pairs_in};
ghost use Rattle.sporc_epoch.specs.Sealing.{wrap_sealed, wraps_sealed, lesser, least_unpaired};
ghost use Rattle.sporc_epoch.specs.Sealing.{change_sealed, sealing_in, sealing_of};
ghost use Rattle.sporc_epoch.specs.Streams.{entry_stream};

use crate::fault::SealFault;
use crate::pairs::Pairs;
use crate::sealing::Sealing;
use crate::streams::{MAX_EPOCH, entry_stream, masked, previous_stream};
use sporc_base::Memory;
use sporc_entry::{ChangeBody, Wrap, Wraps};
use sporc_hash::commit;
use sporc_member::{Change, Device};
use std::alloc::Global;

/// The body of a change that ends `epoch`, whose key is `old`, and starts the next, whose key is
/// `new`. It seals the new key for each of `members`, those after the change, in their order, under
/// the author's pairwise keys; `leaf` is that of the entry, which the author's first device signs.
/// NoPairKey if there is a member without a pairwise key.
pub fn seal_change(
    alloc: Global,
    change: &Change,
    members: &[u16],
    document: &[u8; 16],
    author: u16,
    leaf: u32,
    epoch: u32,
    old: &[u8; 32],
    new: &[u8; 32],
    pairs: &Pairs,
) -> Result<ChangeBody, SealFault>
    requires limit { epoch < MAX_EPOCH }
    ensures value { GivesUnless SealFault.Memory (λ body. body) result (change_sealed
        (sealing_of change.now members.now document.now (entry_stream (first_device author) leaf)
        epoch old.now new.now) (pairs_in pairs.now)) }
    // The body has a spelling.
    ensures spelled { (version : ℕ) → has_kind version (kind_of change.now) ≡ true
        → IsChange change.now
        → length members.now ≤ MAX_MEMBERS → IfOk result (IsChangeBody version) }
{
    let sealing = Sealing {
        change,
        members,
        document,
        stream: entry_stream(Device::first(author), leaf),
        epoch,
        old,
        new,
    };
    seal_change_at(alloc, &sealing, pairs)
}

/// The body of a change, its keys sealed under the author's pairwise keys. NoPairKey if there is a
/// member without a pairwise key.
#[tactic(auto, unfolding(crate::specs::Sealing::body_sealed, crate::specs::Sealing::change_sealed))]
pub fn seal_change_at(
    alloc: Global,
    sealing: &Sealing<'_>,
    pairs: &Pairs,
) -> Result<ChangeBody, SealFault>
    requires limit { sealing.now.epoch < MAX_EPOCH }
    ensures value { GivesUnless SealFault.Memory (λ body. body) result
        (change_sealed (sealing_in sealing.now) (pairs_in pairs.now)) }
    // The body has a spelling.
    ensures spelled { (version : ℕ) → has_kind version (kind_of sealing.now.change.now) ≡ true
        → IsChange sealing.now.change.now
        → length sealing.now.members.now ≤ MAX_MEMBERS → IfOk result (IsChangeBody version) }
{
    if let Some(member) = least_unpaired(sealing.members, pairs) {
        return Err(SealFault::NoPairKey(member));
    }
    let wraps = seal_wraps(alloc, sealing.members, sealing.stream, sealing.new, pairs)?;
    let next = sealing.epoch + 1;
    Ok(ChangeBody {
        change: *sealing.change,
        commitment: commit(sealing.document, next, sealing.new),
        previous: masked(sealing.new, previous_stream(next), sealing.old),
        wraps: Wraps::new(wraps),
    })
}

/// The least of some members without a pairwise key.
#[tactic(auto, using(crate::proofs::Lookups::get_pairs))]
pub fn least_unpaired(members: &[u16], pairs: &Pairs) -> Option<u16>
    ensures value { result ≡ least_unpaired (pairs_in pairs.now) members.now }
{
    members
        .iter()
        .copied()
        .filter(|m| is_unpaired(*m, pairs))
        .fold(None, lesser)
}

// Whether a member has no pairwise key.
#[tactic(auto, using(crate::proofs::Lookups::get_pairs))]
fn is_unpaired(member: u16, pairs: &Pairs) -> bool
    ensures value { result ≡ is_none (map.get (pairs_in pairs.now) member) }
{
    !pairs.contains_key(&member)
}

// The lesser of two numbers, the first of which may be missing.
fn lesser(least: Option<u16>, number: u16) -> Option<u16>
    ensures value { result ≡ lesser least number }
{
    match least {
        None => Some(number),
        Some(least) => Some(least.min(number)),
    }
}

// A key, sealed for each of some members. The key and the numbers are in range.
fn seal_wraps(
    alloc: Global,
    members: &[u16],
    stream: u64,
    key: &[u8; 32],
    pairs: &Pairs,
) -> Result<Vec<Wrap>, Memory>
    ensures value { IfOk result
        (λ wraps. wraps.items ≡ wraps_sealed stream key.now (pairs_in pairs.now) members.now) }
    ensures typed { (length key.now ≡ 32) × All (λ m. m < 2 ^ 16) members.now }
{
    members
        .iter()
        .filter_map(|m| seal_wrap(*m, stream, key, pairs))
        .collect(alloc)
}

// A key, sealed for a member, if there is a pairwise key.
#[tactic(auto, using(crate::proofs::Lookups::get_pairs))]
fn seal_wrap(member: u16, stream: u64, key: &[u8; 32], pairs: &Pairs) -> Option<Wrap>
    ensures value { result ≡ wrap_sealed stream key.now (pairs_in pairs.now) member }
{
    let pair = pairs.get(&member)?;
    Some(Wrap {
        member,
        sealed: masked(pair, stream, key),
    })
}
