//! The line of a member's device, opened.

ghost use Rattle.std.specs.Prelude.{◌≡◌, [], map, IfOk};
ghost use Rattle.sporc_entry.specs.Genesis.{IsGenesis};
ghost use Rattle.sporc_epoch.specs.Keys.{pairs_in};
ghost use Rattle.sporc_bytes.specs.Fields.{fault_as};
ghost use Rattle.sporc_epoch.specs.Hints.{hints_of};
ghost use Rattle.sporc_files.specs.Faults.{AnswersUnlessOutside, fault_of_hints};
ghost use Rattle.sporc_files.specs.Opening.{keys_by, kit_by, kit_with};

use crate::fault::Fault;
use sporc_entry::Genesis;
use sporc_epoch::{Pairs, Ring, hints_from};
use sporc_keys::RingFile;
use sporc_line::Line;
use sporc_member::Device;
use std::alloc::Global;

/// The empty line of a member's device, by what the member's ring file says: a founder's has the
/// key of epoch 0. A joiner's has none, and then the keys are the hints that these entries give the
/// member.
pub fn open_line(
    alloc: Global,
    genesis: Genesis,
    device: Device,
    ring: &RingFile,
    entries: &[Vec<u8>],
) -> Result<Line, Fault>
    requires genesis { IsGenesis genesis }
    ensures kit { AnswersUnlessOutside (λ line. line.kit) ⊥ result
        (kit_by genesis device ring.now (map (λ e. e.items) entries.now)) }
    ensures genesis { IfOk result (λ line. line.genesis ≡ genesis) }
    ensures empty { IfOk result (λ line. line.entries ≡ []) }
{
    let pairs = ring.pairs(alloc)?;
    let keys = keys_by(alloc, ring, device.member, &pairs, entries)?;
    open_with(alloc, genesis, device, keys, pairs)
}

// The keys of epochs that a member begins with.
fn keys_by(
    alloc: Global,
    ring: &RingFile,
    member: u16,
    pairs: &Pairs,
    entries: &[Vec<u8>],
) -> Result<Ring, Fault>
    ensures value { AnswersUnlessOutside (λ keys. keys.keys) ⊥ result
        (keys_by ring.now.epoch_key member (pairs_in pairs.now) (map (λ e. e.items) entries.now)) }
{
    match ring.epoch_key {
        Some(_) => {
            let keys = ring.ring(alloc)?;
            Ok(keys)
        }
        None => hints_of(alloc, member, pairs, entries),
    }
}

// The hints of a joiner.
fn hints_of(alloc: Global, member: u16, pairs: &Pairs, entries: &[Vec<u8>]) -> Result<Ring, Fault>
    ensures value { AnswersUnlessOutside (λ keys. keys.keys) ⊥ result (fault_as fault_of_hints
        (hints_of (map (λ e. e.items) entries.now) member (pairs_in pairs.now))) }
{
    let hints = hints_from(alloc, entries, member, pairs)?;
    Ok(hints)
}

// The empty line of a device with these keys.
fn open_with(
    alloc: Global,
    genesis: Genesis,
    device: Device,
    keys: Ring,
    pairs: Pairs,
) -> Result<Line, Fault>
    requires genesis { IsGenesis genesis }
    ensures kit { AnswersUnlessOutside (λ line. line.kit) ⊥ result
        (kit_with genesis device (pairs_in pairs) keys.keys) }
    ensures genesis { IfOk result (λ line. line.genesis ≡ genesis) }
    ensures empty { IfOk result (λ line. line.entries ≡ []) }
{
    let line = Line::open(alloc, genesis, device.member, device.number, keys, pairs)?;
    Ok(line)
}
