//! Tables of what a history says of those who signed its entries, and of those who sign no more.

ghost use Rattle.std.specs.Prelude.{◌≡◌, ℕ, ◌+◌, ◌<◌, ◌≤◌, ◌^◌, nat_eq, [], Some, None, OnOk, IsOk};
ghost use Rattle.std.specs.Prelude.{if◌then◌else◌, vec_len, vec_capacity};
ghost use Rattle.std.specs.HashMap.{get, spare};
ghost use Rattle.sporc_head.specs.TablesMatch.{rank_of, tally_in, covers, covers_number, is_gone};
ghost use Rattle.sporc_head.specs.TablesMatch.{with_removal};

use crate::limits::DEVICE_NUMBERS;
use sporc_base::Memory;
use sporc_member::{Change, Device};
use std::alloc::Global;
use std::collections::HashMap;

/// How many entries a device has, and where its last one stands.
#[derive(Clone, Copy)]
pub(crate) struct Tally {
    pub(crate) count: u32,
    pub(crate) last: u32,
}

/// A member that a change removed, or a device of it that one dropped.
#[derive(Clone, Copy)]
pub(crate) struct Removal {
    pub(crate) member: u16,
    pub(crate) device: Option<u8>,
}

/// The tally of each device that has an entry, by its rank, and who was removed, in the order of
/// the changes.
#[derive(Drop)]
pub(crate) struct Tables {
    pub(crate) tallies: HashMap<u32, Tally>,
    pub(crate) removals: Vec<Removal>,
}

// The number of a device among those of all members.
fn rank_of(device: Device) -> u32
    ensures { result ≡ rank_of device }
{
    u32::from(device.member) * DEVICE_NUMBERS + u32::from(device.number)
}

// The tally of a device.
pub(crate) fn tally_of(tallies: &HashMap<u32, Tally>, device: Device) -> Tally
    ensures { result ≡ tally_in (get nat_eq tallies.now) device }
{
    match tallies.get(&rank_of(device)) {
        Some(tally) => *tally,
        None => Tally { count: 0, last: 0 },
    }
}

// One entry more of a device, at a position, where there is room.
pub(crate) fn record_entry(tallies: &mut HashMap<u32, Tally>, device: Device, position: u32)
    requires room { 1 ≤ spare tallies.old }
    requires limit { (tally_in (get nat_eq tallies.old) device).count + 1 < 2 ^ 32 }
    ensures { (q : ℕ) → get nat_eq tallies.new q ≡ (if nat_eq (rank_of device) q then Some
        (record { count = (tally_in (get nat_eq tallies.old) device).count + 1; last = position })
        else get nat_eq tallies.old q) }
{
    let rank = rank_of(device);
    let tally = tally_of(tallies, device);
    let _ = tallies.insert(
        rank,
        Tally {
            count: tally.count + 1,
            last: position,
        },
    );
}

// Notes whom a change removes, where there is room.
pub(crate) fn record_removal(removals: &mut Vec<Removal>, change: &Change)
    requires { vec_len removals.old < vec_capacity removals.old }
    ensures { removals.new.items ≡ with_removal change.now removals.old.items }
{
    match change {
        Change::Remove { member } => removals.push_reserved(Removal {
            member: *member,
            device: None,
        }),
        Change::DropDevice { member, device } => removals.push_reserved(Removal {
            member: *member,
            device: Some(*device),
        }),
        Change::Add { .. } | Change::SetRole { .. } | Change::AddDevice { .. } | Change::Upgrade =>
            {}
    }
}

// Whether a device is among those removed, or its member is.
pub(crate) fn is_gone(removals: &[Removal], device: Device) -> bool
    ensures { result ≡ is_gone device removals.now }
{
    removals.iter().any(|r| covers(r, device))
}

// Whether a removal is of this device, or of its member.
fn covers(removal: &Removal, device: Device) -> bool
    ensures { result ≡ covers device removal.now }
{
    removal.member == device.member && covers_number(removal.device, device.number)
}

// Whether a device that was removed, or all of a member's, have this number.
fn covers_number(removed: Option<u8>, number: u8) -> bool
    ensures { result ≡ covers_number number removed }
{
    match removed {
        Some(removed) => removed == number,
        None => true,
    }
}

impl Tables {
    /// The tables of an empty history.
    pub(crate) fn new(alloc: Global) -> Tables
        ensures tallies { (q : ℕ) → get nat_eq result.tallies q ≡ None }
        ensures removals { result.removals.items ≡ [] }
    {
        Tables {
            tallies: HashMap::new(alloc),
            removals: Vec::new(alloc),
        }
    }

    /// Takes the memory of one entry.
    pub(crate) fn reserve(&mut self) -> Result<(), Memory>
        ensures tallies { (q : ℕ) → get nat_eq self.new.tallies q ≡ get nat_eq self.old.tallies q }
        ensures removals { self.new.removals.items ≡ self.old.removals.items }
        ensures ok { OnOk result ((1 ≤ spare self.new.tallies)
            × (vec_len self.new.removals < vec_capacity self.new.removals)) }
        ensures ready { 1 ≤ spare self.old.tallies
            → vec_len self.old.removals < vec_capacity self.old.removals → IsOk result }
    {
        self.removals.reserve(1)?;
        self.tallies.reserve(1)
    }
}
