//! Who takes part in a play, and what each was given.

ghost use Rattle.std.specs.Prelude.{◌≡◌, ◌≤◌, [], length, map, IfOk, OnOk};
ghost use Rattle.std.specs.List.{list_any};
ghost use Rattle.sporc_client.specs.Run.{Setup, key_of_device};
ghost use Rattle.sporc_epoch.specs.Keys.{pairs_in};
ghost use Rattle.sporc_member.specs.Lists.{insert_by, place_among};
ghost use Rattle.sporc_member.specs.Roster.{founder_numbers};
ghost use Rattle.sporc_play.specs.Cast.{first_ring, genesis_by, is_pair, member_change};
ghost use Rattle.sporc_play.specs.Cast.{pairs_among, tree_of, with_pair};
ghost use Rattle.sporc_play.specs.Forged.{IsSmallChange};
ghost use Rattle.sporc_play.specs.Stage.{IsCastOf};

use crate::derived::{document_number, first_key, pair_key};
use crate::trees::Trees;
use sporc_base::Memory;
use sporc_entry::{Founders, Genesis};
use sporc_epoch::{Pairs, Ring};
use sporc_hash::commit;
use sporc_member::{Change, Device, Founder};
use sporc_script::{Command, Height, Pair, PlayLine, RosterChange, Tree, What, Width};
use std::alloc::Global;
use std::collections::BTreeMap;

/// One who is declared, with its public key.
#[derive(Clone, Copy)]
pub struct Declared {
    pub member: u16,
    pub key: [u8; 56],
}

/// Who takes part in a play: all who are declared, the pairs of them that share no key, and the
/// founders in ascending order of their numbers; with all their trees.
#[derive(Drop)]
pub struct Cast {
    pub tree: Trees,
    pub declared: Vec<Declared>,
    pub unpaired: Vec<Pair>,
    pub founders: Vec<Founder>,
}

impl Cast {
    /// Nobody yet, with trees of these sizes.
    pub fn new(alloc: Global, tree: Tree) -> Cast
        ensures tree { result.tree ≡ tree }
        ensures declared { result.declared.items ≡ [] }
        ensures unpaired { result.unpaired.items ≡ [] }
        ensures founders { result.founders.items ≡ [] }
    {
        Cast {
            tree: Trees::new(alloc, tree),
            declared: Vec::new(alloc),
            unpaired: Vec::new(alloc),
            founders: Vec::new(alloc),
        }
    }

    /// The document's genesis.
    pub fn genesis(&self, alloc: Global) -> Result<Genesis, Memory>
        ensures value { IfOk result (λ genesis. genesis ≡ genesis_by self.now.founders.items) }
    {
        let document = document_number();
        Ok(Genesis {
            document,
            commitment: commit(&document, 0, &first_key()),
            founders: Founders::copy_of(alloc, self.founders.as_slice())?,
        })
    }

    /// The keys that a member shares with everyone who is declared, but for the pairs that have
    /// none.
    pub fn pairs_of(&self, alloc: Global, member: u16) -> Result<Pairs, Memory>
        ensures value { IfOk result (λ pairs. pairs_in pairs
            ≡ pairs_among (map (λ d. d.member) self.now.declared.items) self.now.unpaired.items
            member) }
    {
        let mut pairs = BTreeMap::new(alloc);
        for other in &self.declared {
            self.put_pair(&mut pairs, member, other.member)?;
        }
        Ok(pairs)
    }

    // Adds the key that two share, if they share one.
    #[tactic(auto, using(sporc_epoch::proofs::PairMaps::pairs_put))]
    fn put_pair(&self, pairs: &mut Pairs, member: u16, other: u16) -> Result<(), Memory>
        ensures { OnOk result (pairs_in pairs.new
            ≡ with_pair self.now.unpaired.items member (pairs_in pairs.old) other) }
    {
        if self.are_unpaired(member, other) {
            return Ok(());
        }
        pairs.insert(other, pair_key(member, other))?;
        Ok(())
    }

    fn are_unpaired(&self, one: u16, other: u16) -> bool
        ensures value { result ≡ list_any (is_pair one other) self.now.unpaired.items }
    {
        self.unpaired.iter().any(|p| is_pair(one, other, p))
    }

    // A device's public key: of the first device of one who is declared, or of another one.
    #[tactic(auto, using(sporc_member::proofs::SameDevice::same_one))]
    fn key_of(&self, alloc: Global, device: Device) -> Result<[u8; 56], Memory>
        ensures value { IfOk result
            (λ key. (s : Setup) → IsCastOf s self.now → key ≡ key_of_device s device) }
    {
        for one in &self.declared {
            if device.is(Device::first(one.member)) {
                return Ok(one.key);
            }
        }
        self.tree.key_of(alloc, device)
    }

    /// Keeps the key of the device that a change adds, so that its tree is built once.
    pub fn learn(&mut self, alloc: Global, change: &RosterChange) -> Result<(), Memory>
        ensures unchanged { self.new ≡ self.old }
    {
        match change {
            RosterChange::AddDevice(added) => self.tree.learn(alloc, *added),
            _ => Ok(()),
        }
    }

    /// Does so for a change that a rogue signs.
    pub fn learn_of(&mut self, alloc: Global, what: &What) -> Result<(), Memory>
        ensures unchanged { self.new ≡ self.old }
    {
        match what {
            What::Change(change) => self.learn(alloc, change),
            _ => Ok(()),
        }
    }

    /// A change of the members. The key of a new one, and of a further device, is its own.
    pub fn member_change(&self, alloc: Global, change: &RosterChange) -> Result<Change, Memory>
        ensures value { IfOk result
            (λ asked. (s : Setup) → IsCastOf s self.now → asked ≡ member_change s change.now) }
        ensures within { IfOk result IsSmallChange }
    {
        match change {
            RosterChange::Add(added) => {
                let key = self.key_of(alloc, Device::first(added.member))?;
                Ok(Change::Add {
                    member: added.member,
                    role: added.role,
                    key,
                })
            }
            RosterChange::Remove(member) => Ok(Change::Remove { member: *member }),
            RosterChange::SetRole(set) => Ok(Change::SetRole {
                member: set.member,
                role: set.role,
            }),
            RosterChange::AddDevice(added) => {
                let key = self.key_of(alloc, *added)?;
                Ok(Change::AddDevice {
                    member: added.member,
                    device: added.number,
                    key,
                })
            }
            RosterChange::DropDevice(dropped) => Ok(Change::DropDevice {
                member: dropped.member,
                device: dropped.number,
            }),
            RosterChange::Upgrade => Ok(Change::Upgrade),
        }
    }
}

// Whether these two are a pair, in either order.
fn is_pair(one: u16, other: u16, pair: &Pair) -> bool
    ensures value { result ≡ is_pair one other pair.now }
{
    (pair.first == one && pair.second == other) || (pair.first == other && pair.second == one)
}

/// The sizes of the trees: those of the first line, or else 5 and 4.
pub fn tree_of(lines: &[PlayLine]) -> Tree
    ensures value { result ≡ tree_of lines.now }
{
    match lines.first() {
        Some(
            PlayLine {
                command: Command::Tree(tree),
                ..
            },
        ) => *tree,
        _ => Tree {
            height: Height::Five,
            width: Width::Four,
        },
    }
}

/// The ring of a founder.
pub fn first_ring(alloc: Global) -> Result<Ring, Memory>
    ensures value { IfOk result (λ ring. ring.keys ≡ first_ring) }
{
    let mut ring = Ring::new(alloc);
    ring.put(0, first_key())?;
    Ok(ring)
}

/// Adds a founder before the first whose number is above its own.
#[tactic(auto, using(crate::proofs::Places::put_in_place))]
pub fn insert_founder(founders: &mut Vec<Founder>, founder: Founder) -> Result<(), Memory>
    ensures ok { OnOk result
        (founders.new.items ≡ insert_by (λ f. f.member) founder founders.old.items) }
{
    let place = place_of(founders.as_slice(), &founder);
    founders.insert(place, founder)?;
    Ok(())
}

// The place of the first founder whose number is above that of this one, or the end.
#[tactic(auto, using(crate::proofs::Places::place_step))]
fn place_of(founders: &[Founder], founder: &Founder) -> usize
    ensures within { result ≤ length founders.now }
    ensures value { result ≡ place_among founder.now.member (founder_numbers founders.now) }
{
    for (i, other) in founders.iter().enumerate() {
        if founder.member < other.member {
            return i;
        }
    }
    founders.len()
}
