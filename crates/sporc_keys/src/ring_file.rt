//! The file of a member's ring.

ghost use Rattle.std.specs.Prelude.{◌≡◌, ◌++◌, IfOk, OnOk};
ghost use Rattle.std.specs.List.{flat_map};
ghost use Rattle.sporc_epoch.specs.Keys.{pairs_in};
ghost use Rattle.sporc_keys.specs.RingFile.{IsRingFile, epoch_key_bytes, epoch_keys, pair_bytes};
ghost use Rattle.sporc_keys.specs.RingFile.{pair_keys, ring_file_bytes, with_pair};

use sporc_base::{Items, Memory};
use sporc_bytes::Out;
use sporc_epoch::{Pairs, Ring};
use std::alloc::Global;

/// A key of 32 bytes that a member shares with another, or has for itself, under the other's
/// number.
#[derive(Clone, Copy)]
pub struct PairKey {
    pub member: u16,
    pub key: [u8; 32],
}

/// Keys that a member shares, seen as the list of them.
pub type PairKeys = Items<PairKey>;

/// The keys that a member has from the beginning.
#[derive(Drop)]
pub struct RingFile {
    pub member: u16,
    /// The key of epoch 0, of 32 bytes: a founder has it, a joiner does not.
    pub epoch_key: Option<[u8; 32]>,
    /// In ascending order of the others' numbers.
    pub pairs: PairKeys,
}

impl RingFile {
    /// The keys of epochs: that of epoch 0, if it is there.
    pub fn ring(&self, alloc: Global) -> Result<Ring, Memory>
        ensures value { IfOk result (λ ring. ring.keys ≡ epoch_keys self.now.epoch_key) }
    {
        let mut ring = Ring::new(alloc);
        match self.epoch_key {
            None => Ok(ring),
            Some(key) => {
                ring.put(0, key)?;
                Ok(ring)
            }
        }
    }

    /// The keys that are shared, by the others' numbers.
    pub fn pairs(&self, alloc: Global) -> Result<Pairs, Memory>
        ensures value { IfOk result (λ pairs. pairs_in pairs ≡ pair_keys self.now.pairs) }
    {
        let pairs = keys_by_member(alloc, self.pairs.as_slice())?;
        Ok(pairs)
    }
}

// Shared keys by the others' numbers.
fn keys_by_member(alloc: Global, pairs: &[PairKey]) -> Result<Pairs, Memory>
    ensures { IfOk result (λ keys. pairs_in keys ≡ pair_keys pairs.now) }
{
    let mut keys = Pairs::new(alloc);
    for pair in pairs {
        put_key(&mut keys, pair)?;
    }
    Ok(keys)
}

// Adds a shared key.
#[tactic(auto, using(sporc_epoch::proofs::PairMaps::pairs_put))]
fn put_key(keys: &mut Pairs, pair: &PairKey) -> Result<(), Memory>
    ensures { OnOk result (pairs_in keys.new ≡ with_pair (pairs_in keys.old) pair.now) }
{
    keys.insert(pair.member, pair.key)?;
    Ok(())
}

// Appends the key of epoch 0, behind a byte that says whether it is there.
fn put_epoch_key(out: &mut Out, key: Option<[u8; 32]>) -> Result<(), Memory>
    ensures { OnOk result (out.new ≡ out.old ++ epoch_key_bytes key) }
{
    match key {
        None => out.put_u8(0),
        Some(key) => {
            out.put_u8(1)?;
            out.put_bytes(&key)
        }
    }
}

// Appends a shared key.
fn put_pair(out: &mut Out, pair: &PairKey) -> Result<(), Memory>
    ensures { OnOk result (out.new ≡ out.old ++ pair_bytes pair.now) }
{
    out.put_u16(pair.member)?;
    out.put_bytes(&pair.key)?;
    Ok(())
}

// Appends shared keys.
fn put_pairs(out: &mut Out, pairs: &[PairKey]) -> Result<(), Memory>
    ensures { OnOk result (out.new ≡ out.old ++ flat_map pair_bytes pairs.now) }
{
    for pair in pairs {
        put_pair(out, pair)?;
    }
    Ok(())
}

/// The one spelling of a ring file.
#[tactic(auto, unfolding(crate::specs::RingFile::ring_file_bytes))]
pub fn write_ring_file(alloc: Global, file: &RingFile) -> Result<Vec<u8>, Memory>
    requires file { IsRingFile file.now }
    ensures value { IfOk result (λ bytes. bytes.items ≡ ring_file_bytes file.now) }
{
    let pairs = file.pairs.as_slice();
    let mut out = Out::new(alloc);
    out.put_bytes(b"SPR1")?;
    out.put_u16(file.member)?;
    put_epoch_key(&mut out, file.epoch_key)?;
    out.put_u16(pairs.len() as u16)?;
    put_pairs(&mut out, pairs)?;
    Ok(out.into_bytes())
}
