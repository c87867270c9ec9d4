//! The rings of those who are named.

ghost use Rattle.std.specs.Prelude.{◌≡◌, map, IfOk};
ghost use Rattle.sporc_keys.specs.Founding.{epoch_key_of, ring_of};

use crate::named::Named;
use crate::pair::{SharedKey, pair_keys_of};
use crate::ring_file::{PairKeys, RingFile};
use sporc_base::Memory;
use std::alloc::Global;

// The ring files of those who are named, by the key of epoch 0 and the keys that they share.
pub(crate) fn rings_of(
    alloc: Global,
    key: &[u8; 32],
    shared: &[SharedKey],
    named: &[Named],
) -> Result<Vec<RingFile>, Memory>
    ensures { IfOk result (λ rings. rings.items ≡ map (ring_of key.now shared.now) named.now) }
{
    let mut rings = Vec::with_capacity(alloc, named.len())?;
    for one in named {
        let ring = ring_of(alloc, key, shared, one)?;
        rings.push(ring)?;
    }
    Ok(rings)
}

// The ring file of one who is named.
fn ring_of(
    alloc: Global,
    key: &[u8; 32],
    shared: &[SharedKey],
    one: &Named,
) -> Result<RingFile, Memory>
    ensures { IfOk result (λ ring. ring ≡ ring_of key.now shared.now one.now) }
{
    let pairs = pair_keys_of(alloc, one.number(), shared)?;
    Ok(RingFile {
        member: one.number(),
        epoch_key: epoch_key_of(key, one),
        pairs: PairKeys::new(pairs),
    })
}

// The key of epoch 0, for a founder.
fn epoch_key_of(key: &[u8; 32], one: &Named) -> Option<[u8; 32]>
    ensures { result ≡ epoch_key_of key.now one.now }
{
    match one {
        Named::Founder { .. } => Some(*key),
        Named::Joiner { .. } => None,
    }
}
