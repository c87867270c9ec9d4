//! The values of a history's chain, and commitments to keys.

ghost use Rattle.std.specs.Prelude.{◌≡◌};
ghost use Rattle.sporc_hash.specs.Chain.{genesis_value, next_value, entry_digest, link_value};
ghost use Rattle.sporc_hash.specs.Chain.{commitment_of};

use sha2::{Digest, Sha256};

/// A SHA-256 digest (FIPS 180-4).
pub type Digest32 = [u8; 32];

/// The first value of a document's chain, from the bytes of its genesis.
pub fn genesis_hash(genesis: &[u8]) -> Digest32
    ensures value { result ≡ genesis_value genesis.now }
{
    let mut hasher = Sha256::new();
    hasher.update([0x00u8]);
    hasher.update(genesis);
    hasher.finalize()
}

/// The digest of `entry`, the bytes of a whole entry. It needs no history, and the chain's value
/// after the entry needs nothing else of it.
pub fn entry_hash(entry: &[u8]) -> Digest32
    ensures value { result ≡ entry_digest entry.now }
{
    let mut hasher = Sha256::new();
    hasher.update([0x02u8]);
    hasher.update(entry);
    hasher.finalize()
}

/// The value of the chain after an entry of this digest, where the value before it is `prev`.
pub fn link_hash(prev: &Digest32, digest: &Digest32) -> Digest32
    ensures value { result ≡ link_value prev.now digest.now }
{
    let mut hasher = Sha256::new();
    hasher.update([0x01u8]);
    hasher.update(prev);
    hasher.update(digest);
    hasher.finalize()
}

/// The value of the chain after `entry`, the bytes of a whole entry, where the value before it is
/// `prev`.
pub fn next_hash(prev: &Digest32, entry: &[u8]) -> Digest32
    ensures value { result ≡ next_value prev.now entry.now }
{
    link_hash(prev, &entry_hash(entry))
}

/// The commitment to the key of an epoch of a document.
pub fn commit(document: &[u8; 16], epoch: u32, key: &[u8; 32]) -> Digest32
    ensures value { result ≡ commitment_of document.now epoch key.now }
{
    let mut hasher = Sha256::new();
    hasher.update([0x04u8]);
    hasher.update(document);
    hasher.update(epoch.to_be_bytes());
    hasher.update(key);
    hasher.finalize()
}
