//! Entries examined before their turn.

ghost use Rattle.std.specs.Prelude.{◌≡◌, IfOk, IfErr};
ghost use Rattle.sporc_head.specs.Examined.{IsExact, is_verified};

use crate::authors::verifies_under;
use sporc_base::Memory;
use sporc_entry::{EntryFault, EntryView};
use sporc_hash::{Digest32, entry_hash};
use std::alloc::{AllocError, Global};
use std::marker::Model;

/// What examining an entry found that needs no history: whether its signature verifies under a
/// key, and the digest of its bytes. It is of no use without these.
#[derive(Clone, Copy)]
pub struct Verdict {
    /// The bytes of the key.
    pub key: [u8; 56],
    /// Whether the bytes are an entry whose signature verifies under the key. No signature verifies
    /// under a key of no known type.
    pub good: bool,
    /// The digest of the bytes, which the chain links.
    pub digest: Digest32,
}

impl Verdict {
    /// Examines these bytes under a key. Only the sealed keys of a change take memory.
    pub fn of(alloc: Global, key: &[u8; 56], entry: &[u8]) -> Result<Verdict, Memory>
        ensures exact { IfOk result (λ v. IsExact v entry.now) }
        ensures key { IfOk result (λ v. v.key ≡ key.now) }
    {
        let good = is_verified(alloc, key, entry)?;
        let digest = entry_hash(entry);
        Ok(Verdict {
            key: *key,
            good,
            digest,
        })
    }
}

// Whether bytes are an entry whose signature verifies under a key.
#[tactic(auto, unfolding(crate::specs::Examined::is_verified))]
fn is_verified(alloc: Global, key: &[u8; 56], entry: &[u8]) -> Result<bool, Memory>
    ensures { IfOk result (λ good. good ≡ is_verified key.now entry.now) }
{
    match EntryView::read(alloc, entry) {
        Ok(view) => Ok(verifies_under(view.signed(), view.signature(), key)),
        Err(EntryFault::Malformed(_)) => Ok(false),
        Err(EntryFault::Memory) => Err(AllocError),
    }
}

/// An entry's bytes with what examining their signature under a key found.
///
/// Contracts see the bytes of the key and of the entry, and the verdict.
#[derive(Drop)]
pub struct Examined {
    entry: Vec<u8>,
    verdict: Verdict,
}

impl Model for Examined {
    ghost use Rattle.sporc_head.specs.ExaminedModel.{ExaminedModel, model_of, invariant_of};

    ghost Value = { ExaminedModel };

    ghost view = { model_of };

    ghost invariant = { invariant_of };
}

impl Examined {
    /// Examines these bytes under a key.
    pub fn of(key: &[u8; 56], entry: Vec<u8>) -> Result<Examined, (Vec<u8>, Memory)>
        ensures key { IfOk result (λ examined. examined.key ≡ key.now) }
        ensures entry { IfOk result (λ examined. examined.entry ≡ entry.items) }
        ensures verdict { IfOk result
            (λ examined. examined.verdict ≡ is_verified key.now entry.items) }
        ensures returned { IfErr result (λ e. e.0 ≡ entry) }
    {
        match Verdict::of(*entry.allocator(), key, entry.as_slice()) {
            Ok(verdict) => Ok(Examined { entry, verdict }),
            Err(memory) => Err((entry, memory)),
        }
    }

    /// The bytes of the key.
    pub fn key(&self) -> &[u8; 56]
        ensures value { result.now ≡ self.now.key }
    {
        &self.verdict.key
    }

    /// The bytes of the entry, or of what is none.
    pub fn entry(&self) -> &[u8]
        ensures value { result.now ≡ self.now.entry }
    {
        self.entry.as_slice()
    }

    /// Whether they are an entry whose signature verifies under the key.
    pub fn verdict(&self) -> bool
        ensures value { result ≡ self.now.verdict }
        ensures verified { result ≡ is_verified self.now.key self.now.entry }
    {
        self.verdict.good
    }

    /// The verdict with its key, for the calls that take what is known.
    pub fn known(&self) -> &Verdict
        ensures key { result.now.key ≡ self.now.key }
        ensures good { result.now.good ≡ self.now.verdict }
        ensures exact { IsExact result.now self.now.entry }
    {
        &self.verdict
    }
}
