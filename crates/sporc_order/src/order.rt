//! An order of entries.

ghost use Rattle.std.specs.Prelude.{◌≡◌, ◌+◌, ◌∷◌, ◌++◌, [], ◌≤◌, ◌<◌, ◌↔◌, length, take, map};
ghost use Rattle.std.specs.Prelude.{None, nat_lt, nat_le, ◌&&◌, IfOk, IfSome, OnOk, OnErr, IsTrue};
ghost use Rattle.sporc_base.specs.FirstFault.{AnswersUnless};
ghost use Rattle.sporc_entry.specs.Genesis.{IsGenesis};
ghost use Rattle.sporc_head.specs.declared.limits.TheConstants.{MAX_ENTRIES};
ghost use Rattle.sporc_head.specs.Examined.{IsExact, key_for};
ghost use Rattle.sporc_head.specs.HeadChecks.{head_fault};
ghost use Rattle.sporc_head.specs.History.{roster_of};
ghost use Rattle.sporc_wire.specs.declared.to_client.TheConstants.{MAX_PULLED};
ghost use Rattle.sporc_order.specs.declared.order.TheConstants.{MAX_PULLED_BYTES};
ghost use Rattle.sporc_order.specs.Batches.{batch_after, longest_batch};
ghost use Rattle.sporc_order.specs.Tails.{TakesUnless};

use crate::tail::{NoTail, Tail, Untaken};
use sporc_base::Memory;
use sporc_entry::Genesis;
use sporc_head::{Examined, Heads, Refusal, Verdict};
use sporc_wire::{MAX_BODY, MAX_PULLED};
use std::alloc::Global;
use std::marker::Model;

/// How many bytes the entries of one answer have at most, each with the four of its length: what a
/// frame's body leaves them beside the six of its head.
pub const MAX_PULLED_BYTES: usize = MAX_BODY as usize - 6;

/// The order of a document's entries.
///
/// Contracts see the genesis and the entries.
#[derive(Drop)]
pub struct Order {
    heads: Heads,
}

impl Model for Order {
    ghost use Rattle.sporc_order.specs.OrderModel.{OrderModel};

    ghost Value = { OrderModel };

    ghost view = { λ o. record { genesis = o.heads.genesis; entries = o.heads.entries } };
}

impl Order {
    /// The empty order of a document.
    pub fn open(alloc: Global, genesis: Genesis) -> Result<Order, Memory>
        requires { IsGenesis genesis }
        ensures genesis { IfOk result (λ order. order.genesis ≡ genesis) }
        ensures empty { IfOk result (λ order. order.entries ≡ []) }
    {
        let heads = Heads::open(alloc, genesis)?;
        Ok(Order { heads })
    }

    /// What the document begins with.
    pub fn genesis(&self) -> &Genesis
        ensures value { result.now ≡ self.now.genesis }
        ensures is_genesis { IsGenesis result.now }
    {
        self.heads.genesis()
    }

    /// The document whose entries it orders.
    pub fn document(&self) -> &[u8; 16]
        ensures value { result.now ≡ self.now.genesis.document }
    {
        &self.heads.genesis().document
    }

    /// How many entries there are, at most [`MAX_ENTRIES`](sporc_head::MAX_ENTRIES).
    pub fn len(&self) -> u32
        ensures value { result ≡ length self.now.entries }
        ensures within { result ≤ MAX_ENTRIES }
    {
        self.heads.len()
    }

    /// Whether there are none.
    pub fn is_empty(&self) -> bool
        ensures value { IsTrue result ↔ (length self.now.entries ≡ 0) }
    {
        self.heads.is_empty()
    }

    /// The entries, as they came.
    pub fn entries(&self) -> &[Vec<u8>]
        ensures value { map (λ v. v.items) result.now ≡ self.now.entries }
        ensures within { length result.now ≤ MAX_ENTRIES }
    {
        self.heads.entries()
    }

    /// Appends an entry where no check fails that needs no key, and answers its position; else the
    /// first check that fails.
    pub fn submit(&mut self, bytes: &[u8]) -> Result<u32, Refusal>
        ensures genesis { self.new.genesis ≡ self.old.genesis }
        ensures fault { AnswersUnless Refusal.Memory result
            (head_fault self.old.genesis None self.old.entries
            (length self.old.entries + 1) bytes.now) }
        ensures position { IfOk result (λ position. position ≡ length self.old.entries + 1) }
        ensures ok { OnOk result (self.new.entries ≡ self.old.entries ++ bytes.now ∷ []) }
        ensures unchanged { OnErr result (self.new.entries ≡ self.old.entries) }
    {
        self.submit_known(bytes, None)
    }

    /// Appends an entry whose signature was examined. It is verified anew if the key isn't that of
    /// its author's device here.
    pub fn submit_examined(&mut self, examined: &Examined) -> Result<u32, Refusal>
        ensures genesis { self.new.genesis ≡ self.old.genesis }
        ensures fault { AnswersUnless Refusal.Memory result
            (head_fault self.old.genesis None self.old.entries
            (length self.old.entries + 1) examined.now.entry) }
        ensures position { IfOk result (λ position. position ≡ length self.old.entries + 1) }
        ensures ok { OnOk result (self.new.entries ≡ self.old.entries ++ examined.now.entry ∷ []) }
        ensures unchanged { OnErr result (self.new.entries ≡ self.old.entries) }
    {
        self.submit_known(examined.entry(), Some(examined.known()))
    }

    /// Appends an entry's bytes, of which a verdict may be known.
    pub fn submit_known(&mut self, entry: &[u8], known: Option<&Verdict>) -> Result<u32, Refusal>
        requires exact { IfSome known (λ v. IsExact v.now entry.now) }
        ensures genesis { self.new.genesis ≡ self.old.genesis }
        ensures fault { AnswersUnless Refusal.Memory result
            (head_fault self.old.genesis None self.old.entries
            (length self.old.entries + 1) entry.now) }
        ensures position { IfOk result (λ position. position ≡ length self.old.entries + 1) }
        ensures ok { OnOk result (self.new.entries ≡ self.old.entries ++ entry.now ∷ []) }
        ensures unchanged { OnErr result (self.new.entries ≡ self.old.entries) }
    {
        match self.submit_kept(entry, known, &mut NoTail) {
            Ok(position) => Ok(position),
            Err(Untaken::Refused(refusal)) => Err(refusal),
            Err(Untaken::Unkept) => unreachable!(),
        }
    }

    /// Appends an entry that a tail keeps first. If it does not, the order is unchanged.
    pub fn submit_kept<T: Tail>(
        &mut self,
        entry: &[u8],
        known: Option<&Verdict>,
        tail: &mut T,
    ) -> Result<u32, Untaken>
        requires exact { IfSome known (λ v. IsExact v.now entry.now) }
        ensures genesis { self.new.genesis ≡ self.old.genesis }
        ensures fault { TakesUnless T.may_fail result
            (head_fault self.old.genesis None self.old.entries
            (length self.old.entries + 1) entry.now) }
        ensures position { IfOk result (λ position. position ≡ length self.old.entries + 1) }
        ensures ok { OnOk result (self.new.entries ≡ self.old.entries ++ entry.now ∷ []) }
        ensures unchanged { OnErr result (self.new.entries ≡ self.old.entries) }
        ensures tail { T.keeps tail.old self.old.entries → T.keeps tail.new self.new.entries }
    {
        let position = self.heads.len() + 1;
        let checked = self.heads.check_known(None, position, entry, known)?;
        if self.heads.reserve().is_err() {
            return Err(Untaken::Refused(Refusal::Memory));
        }
        if tail.put(position, entry).is_err() {
            return Err(Untaken::Unkept);
        }
        match self.heads.push(checked) {
            Ok(()) => Ok(position),
            Err(_) => unreachable!(),
        }
    }

    /// The key under which the check of an entry's signature verifies it here: that of its author's
    /// device. None exactly if the bytes are no entry, or its author has no such live device. It
    /// takes no memory.
    pub fn key_for(&self, entry: &[u8]) -> Option<[u8; 56]>
        ensures value { result ≡ key_for (roster_of self.now.genesis self.now.entries) entry.now }
    {
        self.heads.key_for(entry)
    }

    /// The entries after the first `from`: as many of them as one answer holds, up to
    /// [`MAX_PULLED`], whose bytes with 4 for each are at most [`MAX_PULLED_BYTES`].
    pub fn pull(&self, from: u32) -> &[Vec<u8>]
        ensures entries { map (λ v. v.items) result.now ≡ batch_after self.now.entries from }
        ensures none_left { length result.now ≡ 0 ↔ length self.now.entries ≤ from }
        ensures within { length result.now ≤ MAX_PULLED }
    {
        let entries = self.heads.entries();
        let from = (from as usize).min(entries.len());
        let after = &entries[from..];
        &after[..batch_len(after)]
    }
}

// How many of the first entries one answer holds.
fn batch_len(entries: &[Vec<u8>]) -> usize
    ensures within { result ≤ length entries.now }
    ensures value { take result (map (λ v. v.items) entries.now)
        ≡ longest_batch MAX_PULLED MAX_PULLED_BYTES (map (λ v. v.items) entries.now) }
{
    let mut room = MAX_PULLED_BYTES;
    for (i, entry) in entries.iter().enumerate() {
        if !has_room(i, room, entry.len()) {
            return i;
        }
        room -= entry.len() + 4;
    }
    entries.len()
}

// Whether an answer of so many entries has room for one more of this length.
fn has_room(count: usize, room: usize, len: usize) -> bool
    ensures { result ≡ (nat_lt count MAX_PULLED && nat_le (len + 4) room) }
{
    count < usize::from(MAX_PULLED) && room >= 4 && len <= room - 4
}
