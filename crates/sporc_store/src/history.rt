//! Histories that entries are appended to, whoever checks them.

ghost use Rattle.std.specs.Prelude.{◌≡◌, ◌≢◌, ℕ, List, map, Some, IfOk, OnErr};
ghost use Rattle.sporc_entry.specs.declared.genesis.Genesis.{Genesis};
ghost use Rattle.sporc_entry.specs.Genesis.{IsGenesis};
ghost use Rattle.sporc_store.specs.Loading.{Checker, nobody, an_order, a_member, fault_behind};
ghost use Rattle.sporc_store.specs.Loading.{appended};

use crate::saved_entry::SavedEntry;
use sporc_base::Memory;
use sporc_entry::Genesis;
use sporc_head::Refusal;
use sporc_line::Line;
use sporc_order::Order;
use std::alloc::{AllocError, Global};

// A history that entries are appended to.
pub(crate) trait History {
    // Who checks its entries.
    ghost checker: { Self → Checker };

    // Its entries, oldest first.
    ghost entries: { Self → List (List ℕ) };

    // Appends an entry, or answers the first check that it fails.
    fn append(&mut self, alloc: Global, entry: &SavedEntry<'_>) -> Result<Option<Refusal>, Memory>
        ensures refusal { IfOk result
            (λ refusal. refusal ≡ fault_behind (checker self.old) (entries self.old) entry.now) }
        ensures taken { IfOk result
            (λ refusal. entries self.new ≡ appended refusal entry.now (entries self.old)) }
        ensures named { IfOk result (λ refusal. refusal ≢ Some Refusal.Memory) }
        ensures memory { OnErr result (entries self.new ≡ entries self.old) }
        ensures checker { checker self.new ≡ checker self.old };
}

// The history of a document.
pub(crate) trait DocumentHistory: History {
    // What the document begins with.
    ghost genesis: { Self → Genesis };

    // What the document begins with.
    fn genesis(&self) -> &Genesis
        ensures value { result.now ≡ genesis self.now }
        ensures is_genesis { IsGenesis result.now };
}

impl History for Line {
    ghost checker = { λ line. a_member line.genesis line.kit };

    ghost entries = { λ line. line.entries };

    #[tactic(auto, unfolding(crate::specs::Loading::fault_behind))]
    fn append(&mut self, _: Global, entry: &SavedEntry<'_>) -> Result<Option<Refusal>, Memory> {
        let position = self.len() + 1;
        match self.accept_known(position, entry.bytes(), entry.verdict()) {
            Ok(()) => Ok(None),
            Err(Refusal::Memory) => Err(AllocError),
            Err(refusal) => Ok(Some(refusal)),
        }
    }
}

impl DocumentHistory for Line {
    ghost genesis = { λ line. line.genesis };

    fn genesis(&self) -> &Genesis {
        self.heads().genesis()
    }
}

impl History for Order {
    ghost checker = { λ order. an_order order.genesis };

    ghost entries = { λ order. order.entries };

    #[tactic(auto, unfolding(crate::specs::Loading::fault_behind))]
    fn append(&mut self, _: Global, entry: &SavedEntry<'_>) -> Result<Option<Refusal>, Memory> {
        match self.submit_known(entry.bytes(), entry.verdict()) {
            Ok(_) => Ok(None),
            Err(Refusal::Memory) => Err(AllocError),
            Err(refused) => Ok(Some(refused)),
        }
    }
}

impl DocumentHistory for Order {
    ghost genesis = { λ order. order.genesis };

    fn genesis(&self) -> &Genesis {
        self.genesis()
    }
}

// Entries that nobody checks.
impl History for Vec<Vec<u8>> {
    ghost checker = { λ _. nobody };

    ghost entries = { λ entries. map (λ entry. entry.items) entries.items };

    #[tactic(auto, unfolding(crate::specs::Loading::fault_behind))]
    fn append(&mut self, alloc: Global, entry: &SavedEntry<'_>) -> Result<Option<Refusal>, Memory> {
        let copy = Vec::from_slice(alloc, entry.bytes())?;
        self.push(copy)?;
        Ok(None)
    }
}
