//! Orders under locks of their own, and taken out again.

ghost use Rattle.std.specs.Prelude.{◌≡◌, ◌≤◌, ◌<◌, ◌+◌, ◌∷◌, ◌++◌, List, [], Some, Err, length};
ghost use Rattle.std.specs.Prelude.{reverse, IfOk, OnOk};
ghost use Rattle.std.specs.Vec.{vec_len, vec_capacity};
ghost use Rattle.std.specs.List.{AllZip};
ghost use Rattle.sporc_order.specs.OrderModel.{OrderModel};
ghost use Rattle.sporc_serve.specs.Crowds.{LeavesNet};
ghost use Rattle.sporc_docs.specs.Hands.{AllHands, HasFirst, HaveRoom, IsEmpty};
ghost use Rattle.sporc_docs.specs.Locks.{AreBack, AreOpen, Closes, EndsAll};
ghost use Rattle.sporc_docs.specs.Served.{AreKept};

use crate::docs_service::DocsService;
use crate::hands::Hand;
use crate::serving::serve_hands;
use sporc_base::Memory;
use sporc_order::{Order, Tail};
use sporc_outside::{Gate, Listen};
use sporc_serve::{Desk, Item, KeptOrder, ServeFault, close_kept, open_kept};
use sporc_turn::{Pass, Turn};
use std::alloc::{AllocError, Global};
use std::sync::Wait;
use std::thread::Threads;

// For each order its lock, its document, and the pass with number 0.
#[derive(Drop)]
pub(crate) struct Locks<T: Tail> {
    pub(crate) turns: Vec<Turn<Desk<T>>>,
    pub(crate) documents: Vec<[u8; 16]>,
    pub(crate) firsts: Vec<Option<Pass<Item>>>,
}

impl<T: Tail> Locks<T> {
    // No lock, and room for so many.
    pub(crate) fn with_capacity(alloc: Global, len: usize) -> Result<Locks<T>, Memory>
        ensures none { IfOk result (AreOpen []) }
        ensures turns_room { IfOk result (λ l. vec_len l.turns + len ≤ vec_capacity l.turns) }
        ensures documents_room { IfOk result
            (λ l. vec_len l.documents + len ≤ vec_capacity l.documents) }
        ensures firsts_room { IfOk result (λ l. vec_len l.firsts + len ≤ vec_capacity l.firsts) }
    {
        let documents = Vec::with_capacity(alloc, len)?;
        let firsts = Vec::with_capacity(alloc, len)?;
        let turns = Vec::with_capacity(alloc, len)?;
        Ok(Locks {
            turns,
            documents,
            firsts,
        })
    }

    // Puts orders under locks with their tails, the last one first, as far as memory goes.
    pub(crate) fn open(
        &mut self,
        alloc: Global,
        orders: &mut Vec<Order>,
        tails: &mut Vec<T>,
    ) -> Result<(), Memory>
        requires none { AreOpen [] self.old }
        requires tails { AreKept T.keeps tails.old.items orders.old.items }
        requires turns_room { vec_len self.old.turns + vec_len orders.old
            ≤ vec_capacity self.old.turns }
        requires documents_room { vec_len self.old.documents + vec_len orders.old
            ≤ vec_capacity self.old.documents }
        requires firsts_room { vec_len self.old.firsts + vec_len orders.old
            ≤ vec_capacity self.old.firsts }
        ensures open { (os : List OrderModel) × (orders.old.items ≡ orders.new.items ++ reverse os)
            × AreOpen os self.new }
        ensures ok { OnOk result (orders.new.items ≡ []) }
        ensures tails { AreKept T.keeps tails.new.items orders.new.items }
        ensures room { (vec_capacity orders.new ≡ vec_capacity orders.old)
            × (vec_capacity tails.new ≡ vec_capacity tails.old) }
    {
        while let Some(order) = orders.pop() {
            let tail = tails.pop().unwrap();
            let document = *order.document();
            match open_kept(alloc, KeptOrder { order, tail }) {
                Ok((turn, first)) => self.push(turn, document, first),
                Err(kept) => {
                    orders.push_reserved(kept.order);
                    tails.push_reserved(kept.tail);
                    return Err(AllocError);
                }
            }
        }
        Ok(())
    }

    // One lock more.
    fn push(&mut self, turn: Turn<Desk<T>>, document: [u8; 16], first: Pass<Item>)
        requires turns_room { vec_len self.old.turns < vec_capacity self.old.turns }
        requires documents_room { vec_len self.old.documents < vec_capacity self.old.documents }
        requires firsts_room { vec_len self.old.firsts < vec_capacity self.old.firsts }
        ensures turns { self.new.turns.items ≡ self.old.turns.items ++ turn ∷ [] }
        ensures documents { self.new.documents.items ≡ self.old.documents.items ++ document ∷ [] }
        ensures firsts { self.new.firsts.items ≡ self.old.firsts.items ++ Some first ∷ [] }
        ensures len { (vec_len self.new.turns ≡ vec_len self.old.turns + 1)
            × (vec_len self.new.documents ≡ vec_len self.old.documents + 1)
            × (vec_len self.new.firsts ≡ vec_len self.old.firsts + 1) }
        ensures room { (vec_capacity self.new.turns ≡ vec_capacity self.old.turns)
            × (vec_capacity self.new.documents ≡ vec_capacity self.old.documents)
            × (vec_capacity self.new.firsts ≡ vec_capacity self.old.firsts) }
    {
        self.turns.push_reserved(turn);
        self.documents.push_reserved(document);
        self.firsts.push_reserved(Some(first));
    }

    // Serves the documents of these locks with such hands.
    pub(crate) fn serve<R: Threads + Wait + Sync, N: Listen, G: Gate + Sync>(
        &mut self,
        rt: &R,
        alloc: Global,
        net: &mut N,
        gate: &G,
        hands: &mut [Hand],
    ) -> Result<(), ServeFault>
    where
        N: Send,
        N::Link: Send,
        T: Send,
        requires firsts { AllZip HasFirst self.old.turns.items self.old.firsts.items }
        requires room { HaveRoom (length hands.old) self.old.firsts.items }
        requires empty { AllHands (AllZip IsEmpty self.old.turns.items) hands.old }
        requires one_length { length self.old.documents.items ≡ length self.old.turns.items }
        ensures turns { self.new.turns ≡ self.old.turns }
        ensures firsts { AllZip HasFirst self.new.turns.items self.new.firsts.items }
        ensures ending { EndsAll self.old.documents.items self.old.firsts.items
            self.new.firsts.items (N.told net.old) (N.told net.new) (length hands.old) result }
        ensures net { LeavesNet (N.told net.old) (N.told net.new) }
        ensures unkept { result ≡ Err ServeFault.Unkept → T.may_fail }
    {
        let docs = DocsService {
            rt,
            alloc,
            turns: &self.turns,
            documents: &self.documents,
            gate,
        };
        serve_hands(&docs, net, &mut self.firsts, hands)
    }

    // Takes the orders and their tails out of their locks, the last lock's first.
    pub(crate) fn close(self, orders: &mut Vec<Order>, tails: &mut Vec<T>)
        requires firsts { AllZip HasFirst self.turns.items self.firsts.items }
        requires back { AreBack self.firsts.items }
        requires tails { AreKept T.keeps tails.old.items orders.old.items }
        requires room { vec_len orders.old + vec_len self.turns ≤ vec_capacity orders.old }
        requires tails_room { vec_len tails.old + vec_len self.turns ≤ vec_capacity tails.old }
        ensures closed { (os : List OrderModel)
            × (orders.new.items ≡ orders.old.items ++ reverse os)
            × AllZip Closes self.firsts.items os }
        ensures tails { AreKept T.keeps tails.new.items orders.new.items }
    {
        let Locks {
            mut turns,
            documents: _,
            mut firsts,
        } = self;
        while let Some(turn) = turns.pop() {
            let first = firsts.pop().unwrap().unwrap();
            match close_kept(turn, first) {
                Ok(kept) => {
                    orders.push_reserved(kept.order);
                    tails.push_reserved(kept.tail);
                }
                Err(_) => unreachable!(),
            }
        }
        turns.destroy_empty();
    }
}
