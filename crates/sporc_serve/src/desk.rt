//! The order that the sessions share.

ghost use Rattle.std.specs.Prelude.{◌≡◌, ◌+◌, ◌++◌, length, replicate, OnOk, OnErr, IfOk, IfErr};
ghost use Rattle.std.specs.Prelude.{IfSome};
ghost use Rattle.sporc_head.specs.Examined.{key_for};
ghost use Rattle.sporc_head.specs.History.{roster_of};
ghost use Rattle.sporc_order.specs.Replies.{Says};
ghost use Rattle.sporc_order.specs.Sessions.{step_of, IsExactFor, IsFramed};
ghost use Rattle.sporc_order.specs.Tails.{IsUnanswered};
ghost use Rattle.sporc_serve.specs.Logs.{log_of, added_of, placed_by};
ghost use Rattle.sporc_serve.specs.Sending.{CanBeSent};

use crate::item::Item;
use crate::kept_order::KeptOrder;
use sporc_head::Verdict;
use sporc_order::{Order, Reply, Session, Tail, Unanswered};
use sporc_turn::Kept;
use sporc_wire::ToServer;
use std::alloc::Global;

/// An order, the number of the pass that submitted each entry, and what keeps each entry before the
/// order takes it: at each moment at which nobody has a turn, it keeps all of the order's.
#[derive(Drop)]
pub struct Desk<T: Tail> {
    order: Order,
    numbers: Vec<u32>,
    tail: T,
    ghost matched: { length numbers.items ≡ length order.entries },
    ghost kept: { ∥ T.keeps tail order.entries ∥₁ },
}

// What the examination of an entry asks of the order: the key of its author, if there is one, and
// the position that the entry would have.
#[derive(Clone, Copy)]
pub(crate) struct Sought {
    pub(crate) key: Option<[u8; 56]>,
    pub(crate) position: u32,
}

impl<T: Tail> Kept for Desk<T> {
    type Item = Item;

    ghost use Rattle.sporc_serve.specs.Logs.{by_of, log_of};

    ghost log = { λ d. log_of d.order d.numbers.items };

    ghost by = { by_of };

    ghost watermark = { λ d. 0 };

    #[tactic(auto, using(crate::proofs::Logs::placed_length))]
    fn logged(&self) -> u64 {
        u64::from(self.order.len()) + 1
    }
}

impl<T: Tail> Desk<T> {
    // The order, whose entries have number 0.
    pub(crate) fn new(alloc: Global, kept: KeptOrder<T>) -> Result<Desk<T>, KeptOrder<T>>
        requires tail { ∥ T.keeps kept.tail kept.order.entries ∥₁ }
        ensures order { IfOk result (λ desk. desk.order ≡ kept.order) }
        ensures numbers { IfOk result
            (λ desk. desk.numbers.items ≡ replicate (length kept.order.entries) 0) }
        ensures returned { IfErr result (λ e. e ≡ kept) }
    {
        match vec![in alloc; 0; kept.order.len() as usize] {
            Ok(numbers) => Ok(Desk {
                order: kept.order,
                numbers,
                tail: kept.tail,
            }),
            Err(_) => Err(kept),
        }
    }

    // The key of an entry's author, and the position that the entry would have.
    pub(crate) fn seek(&self, entry: &[u8]) -> Sought
        ensures key { result.key
            ≡ key_for (roster_of self.now.order.genesis self.now.order.entries) entry.now }
        ensures position { result.position ≡ length self.now.order.entries + 1 }
    {
        Sought {
            key: self.order.key_for(entry),
            position: self.order.len() + 1,
        }
    }

    // Answers a message of the session that has the pass with this number, where a verdict of its
    // entry may be known. The tail keeps the entry before the order takes it.
    pub(crate) fn step(
        &mut self,
        alloc: Global,
        number: u32,
        session: &mut Session,
        message: &ToServer,
        known: Option<&Verdict>,
    ) -> Result<Reply, Unanswered>
        requires exact { IfSome known (λ v. IsExactFor v.now message.now) }
        ensures sendable { IsFramed message.now → IfOk result CanBeSent }
        ensures reply { IfOk result (Says (step_of self.old.order session.old message.now).answer) }
        ensures greeted { OnOk result
            (session.new ≡ (step_of self.old.order session.old message.now).is_greeted) }
        ensures log { OnOk result (log_of self.new.order self.new.numbers.items
            ≡ log_of self.old.order self.old.numbers.items
            ++ placed_by number (added_of self.old.order session.old message.now)) }
        ensures unchanged { OnErr result (session.new ≡ session.old) }
        ensures unanswered { IfErr result (IsUnanswered T.may_fail) }
        ensures log_unchanged { OnErr result (log_of self.new.order self.new.numbers.items
            ≡ log_of self.old.order self.old.numbers.items) }
    {
        self.numbers.reserve(1)?;
        let before = self.order.len();
        let reply = session.step_kept(alloc, &mut self.order, message, known, &mut self.tail)?;
        if self.order.len() > before {
            self.numbers.push_reserved(number);
        }
        Ok(reply)
    }

    // The order, and what keeps its entries.
    pub(crate) fn into_kept(self) -> KeptOrder<T>
        ensures order { result.order ≡ self.order }
        ensures tail { result.tail ≡ self.tail }
        ensures keeps { ∥ T.keeps result.tail result.order.entries ∥₁ }
    {
        KeptOrder {
            order: self.order,
            tail: self.tail,
        }
    }
}
