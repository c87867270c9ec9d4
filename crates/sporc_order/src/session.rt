//! Sessions of one client with an order.

ghost use Rattle.std.specs.Prelude.{◌≡◌, ◌+◌, true, false, length, None, Ok, Err, IfOk, IfErr};
ghost use Rattle.std.specs.Prelude.{IfSome, IsErr, OnOk, OnErr};
ghost use Rattle.std.specs.Option.{option_copied};
ghost use Rattle.sporc_wire.specs.declared.to_client.ToClient.{ToClient};
ghost use Rattle.sporc_order.specs.Batches.{batch_after};
ghost use Rattle.sporc_order.specs.Replies.{Says};
ghost use Rattle.sporc_order.specs.Sessions.{step_of, greeted, submitted, entries_after, entry_in};
ghost use Rattle.sporc_order.specs.Sessions.{IsExactFor};
ghost use Rattle.sporc_order.specs.Tails.{IsUnanswered};
ghost use Rattle.sporc_head.specs.Examined.{IsExact};
ghost use Rattle.sporc_head.specs.HeadChecks.{head_fault};

use crate::order::Order;
use crate::reply::{Reply, reply_of};
use crate::tail::{NoTail, Tail, Unanswered, Untaken};
use sporc_base::{Bytes, Memory, is_same};
use sporc_head::{Refusal, Verdict};
use sporc_wire::{FrameFault, ToClient, ToServer, write_entries};
use std::alloc::{AllocError, Global};
use std::marker::Model;

/// What a session answers to a message.
#[derive(Drop)]
pub enum Answer {
    /// This message is sent.
    Send(ToClient),
    /// Nothing is sent.
    Silent,
    /// The session ends.
    Close,
}

/// A session of one client with an order.
///
/// Contracts see whether the client was greeted.
#[derive(Drop)]
pub struct Session {
    is_greeted: bool,
}

impl Model for Session {
    ghost use Rattle.std.specs.Prelude.{Bool};

    ghost Value = { Bool };

    ghost view = { λ s. s.is_greeted };
}

impl Session {
    /// A session before its first message.
    pub fn new() -> Session
        ensures value { result ≡ false }
    {
        Session { is_greeted: false }
    }

    /// Answers a message: Close exactly if the first message isn't Hello with the order's document,
    /// or a later one is Hello. Silent for the first Hello. Each entry that is sent is copied once,
    /// into the frame.
    pub fn step(
        &mut self,
        alloc: Global,
        order: &mut Order,
        message: &ToServer,
    ) -> Result<Reply, Memory>
        ensures reply { IfOk result (Says (step_of order.old self.old message.now).answer) }
        ensures order { OnOk result (order.new ≡ (step_of order.old self.old message.now).order) }
        ensures greeted { OnOk result
            (self.new ≡ (step_of order.old self.old message.now).is_greeted) }
        ensures memory { OnErr result (order.new ≡ order.old) }
        ensures unchanged { OnErr result (self.new ≡ self.old) }
    {
        answered(self.step_kept(alloc, order, message, None, &mut NoTail))
    }

    /// Answers a message as [`Session::step`] does, where a verdict of its entry may be known, and
    /// a tail keeps the entry before the order takes it.
    pub fn step_kept<T: Tail>(
        &mut self,
        alloc: Global,
        order: &mut Order,
        message: &ToServer,
        known: Option<&Verdict>,
        tail: &mut T,
    ) -> Result<Reply, Unanswered>
        requires exact { IfSome known (λ v. IsExactFor v.now message.now) }
        ensures reply { IfOk result (Says (step_of order.old self.old message.now).answer) }
        ensures order { OnOk result (order.new ≡ (step_of order.old self.old message.now).order) }
        ensures greeted { OnOk result
            (self.new ≡ (step_of order.old self.old message.now).is_greeted) }
        ensures unanswered { IfErr result (IsUnanswered T.may_fail) }
        ensures order_unchanged { OnErr result (order.new ≡ order.old) }
        ensures unchanged { OnErr result (self.new ≡ self.old) }
        ensures tail { T.keeps tail.old order.old.entries → T.keeps tail.new order.new.entries }
    {
        match message {
            ToServer::Hello { document, .. } => Ok(reply_of(self.greet(order, document))),
            ToServer::Submit { entry } => {
                if !self.is_greeted {
                    return Ok(Reply::Close);
                }
                Ok(reply_of(submit(order, entry.as_slice(), known, tail)?))
            }
            ToServer::Pull { from } => {
                if !self.is_greeted {
                    return Ok(Reply::Close);
                }
                Ok(pull(alloc, order, *from)?)
            }
        }
    }

    /// The entry of a message whose answer depends on its signature: what a greeted client submits.
    pub fn entry_in<'a>(&self, message: &'a ToServer) -> Option<&'a [u8]>
        ensures value { option_copied result ≡ entry_in self.now message.now }
    {
        match message {
            ToServer::Submit { entry } if self.is_greeted => Some(entry.as_slice()),
            _ => None,
        }
    }

    // Answers a Hello.
    fn greet(&mut self, order: &Order, document: &[u8; 16]) -> Answer
        ensures first { self.old ≡ false → result ≡ (greeted order.now document.now).answer }
        ensures greeted { self.old ≡ false
            → self.new ≡ (greeted order.now document.now).is_greeted }
        ensures later { self.old ≡ true → result ≡ Answer.Close }
        ensures unchanged { self.old ≡ true → self.new ≡ true }
    {
        if self.is_greeted || !is_same(document, order.document()) {
            return Answer::Close;
        }
        self.is_greeted = true;
        Answer::Silent
    }
}

// What is answered where every entry is kept.
fn answered<A>(answer: Result<A, Unanswered>) -> Result<A, Memory>
    requires { IfErr answer (IsUnanswered ⊥) }
    ensures ok { IfOk answer (λ a. result ≡ Ok a) }
    ensures err { OnErr answer (IsErr result) }
{
    match answer {
        Ok(answer) => Ok(answer),
        Err(Unanswered::Memory) => Err(AllocError),
        Err(Unanswered::Unkept) => unreachable!(),
    }
}

// Answers a Submit of an entry of which a verdict may be known, and which a tail keeps first.
fn submit<T: Tail>(
    order: &mut Order,
    entry: &[u8],
    known: Option<&Verdict>,
    tail: &mut T,
) -> Result<Answer, Unanswered>
    requires exact { IfSome known (λ v. IsExact v.now entry.now) }
    ensures answer { IfOk result
        (λ answer. answer ≡ (submitted order.old entry.now (head_fault order.old.genesis None
        order.old.entries (length order.old.entries + 1) entry.now)).answer) }
    ensures order { OnOk result (order.new ≡ (submitted order.old entry.now (head_fault
        order.old.genesis None order.old.entries (length order.old.entries + 1) entry.now)).order) }
    ensures unanswered { IfErr result (IsUnanswered T.may_fail) }
    ensures order_unchanged { OnErr result (order.new ≡ order.old) }
    ensures tail { T.keeps tail.old order.old.entries → T.keeps tail.new order.new.entries }
{
    match order.submit_kept(entry, known, tail) {
        Ok(pos) => Ok(Answer::Send(ToClient::Ordered { pos })),
        Err(Untaken::Refused(Refusal::Memory)) => Err(Unanswered::Memory),
        Err(Untaken::Refused(refusal)) => Ok(Answer::Send(ToClient::Rejected { refusal })),
        Err(Untaken::Unkept) => Err(Unanswered::Unkept),
    }
}

// Answers a Pull, with the frame of the entries.
fn pull(alloc: Global, order: &Order, from: u32) -> Result<Reply, Memory>
    ensures reply { IfOk result
        (Says (Answer.Send (entries_after from (batch_after order.now.entries from)))) }
{
    if from >= order.len() {
        return Ok(Reply::Message(ToClient::Empty));
    }
    match write_entries(alloc, from + 1, order.pull(from)) {
        Ok(frame) => Ok(Reply::Frame(Bytes::new(frame))),
        Err(FrameFault::Memory) => Err(AllocError),
        Err(FrameFault::BadMessage(_) | FrameFault::TooLong(_)) => unreachable!(),
    }
}
