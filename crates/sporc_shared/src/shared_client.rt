//! Clients that threads share.

ghost use Rattle.std.specs.Prelude.{◌≡◌, ◌≢◌, ◌+◌, ◌<◌, ◌≤◌, ◌^◌, max, Err, IfErr, IfOk, IsOk};
ghost use Rattle.sporc_base.specs.Lists.{StartsWith};
ghost use Rattle.sporc_client.specs.Answers.{accept_fault, change_fault, edit_fault};
ghost use Rattle.sporc_client.specs.ClientModel.{Rise, leaves_of};
ghost use Rattle.sporc_client.specs.Log.{Accept as Accepted, Change as Changed, Edit as Edited};
ghost use Rattle.sporc_client.specs.Step.{is_flight};
ghost use Rattle.sporc_client.specs.Submissions.{submission_added};
ghost use Rattle.sporc_turn.specs.Knowing.{adding, copied, first_known, joined_with, splitting};
ghost use Rattle.sporc_turn.specs.Log.{Agrees, Extends};
ghost use Rattle.sporc_turn.specs.Passes.{known_held, known_of, out_of, watermark_held};
ghost use Rattle.sporc_turn.specs.Passes.{watermark_of};
ghost use Rattle.sporc_turn.specs.Passes.{read_of, value_of, IsHeldOf};
ghost use Rattle.sporc_shared.specs.Calls.{CallGives, CallTells, IsCall, SubmitsAt};
ghost use Rattle.sporc_shared.specs.Items.{IsAllowed, Past, by_of, client_of, disk_faults};
ghost use Rattle.sporc_shared.specs.Items.{items_of, past_of};
ghost use Rattle.sporc_shared.specs.Looks.{IsLookAt, key_at, membership_of};
ghost use Rattle.sporc_shared.specs.Passes.{HasFront, IsPassOf, IsReplyOf, IsWornOnErr};

use crate::answered::{Answered, Reply};
use crate::desk::Desk;
use crate::front::Front;
use crate::held;
use crate::item::Pass;
use crate::journal::count_events;
use crate::look::Look;
use crate::membership::Membership;
use sporc_base::Memory;
use sporc_client::{AcceptFault, Client, EditFault, SubmitFault, Submitted};
use sporc_delta::Delta;
use sporc_head::Examined;
use sporc_member::Change;
use sporc_outside::LeafDisk;
use sporc_turn::{Away, Held, Turn};
use std::alloc::{AllocError, AllocFailed, Global};
use std::sync::Wait;

/// A client that threads share. Each of its passes is one of this client alone (`IsPassOf`).
///
/// Contracts see of a pass what it knows of the client's log: what the client was opened with, and
/// then its events.
#[derive(Drop)]
pub struct SharedClient<D: LeafDisk> {
    pub(crate) turn: Turn<Desk<D>>,
}

impl<D: LeafDisk> SharedClient<D> {
    /// The client, to be shared, with the pass whose number is 0. It has seen the client's journal
    /// so far.
    pub fn open(
        alloc: Global,
        client: Client<D>,
    ) -> Result<(SharedClient<D>, Pass), (Client<D>, Memory)>
        ensures lock { IfOk result (λ t. IsPassOf t.0 t.1) }
        ensures first { IfOk result (λ t. known_of t.1 ≡ first_known (items_of (past_of client))) }
        ensures allowed { IsAllowed (past_of client) }
        ensures agrees { IfOk result (λ t. Agrees by_of (known_of t.1) (known_of t.1).seen) }
        ensures returned { IfErr result (λ e. e.0 ≡ client) }
    {
        let _events = count_events(&client);
        let client = match Box::new(alloc, client) {
            Ok(client) => client,
            Err(AllocFailed { value }) => return Err((value, AllocError)),
        };
        match Turn::open(alloc, Desk { client }) {
            Ok((turn, pass)) => Ok((SharedClient { turn }, pass)),
            Err((desk, memory)) => {
                let Desk { client } = desk;
                Err((Box::into_inner(client), memory))
            }
        }
    }

    /// Edits the text that was shown at a front. The answer is the length of the journal.
    pub fn edit<R: Wait>(
        &self,
        rt: &R,
        pass: Pass,
        seen: Front,
        delta: &Delta,
    ) -> Reply<Result<u64, EditFault>>
        requires lock { IsPassOf self.now pass }
        ensures lock { IsReplyOf self.now result }
        ensures call { IfOk result (λ r. CallGives (known_of pass) (known_of r.pass)
            (Edited (known_of pass).number seen.events delta.now) EditFault.Memory
            (λ client. edit_fault client seen.events delta.now) r.answer) }
        ensures ok { IfOk result (λ r. IfOk r.answer (λ n. n ≡ r.front.events)) }
        ensures front { HasFront result }
        ensures worn { IsWornOnErr pass result }
    {
        let by = pass.number();
        let mut held = self.turn.take(rt, pass)?;
        let (answer, events) = held::edit(&mut held, by, seen.events, delta);
        Ok(self.give(answer, events, held))
    }

    /// Changes the members. The answer is the length of the journal.
    pub fn change<R: Wait>(
        &self,
        rt: &R,
        pass: Pass,
        change: Change,
    ) -> Reply<Result<u64, EditFault>>
        requires lock { IsPassOf self.now pass }
        ensures lock { IsReplyOf self.now result }
        ensures call { IfOk result (λ r. CallGives (known_of pass) (known_of r.pass)
            (Changed (known_of pass).number change) EditFault.Memory change_fault r.answer) }
        ensures ok { IfOk result (λ r. IfOk r.answer (λ n. n ≡ r.front.events)) }
        ensures front { HasFront result }
        ensures worn { IsWornOnErr pass result }
    {
        let by = pass.number();
        let mut held = self.turn.take(rt, pass)?;
        let (answer, events) = held::change(&mut held, by, change);
        Ok(self.give(answer, events, held))
    }

    /// Makes an entry of the first pending item, by 64 random bytes: 32 for its signature, and 32
    /// that are the key of the next epoch if it is a change of the members.
    pub fn submit<R: Wait>(
        &self,
        rt: &R,
        pass: Pass,
        random: &[u8; 64],
    ) -> Reply<Result<Submitted, SubmitFault>>
        requires lock { IsPassOf self.now pass }
        ensures lock { IsReplyOf self.now result }
        ensures call { IfOk result (λ r. (before : Past) × IsCall (known_of pass)
            (known_of r.pass) before (submission_added (known_of pass).number r.answer)
            × SubmitsAt before random.now r.answer) }
        ensures front { HasFront result }
        ensures disk { IfOk result
            (λ r. r.answer ≡ Err SubmitFault.LeafFault → watermark_of r.pass ≢ 0) }
        ensures worn { IsWornOnErr pass result }
    {
        let by = pass.number();
        let mut held = self.turn.take(rt, pass)?;
        let (answer, events) = held::submit(&mut held, by, random);
        Ok(self.give(answer, events, held))
    }

    /// Accepts an entry that is to stand at a position. The answer is the length of the journal.
    pub fn accept<R: Wait>(
        &self,
        rt: &R,
        pass: Pass,
        pos: u32,
        bytes: &[u8],
    ) -> Reply<Result<u64, AcceptFault>>
        requires lock { IsPassOf self.now pass }
        ensures lock { IsReplyOf self.now result }
        ensures call { IfOk result (λ r. CallGives (known_of pass) (known_of r.pass)
            (Accepted (known_of pass).number bytes.now) AcceptFault.Memory
            (λ client. accept_fault client pos bytes.now) r.answer) }
        ensures ok { IfOk result (λ r. IfOk r.answer (λ n. n ≡ r.front.events)) }
        ensures front { HasFront result }
        ensures worn { IsWornOnErr pass result }
    {
        let by = pass.number();
        let mut held = self.turn.take(rt, pass)?;
        let (answer, events) = held::accept(&mut held, by, pos, bytes);
        Ok(self.give(answer, events, held))
    }

    /// Accepts an entry that was examined before the turn. It answers what [`SharedClient::accept`]
    /// answers on its bytes, and the signature is verified in the turn only if the key of the
    /// author's device is by then another one than that under which it was examined.
    pub fn accept_examined<R: Wait>(
        &self,
        rt: &R,
        pass: Pass,
        pos: u32,
        examined: &Examined,
    ) -> Reply<Result<u64, AcceptFault>>
        requires lock { IsPassOf self.now pass }
        ensures lock { IsReplyOf self.now result }
        ensures call { IfOk result (λ r. CallGives (known_of pass) (known_of r.pass)
            (Accepted (known_of pass).number examined.now.entry) AcceptFault.Memory
            (λ client. accept_fault client pos examined.now.entry) r.answer) }
        ensures ok { IfOk result (λ r. IfOk r.answer (λ n. n ≡ r.front.events)) }
        ensures front { HasFront result }
        ensures worn { IsWornOnErr pass result }
    {
        let by = pass.number();
        let mut held = self.turn.take(rt, pass)?;
        let (answer, events) = held::accept_examined(&mut held, by, pos, examined);
        Ok(self.give(answer, events, held))
    }

    /// The key under which the signature of an entry is checked: that of its author's device. None
    /// exactly if the bytes are no entry, or its author has no such live device. It takes no
    /// memory.
    pub fn key_for<R: Wait>(&self, rt: &R, pass: Pass, entry: &[u8]) -> Reply<Option<[u8; 56]>>
        requires lock { IsPassOf self.now pass }
        ensures lock { IsReplyOf self.now result }
        ensures call { IfOk result (λ r. CallTells (known_of pass) (known_of r.pass)
            (λ before. r.answer ≡ key_at before entry.now)) }
        ensures front { HasFront result }
        ensures worn { IsWornOnErr pass result }
    {
        let mut held = self.turn.take(rt, pass)?;
        let (key, events) = held::key_for(&mut held, entry);
        Ok(self.give(key, events, held))
    }

    /// The client at a glance.
    pub fn look<R: Wait>(&self, rt: &R, pass: Pass) -> Reply<Look>
        requires lock { IsPassOf self.now pass }
        ensures lock { IsReplyOf self.now result }
        ensures call { IfOk result (λ r. CallTells (known_of pass) (known_of r.pass)
            (λ before. IsLookAt before r.answer)) }
        ensures front { HasFront result }
        ensures worn { IsWornOnErr pass result }
    {
        let mut held = self.turn.take(rt, pass)?;
        let (seen, events) = held::look(&mut held);
        Ok(self.give(seen, events, held))
    }

    /// Whether an entry is the one on its way.
    pub fn is_flight<R: Wait>(&self, rt: &R, pass: Pass, entry: &[u8]) -> Reply<bool>
        requires lock { IsPassOf self.now pass }
        ensures lock { IsReplyOf self.now result }
        ensures call { IfOk result (λ r. CallTells (known_of pass) (known_of r.pass)
            (λ before. r.answer ≡ is_flight (client_of before) entry.now)) }
        ensures front { HasFront result }
        ensures worn { IsWornOnErr pass result }
    {
        let mut held = self.turn.take(rt, pass)?;
        let (is, events) = held::is_flight(&mut held, entry);
        Ok(self.give(is, events, held))
    }

    /// Whose the client is.
    pub fn membership<R: Wait>(&self, rt: &R, pass: Pass) -> Reply<Membership>
        requires lock { IsPassOf self.now pass }
        ensures lock { IsReplyOf self.now result }
        ensures call { IfOk result (λ r. CallTells (known_of pass) (known_of r.pass)
            (λ before. r.answer ≡ membership_of before)) }
        ensures front { HasFront result }
        ensures worn { IsWornOnErr pass result }
    {
        let mut held = self.turn.take(rt, pass)?;
        let (whose, events) = held::membership(&mut held);
        Ok(self.give(whose, events, held))
    }

    // Gives the client back after a call.
    fn give<A>(&self, answer: A, events: u64, held: Held<Desk<D>>) -> Answered<A>
        requires lock { IsHeldOf self.now.turn held }
        requires log { Extends by_of (known_held held)
            (items_of (past_of (value_of held).client.value)) }
        requires watermark { watermark_held held ≤ disk_faults D.told (value_of held).client.value }
        ensures lock { IsPassOf self.now result.pass }
        ensures answer { result.answer ≡ answer }
        ensures front { result.front.events ≡ events }
        ensures known { known_of result.pass
            ≡ adding (known_held held) (items_of (past_of (value_of held).client.value)) }
        ensures watermark { watermark_of result.pass
            ≡ disk_faults D.told (value_of held).client.value }
        ensures agrees { Agrees by_of (known_of result.pass)
            (items_of (past_of (value_of held).client.value)) }
    {
        Answered {
            answer,
            front: Front { events },
            pass: self.turn.give(held),
        }
    }

    /// Number 0 and a new pass, whose number is one more than the last one's. It has seen as much,
    /// and has no events of its own. A split takes no memory, so it never fails.
    pub fn split(&self, pass: Pass) -> Result<(Pass, Pass), (Pass, Memory)>
        requires lock { IsPassOf self.now pass }
        requires first { (known_of pass).number ≡ 0 }
        requires limit { (known_of pass).splits + 1 < 2 ^ 32 }
        ensures ok { IsOk result }
        ensures lock { IfOk result (λ r. IsPassOf self.now r.0 × IsPassOf self.now r.1) }
        ensures old { IfOk result (λ r. known_of r.0 ≡ splitting (known_of pass)) }
        ensures new { IfOk result (λ r. known_of r.1 ≡ copied (known_of pass)) }
        ensures returned { IfErr result (λ e. e.0 ≡ pass) }
    {
        self.turn.split(pass)
    }

    /// Joins a pass back to number 0, which keeps its items. It has seen the longer of both logs,
    /// and each of them is a prefix of that one. Of the next tickets that both read it keeps the
    /// larger, and so of the watermarks that both saw.
    pub fn join(&self, a: Pass, b: Pass) -> Pass
        requires lock { IsPassOf self.now a × IsPassOf self.now b }
        requires first { (known_of a).number ≡ 0 }
        requires other { (known_of b).number ≢ 0 }
        ensures lock { IsPassOf self.now result }
        ensures known { known_of result ≡ joined_with (known_of a) (known_of b) }
        ensures read { read_of result ≡ max (read_of a) (read_of b) }
        ensures watermark { watermark_of result ≡ max (watermark_of a) (watermark_of b) }
        ensures first { StartsWith (known_of result).seen (known_of a).seen }
        ensures other { StartsWith (known_of result).seen (known_of b).seen }
        ensures agrees { Agrees by_of (known_of result) (known_of result).seen }
    {
        self.turn.join(a, b)
    }

    /// The client, if each pass that was split was joined back. Its log is what number 0 has seen,
    /// and the leaves of its submissions rise from the first that it could draw, each once.
    /// Otherwise the shared client and the pass come back, with the number of passes that are out.
    pub fn close(self, pass: Pass) -> Result<Client<D>, (SharedClient<D>, Pass, Away)>
        requires lock { IsPassOf self pass }
        requires first { (known_of pass).number ≡ 0 }
        ensures all { IfOk result (λ c. out_of pass ≡ 0) }
        ensures log { IfOk result (λ c. items_of (past_of c) ≡ (known_of pass).seen) }
        ensures watermark { IfOk result (λ c. watermark_of pass ≤ disk_faults D.told c) }
        ensures agrees { IfOk result (λ c. Agrees by_of (known_of pass) (items_of (past_of c))) }
        ensures allowed { IfOk result (λ c. IsAllowed (past_of c)) }
        ensures leaves { IfOk result
            (λ c. Rise (past_of c).first_leaf c.leaves.next (leaves_of c.log)) }
        ensures away { IfErr result (λ e. (e.2.out ≡ out_of pass) × (e.2.out ≢ 0)) }
        ensures returned { IfErr result (λ e. (e.0 ≡ self) × (e.1 ≡ pass)) }
    {
        let SharedClient { turn } = self;
        match turn.close(pass) {
            Ok(desk) => {
                let Desk { client } = desk;
                let client = Box::into_inner(client);
                let _events = count_events(&client);
                Ok(client)
            }
            Err((turn, pass, away)) => Err((SharedClient { turn }, pass, away)),
        }
    }
}
