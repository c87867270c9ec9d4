//! Submissions.

ghost use Rattle.std.specs.Prelude.{◌≡◌, ℕ, ◌⊎◌, true, false, None, Some, Err, IfErr, IfOk};
ghost use Rattle.sporc_base.specs.Outcome.{GivesUnless};
ghost use Rattle.sporc_client.specs.ClientModel.{state_of, with_events};
ghost use Rattle.sporc_client.specs.Drawing.{IsDraw, MayDraw, asks_draw, leaf_for, submitted_with};
ghost use Rattle.sporc_client.specs.LeafUses.{IsUse, leaf_given, supply_of};
ghost use Rattle.sporc_client.specs.Submissions.{Drop, due, is_signing, step_of, submission};
ghost use Rattle.sporc_client.specs.Submissions.{submission_added};

mod draft;
mod due;
mod making;
mod unsigned;

use crate::client::Client;
use crate::event::Event;
use crate::fault::SubmitFault;
use crate::submitted::Submitted;
use crate::workspace::ready_keep;
use due::{Due, find_due};
use making::make_entry;
use sporc_member::ChangeFault;
use sporc_outside::LeafDisk;

impl<D: LeafDisk> Client<D> {
    /// Makes an entry of the first pending item, by 64 random bytes: 32 for its signature, and 32
    /// that are the key of the next epoch if it is a change of the members.
    ///
    /// Gives no entry if one is on its way, if nothing is pending, or if the item is a change that
    /// the members refuse, which it takes off. The leaf that signs is that of the kept ticket or,
    /// if there is none, one that it draws. If memory runs out a leaf that was drawn is kept for
    /// the next entry, and all else stays.
    pub fn submit(&mut self, by: u32, random: &[u8; 64]) -> Result<Submitted, SubmitFault>
        ensures value { GivesUnless SubmitFault.Memory (λ s. s) result
            (submission (state_of self.old) random.now
            (leaf_for self.old.ticket self.old.leaves self.new.leaves)) }
        ensures may { MayDraw (state_of self.old)
            (leaf_for self.old.ticket self.old.leaves self.new.leaves) }
        ensures log { self.new ≡ submitted_with self.old by result self.new.leaves }
        ensures leaf { IsUse (supply_of self.old) (leaf_given result) (supply_of self.new) }
        ensures undrawn { asks_draw self.old ≡ false → self.new.leaves ≡ self.old.leaves }
        ensures drawn { asks_draw self.old ≡ true
            → ((result ≡ Err SubmitFault.Memory) × (self.new.leaves ≡ self.old.leaves))
            ⊎ IsDraw D.told self.old.leaves self.new.leaves }
    {
        // No draw: what the signer says here of its key's leaves is what `may` rests on.
        let _next = self.signer.next_leaf();
        match self.find_due()? {
            Due::Waiting => Ok(Submitted::Waiting),
            Due::Nothing => Ok(Submitted::Nothing),
            Due::Drop(fault) => self.drop_first(by, fault),
            Due::Sign => self.submit_first(by, random),
        }
    }

    // What is due, or its fault.
    fn find_due(&self) -> Result<Due, SubmitFault>
        ensures { GivesUnless SubmitFault.Memory (λ d. d) result
            (step_of (due (state_of self.now))) }
    {
        find_due(&self.line, &self.own)
    }

    // Takes off the first pending item, a change that the members refuse.
    fn drop_first(&mut self, by: u32, fault: ChangeFault) -> Result<Submitted, SubmitFault>
        requires { due (state_of self.old) ≡ Drop fault }
        ensures ok { IfOk result (λ s. s ≡ Submitted.Dropped fault) }
        ensures err { IfErr result (λ e. e ≡ SubmitFault.Memory) }
        ensures log { self.new ≡ with_events self.old (submission_added by result) }
    {
        let ready = ready_keep(self.alloc, &mut self.own)?;
        self.own.record_drop(Event::Dropped { by, fault }, ready);
        Ok(Submitted::Dropped(fault))
    }

    // Makes the entry of the first pending item.
    fn submit_first(&mut self, by: u32, random: &[u8; 64]) -> Result<Submitted, SubmitFault>
        requires { is_signing (due (state_of self.old)) ≡ true }
        ensures value { GivesUnless SubmitFault.Memory (λ s. s) result
            (submission (state_of self.old) random.now
            (leaf_for self.old.ticket self.old.leaves self.new.leaves)) }
        ensures log { self.new ≡ submitted_with self.old by result self.new.leaves }
        ensures leaf { IsUse (supply_of self.old) (leaf_given result) (supply_of self.new) }
        ensures undrawn { (leaf : ℕ) → self.old.ticket ≡ Some leaf
            → self.new.leaves ≡ self.old.leaves }
        ensures drawn { self.old.ticket ≡ None
            → ((result ≡ Err SubmitFault.Memory) × (self.new.leaves ≡ self.old.leaves))
            ⊎ IsDraw D.told self.old.leaves self.new.leaves }
    {
        let ready = ready_keep(self.alloc, &mut self.own)?;
        let made = make_entry(
            self.alloc,
            &self.line,
            &self.own,
            &mut self.signer,
            &mut self.ticket,
            random,
        )?;
        let event = Event::Submit {
            by,
            entry: made.event,
        };
        self.own.record_submission(event, ready, made.flight);
        Ok(Submitted::Entry(made.answer))
    }
}
