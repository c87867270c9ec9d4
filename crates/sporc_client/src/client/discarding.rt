//! Giving up what is pending.

ghost use Rattle.std.specs.Prelude.{◌≡◌, length, nat_lt, IfOk};
ghost use Rattle.sporc_base.specs.FirstFault.{Answers, AnswersUnless, unless};
ghost use Rattle.sporc_client.specs.declared.limits.TheConstants.{MAX_EVENTS};
ghost use Rattle.sporc_client.specs.Answers.{added, discard_fault};
ghost use Rattle.sporc_client.specs.ClientModel.{state_of, with_events};
ghost use Rattle.sporc_client.specs.Log.{Discard as Discarded};

use super::Client;
use crate::event::Event;
use crate::fault::EditFault;
use crate::limits::MAX_EVENTS;
use crate::workspace::Workspace;
use sporc_delta::Delta;
use sporc_outside::LeafDisk;

impl<D: LeafDisk> Client<D> {
    /// Gives up all pending items and the entry on its way: what is shown is the committed text.
    /// The length of the journal.
    pub fn discard(&mut self, by: u32) -> Result<u64, EditFault>
        ensures fault { AnswersUnless EditFault.Memory result (discard_fault (state_of self.old)) }
        ensures ok { IfOk result (λ n. n ≡ length self.new.log) }
        ensures log { self.new ≡ with_events self.old (added result (Discarded by)) }
    {
        check_events(&self.own)?;
        let text = self.line.text()?;
        let form = Delta::replace_all(self.alloc, self.own.shown_len(), text.as_str())?;
        let ready = self.own.ready(form)?;
        self.own.record_discard(Event::Discard { by }, ready);
        Ok(self.own.journal().len() as u64)
    }
}

// Whether one more event may be.
fn check_events(own: &Workspace) -> Result<(), EditFault>
    ensures fault { Answers result
        (unless (nat_lt (length own.now.shown) MAX_EVENTS) EditFault.JournalFull) }
{
    if own.journal().len() >= MAX_EVENTS {
        return Err(EditFault::JournalFull);
    }
    Ok(())
}
