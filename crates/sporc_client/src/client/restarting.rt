//! Clients that begin with a history, and clients that go back.

ghost use Rattle.std.specs.Prelude.{◌≡◌, ◌+◌, ◌≤◌, ◌∷◌, ◌++◌, [], length, take, None, IfOk, IfErr};
ghost use Rattle.std.specs.Prelude.{IfSome, OnOk, OnErr};
ghost use Rattle.sporc_base.specs.FirstFault.{AnswersUnless};
ghost use Rattle.sporc_head.specs.declared.limits.TheConstants.{MAX_ENTRIES};
ghost use Rattle.sporc_head.specs.Examined.{IsExact};
ghost use Rattle.sporc_line.specs.Document.{forms_of};
ghost use Rattle.sporc_line.specs.Good.{Good};
ghost use Rattle.sporc_line.specs.LineChecks.{first_fault};
ghost use Rattle.sporc_client.specs.Answers.{restart_fault};
ghost use Rattle.sporc_client.specs.ClientModel.{begun, state_of};
ghost use Rattle.sporc_client.specs.Log.{journal_of};
ghost use Rattle.sporc_client.specs.Step.{log_of_entries, log_of_first};

use super::Client;
use crate::event::Event;
use crate::fault::RestartFault;
use crate::workspace::Workspace;
use lms_sign::Signer;
use sporc_base::Memory;
use sporc_hash::entry_hash;
use sporc_head::{Refusal, Verdict};
use sporc_line::Line;
use sporc_outside::LeafDisk;
use std::alloc::{AllocError, Global};
use std::mem::replace;

impl<D: LeafDisk> Client<D> {
    /// The client of a history that was accepted before: its journal has an accept by 0 for each
    /// entry, and nothing is pending.
    pub fn resume(
        alloc: Global,
        line: Line,
        signer: Signer<D>,
    ) -> Result<Client<D>, (Line, Signer<D>, Memory)>
        ensures value { IfOk result (λ client. client
            ≡ begun line.genesis line.kit (log_of_entries line.entries) signer) }
        ensures returned { IfErr result (λ e. (e.0 ≡ line) × (e.1 ≡ signer)) }
    {
        // No draw: as in `open`.
        let _next = signer.next_leaf();
        match accepted_before(alloc, &line) {
            Ok(own) => Ok(Client {
                alloc,
                line,
                signer,
                ticket: None,
                own,
            }),
            Err(memory) => Err((line, signer, memory)),
        }
    }

    /// Goes back to the first `k` entries, with what the member was given at the opening. Its
    /// journal has an accept by 0 for each of them, and nothing is pending. The signer and a kept
    /// ticket stay.
    pub fn restart(&mut self, k: u32) -> Result<(), RestartFault>
        ensures fault { AnswersUnless RestartFault.Memory result
            (restart_fault (state_of self.old) k) }
        ensures ok { OnOk result (self.new
            ≡ record self.old { log = log_of_first k (state_of self.old) }) }
        ensures unchanged { OnErr result (self.new ≡ self.old) }
    {
        let len = self.line.len();
        if k > len {
            return Err(RestartFault::Ahead(len));
        }
        let line = first_entries(&self.line, k)?;
        match accepted_before(self.alloc, &line) {
            Ok(own) => {
                drop(replace(&mut self.line, line));
                drop(replace(&mut self.own, own));
                Ok(())
            }
            Err(memory) => {
                drop(line);
                Err(memory.into())
            }
        }
    }
}

// The own part of a client that accepted all entries of a history and made nothing of its own.
fn accepted_before(alloc: Global, line: &Line) -> Result<Workspace, Memory>
    ensures pending { IfOk result (λ own. own.pending ≡ []) }
    ensures flight { IfOk result (λ own. own.flight ≡ None) }
    ensures shown { IfOk result
        (λ own. own.shown ≡ forms_of line.now.genesis line.now.kit line.now.entries) }
    ensures journal { IfOk result
        (λ own. own.journal ≡ journal_of (log_of_entries line.now.entries)) }
    ensures good { OnOk result (Good line.now.genesis line.now.kit line.now.entries) }
    ensures within { OnOk result (length line.now.entries ≤ MAX_ENTRIES) }
{
    let len = line.len();
    let mut own = Workspace::new(alloc)?;
    for i in 0..len {
        let place = i + 1;
        let form = line.form(place).copy()?;
        let ready = own.ready(form)?;
        own.record_event(Event::Accept { by: 0, place }, ready);
    }
    Ok(own)
}

// A history anew, up to its first `k` entries.
fn first_entries(line: &Line, k: u32) -> Result<Line, Memory>
    requires { k ≤ length line.now.entries }
    ensures genesis { IfOk result (λ first. first.genesis ≡ line.now.genesis) }
    ensures kit { IfOk result (λ first. first.kit ≡ line.now.kit) }
    ensures entries { IfOk result (λ first. first.entries ≡ take k line.now.entries) }
{
    let _good = line.len();
    let mut first = line.reopen()?;
    let entries = line.entries();
    for i in 0..k {
        match take_next(&mut first, entries[i as usize].as_slice()) {
            Ok(()) => {}
            Err(memory) => {
                drop(first);
                return Err(memory);
            }
        }
    }
    Ok(first)
}

// Appends an entry that fails no check. Its signature is not verified again.
fn take_next(line: &mut Line, bytes: &[u8]) -> Result<(), Memory>
    requires { first_fault line.old.genesis line.old.kit line.old.entries
        (length line.old.entries + 1) bytes.now ≡ None }
    ensures genesis { line.new.genesis ≡ line.old.genesis }
    ensures kit { line.new.kit ≡ line.old.kit }
    ensures entries { OnOk result (line.new.entries ≡ line.old.entries ++ bytes.now ∷ []) }
{
    let place = line.len() + 1;
    let verdict = good_verdict(line, bytes);
    match line.accept_known(place, bytes, verdict.as_ref()) {
        Ok(()) => Ok(()),
        Err(Refusal::Memory) => Err(AllocError),
        Err(_) => unreachable!(),
    }
}

// What verifying the signature of an entry that fails no check finds, under the key by which its
// check verifies it.
#[tactic(auto, using(crate::proofs::GoodVerdicts::verifies_there))]
fn good_verdict(line: &Line, bytes: &[u8]) -> Option<Verdict>
    requires { first_fault line.now.genesis line.now.kit line.now.entries
        (length line.now.entries + 1) bytes.now ≡ None }
    ensures { IfSome result (λ verdict. IsExact verdict bytes.now) }
{
    match line.key_for(bytes) {
        Some(key) => {
            let digest = entry_hash(bytes);
            Some(Verdict {
                key,
                good: true,
                digest,
            })
        }
        None => None,
    }
}
