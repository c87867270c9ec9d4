//! Entries that come.

ghost use Rattle.std.specs.Prelude.{◌≡◌, ◌<◌, ◌≤◌, length, nat_lt, IfOk, IfSome, OnOk, OnErr};
ghost use Rattle.sporc_base.specs.FirstFault.{AnswersUnless};
ghost use Rattle.sporc_suffix.specs.Runs.{IsReadyAt};
ghost use Rattle.sporc_head.specs.Examined.{IsExact};
ghost use Rattle.sporc_line.specs.LineChecks.{first_fault};
ghost use Rattle.sporc_line.specs.Prepared.{IsPrepared};
ghost use Rattle.sporc_client.specs.declared.limits.TheConstants.{MAX_EVENTS};
ghost use Rattle.sporc_client.specs.Answers.{accept_fault, added, or_full};
ghost use Rattle.sporc_client.specs.ClientModel.{state_of, with_events};
ghost use Rattle.sporc_client.specs.Log.{Accept as Accepted};
ghost use Rattle.sporc_client.specs.Coming.{CanCome, effect};
ghost use Rattle.sporc_client.specs.Taking.{CanSettle, Takes, coming_at, form_at};
ghost use Rattle.sporc_client.specs.Workspace.{SameOwn};

use super::Client;
use crate::coming::{Coming, settle};
use crate::event::Event;
use crate::fault::AcceptFault;
use crate::limits::MAX_EVENTS;
use crate::workspace::Workspace;
use sporc_base::Memory;
use sporc_head::{Examined, Refusal, Verdict};
use sporc_line::{Line, Prepared};
use sporc_member::Device;
use sporc_outside::LeafDisk;
use sporc_suffix::ReadyForm;
use std::alloc::Global;

impl<D: LeafDisk> Client<D> {
    /// Accepts an entry that is to stand at a position, if no check fails. The length of the
    /// journal.
    ///
    /// The entry on its way commits the first pending item. Another's edit and the pending edits
    /// pass each other: the other's is ordered earlier. A change, or another entry of the device's
    /// own, ends the way of the entry on its way.
    pub fn accept(&mut self, by: u32, pos: u32, bytes: &[u8]) -> Result<u64, AcceptFault>
        ensures fault { AnswersUnless AcceptFault.Memory result
            (accept_fault (state_of self.old) pos bytes.now) }
        ensures ok { IfOk result (λ n. n ≡ length self.new.log) }
        ensures log { self.new ≡ with_events self.old (added result (Accepted by bytes.now)) }
    {
        self.accept_known(by, pos, bytes, None)
    }

    /// Accepts an entry whose signature was examined. It is verified anew if the key isn't that of
    /// its author's device here.
    pub fn accept_examined(
        &mut self,
        by: u32,
        pos: u32,
        examined: &Examined,
    ) -> Result<u64, AcceptFault>
        ensures fault { AnswersUnless AcceptFault.Memory result
            (accept_fault (state_of self.old) pos examined.now.entry) }
        ensures ok { IfOk result (λ n. n ≡ length self.new.log) }
        ensures log { self.new
            ≡ with_events self.old (added result (Accepted by examined.now.entry)) }
    {
        self.accept_known(by, pos, examined.entry(), Some(examined.known()))
    }

    // Accepts an entry's bytes, of which a verdict may be known.
    fn accept_known(
        &mut self,
        by: u32,
        pos: u32,
        bytes: &[u8],
        known: Option<&Verdict>,
    ) -> Result<u64, AcceptFault>
        requires exact { IfSome known (λ v. IsExact v.now bytes.now) }
        ensures fault { AnswersUnless AcceptFault.Memory result
            (accept_fault (state_of self.old) pos bytes.now) }
        ensures ok { IfOk result (λ n. n ≡ length self.new.log) }
        ensures log { self.new ≡ with_events self.old (added result (Accepted by bytes.now)) }
    {
        let prepared = check_entry(&mut self.line, &self.own, pos, bytes, known)?;
        take_entry(
            self.alloc,
            &mut self.line,
            &mut self.own,
            by,
            prepared,
            bytes,
        )?;
        Ok(self.own.journal().len() as u64)
    }
}

// Commits a prepared entry, of these bytes, and does what it does to a client's own part.
fn take_entry(
    alloc: Global,
    line: &mut Line,
    own: &mut Workspace,
    by: u32,
    prepared: Prepared,
    bytes: &[u8],
) -> Result<(), Memory>
    requires bytes { prepared.checked.bytes ≡ bytes.now }
    requires prepared { IsPrepared line.old.genesis line.old.kit line.old.entries prepared }
    requires room { 1 ≤ line.old.spare }
    requires settles { CanSettle own.old prepared }
    ensures ok { OnOk result (Takes line.old line.new own.old own.new by prepared) }
    ensures line_unchanged { OnErr result (line.new ≡ line.old) }
    ensures unchanged { OnErr result (SameOwn own.old own.new) }
{
    match ready_coming(alloc, line.own_device(), own, &prepared, bytes) {
        Ok((coming, ready)) => {
            line.commit(prepared);
            let place = line.len();
            own.record_coming(Event::Accept { by, place }, ready, coming);
            Ok(())
        }
        Err(memory) => {
            drop(prepared);
            Err(memory)
        }
    }
}

// What a prepared entry, of these bytes, does to a client's own part, and its shown delta with the
// memory of its event.
fn ready_coming(
    alloc: Global,
    me: Device,
    own: &mut Workspace,
    prepared: &Prepared,
    bytes: &[u8],
) -> Result<(Coming, ReadyForm), Memory>
    requires bytes { prepared.now.checked.bytes ≡ bytes.now }
    requires settles { CanSettle own.old prepared.now }
    ensures coming { IfOk result (λ both. effect both.0 own.old.pending
        ≡ coming_at me own.old bytes.now prepared.now) }
    ensures fits { IfOk result (λ both. CanCome both.0 own.old.pending) }
    ensures ready_form { IfOk result
        (λ both. both.1.form ≡ form_at own.old prepared.now.checked.bytes prepared.now) }
    ensures made { IfOk result (λ both. IsReadyAt 0 own.new.shown both.1) }
    ensures room { OnOk result (0 < own.new.spare) }
    ensures unchanged { SameOwn own.old own.new }
{
    let (coming, form) = settle(alloc, me, own, prepared, bytes)?;
    match own.ready(form) {
        Ok(ready) => Ok((coming, ready)),
        Err(memory) => {
            drop(coming);
            Err(memory)
        }
    }
}

// Checks an entry that is to stand at a position, and then the journal's room. Takes the memory of
// its commit.
fn check_entry(
    line: &mut Line,
    own: &Workspace,
    pos: u32,
    bytes: &[u8],
    known: Option<&Verdict>,
) -> Result<Prepared, AcceptFault>
    requires exact { IfSome known (λ v. IsExact v.now bytes.now) }
    ensures fault { AnswersUnless AcceptFault.Memory result
        (or_full (nat_lt (length own.now.shown) MAX_EVENTS)
        (first_fault line.old.genesis line.old.kit line.old.entries pos bytes.now)) }
    ensures prepared { IfOk result (IsPrepared line.old.genesis line.old.kit line.old.entries) }
    ensures bytes { IfOk result (λ prepared. prepared.checked.bytes ≡ bytes.now) }
    ensures room { OnOk result (1 ≤ line.new.spare) }
    ensures genesis { line.new.genesis ≡ line.old.genesis }
    ensures kit { line.new.kit ≡ line.old.kit }
    ensures entries { line.new.entries ≡ line.old.entries }
{
    let prepared = match line.prepare_known(pos, bytes, known) {
        Ok(prepared) => prepared,
        Err(Refusal::Memory) => return Err(AcceptFault::Memory),
        Err(refusal) => return Err(AcceptFault::Refused(refusal)),
    };
    if own.journal().len() >= MAX_EVENTS {
        drop(prepared);
        return Err(AcceptFault::JournalFull);
    }
    Ok(prepared)
}
