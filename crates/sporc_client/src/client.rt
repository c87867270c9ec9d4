//! A client of a member's device.

ghost use Rattle.std.specs.Prelude.{◌≡◌, ◌≢◌, ◌+◌, ◌<◌, ◌≤◌, ◌∷◌, ◌++◌, [], map as map_, drop};
ghost use Rattle.std.specs.Prelude.{take, length, true, None, Some, IfOk, IfErr, OnOk, OnErr};
ghost use Rattle.std.specs.Prelude.{option_copied, slice_get};
ghost use Rattle.std.specs.FinMap as map;
ghost use Rattle.sporc_outside.specs.LeafDisk.{disk_images};
ghost use Rattle.sporc_hash.specs.Chain.{chain};
ghost use Rattle.sporc_entry.specs.Genesis.{IsGenesis, genesis_bytes};
ghost use Rattle.sporc_epoch.specs.Keys.{pairs_in};
ghost use Rattle.sporc_line.specs.Good.{Good};
ghost use Rattle.sporc_line.specs.Kit.{kit_of};
ghost use Rattle.sporc_line.specs.Openings.{open_checks};
ghost use Rattle.sporc_base.specs.FirstFault.{Answers, AnswersUnless, first_of};
ghost use Rattle.sporc_client.specs.declared.limits.TheConstants.{MAX_EVENTS, MAX_PENDING};
ghost use Rattle.sporc_client.specs.Log.{Edit as Edited, Change as Changed, journal_of};
ghost use Rattle.sporc_client.specs.Answers.{added, change_checks, change_fault, edit_checks};
ghost use Rattle.sporc_client.specs.Answers.{edit_fault, has_right, is_out, room_checks};
ghost use Rattle.sporc_head.specs.Examined.{key_for};
ghost use Rattle.sporc_head.specs.History.{roster_of};
ghost use Rattle.lms_leaf.specs.LeafFile.{ArePassed, AreTaken};
ghost use Rattle.sporc_delta.specs.Marks.{base_len, inserted_len};
ghost use Rattle.sporc_delta.specs.declared.limits.TheConstants.{MAX_TEXT_LEN};
ghost use Rattle.sporc_suffix.specs.Forms.{Follow, all_inserted, later_over, reached};
ghost use Rattle.sporc_client.specs.Allowed.{is_allowed};
ghost use Rattle.sporc_client.specs.Pending.{pending_marks};
ghost use Rattle.sporc_client.specs.Soundness.{IsSound};
ghost use Rattle.sporc_client.specs.ClientModel.{Rise, begun, first_leaf_of, leaves_of, state_of};
ghost use Rattle.sporc_client.specs.ClientModel.{with_events};
ghost use Rattle.sporc_client.specs.Workspace.{SameOwn};

mod accepting;
mod discarding;
mod restarting;
mod showing;
mod submitting;

use crate::event::Event;
use crate::fault::{ClientOpenFault, EditFault};
use crate::limits::{MAX_EDIT_BYTES, MAX_EVENTS, MAX_PENDING};
use crate::pending::Pending;
use crate::workspace::{Workspace, ready_keep};
use lms_sign::{KeptTicket, Signer};
use sporc_base::Memory;
use sporc_delta::Delta;
use sporc_entry::{CHANGE, EDIT, Genesis};
use sporc_epoch::{Pairs, Ring};
use sporc_hash::Digest32;
use sporc_head::{Heads, allows};
use sporc_line::{Line, LineOpenFault};
use sporc_member::{Change, Roster};
use sporc_outside::LeafDisk;
use std::alloc::Global;
use std::marker::Model;

/// A member's client of a shared text: a history, and the member's own edits and changes that are
/// not committed yet.
///
/// Contracts see what it was opened with, its log (the journal, with the bytes of each accepted
/// entry), its leaf numbers, and the leaf of a ticket that it keeps. All else follows from the log.
#[derive(Drop)]
pub struct Client<D: LeafDisk> {
    alloc: Global,
    line: Line,
    signer: Signer<D>,
    // A leaf that was drawn for a submission that ran out of memory.
    ticket: Option<KeptTicket>,
    own: Workspace,
}

impl<D: LeafDisk> Model for Client<D> {
    ghost use Rattle.sporc_client.specs.ClientModel.{ClientModel};
    ghost use Rattle.sporc_client.specs.Codes.{client_code};

    ghost Value = { ClientModel D };

    ghost coded = { client_code D.code };

    ghost use Rattle.sporc_client.specs.ClientInvariant.{client_model, ClientInvariant};

    ghost view = { λ c. client_model c.line c.signer c.ticket c.own };

    ghost invariant = { λ c. ClientInvariant c.line c.signer c.ticket c.own };
}

impl<D: LeafDisk> Client<D> {
    /// The client of a member's device with an empty history, by both numbers, a ring with the key
    /// of epoch 0 or a joiner's hints, its member's pairwise keys and its signer.
    pub fn open(
        alloc: Global,
        genesis: Genesis,
        me: u16,
        device: u8,
        ring: Ring,
        pairs: Pairs,
        signer: Signer<D>,
    ) -> Result<Client<D>, (ClientOpenFault, Signer<D>)>
        requires genesis { IsGenesis genesis }
        ensures ok { OnOk result (first_of (open_checks genesis (map.get ring.keys 0)) ≡ None) }
        ensures err { IfErr result (λ e. e.0 ≢ LineOpenFault.Memory
            → first_of (open_checks genesis (map.get ring.keys 0)) ≡ Some e.0) }
        ensures returned { IfErr result (λ e. e.1 ≡ signer) }
        ensures value { IfOk result (λ client. client ≡ begun genesis
            (kit_of (record { member = me; number = device }) ring.keys (pairs_in pairs)) []
            signer) }
    {
        // No draw: what the signer says here of its leaves is what the order of the client's leaves
        // rests on.
        let _next = signer.next_leaf();
        match opened(alloc, genesis, me, device, ring, pairs) {
            Ok((line, own)) => Ok(Client {
                alloc,
                line,
                signer,
                ticket: None,
                own,
            }),
            Err(fault) => Err((fault, signer)),
        }
    }

    /// The journal. Each of its events is one that the client's own calls make there; and what it
    /// shows is the committed text with the pending edits. Each of its submissions has a leaf of
    /// its own, of those drawn since the opening of the leaf file, and no crash makes the blocks of
    /// these free again. From the leaf that was next as the journal began, each one that was drawn
    /// signed one of its submissions, or is kept.
    pub fn journal(&self) -> &[Event]
        ensures value { result.now ≡ journal_of self.now.log }
        ensures allowed { is_allowed self.now.opening self.now.log ≡ true }
        ensures sound { IsSound (state_of self.now) }
        ensures leaves { Rise self.now.leaves.next_at_open self.now.leaves.next
            (leaves_of self.now.log) }
        ensures drawn { Rise (first_leaf_of self.now) self.now.leaves.next
            (leaves_of self.now.log) }
        ensures since_open { self.now.leaves.next_at_open ≤ first_leaf_of self.now }
        ensures taken { AreTaken (disk_images (D.told self.now.leaves.disk))
            self.now.leaves.next_at_open self.now.leaves.next }
        ensures passed { ArePassed
            (disk_images (D.told self.now.leaves.disk)) self.now.leaves.next }
        ensures within { length result.now ≤ MAX_EVENTS }
    {
        let _taken = self.signer.next_leaf();
        self.own.journal()
    }

    /// The bytes of the entries, oldest first.
    pub fn entries(&self) -> &[Vec<u8>]
        ensures value { map_ (λ v. v.items) result.now ≡ (state_of self.now).entries }
    {
        self.line.entries()
    }

    /// The values of the chain after 0, 1, .. and all entries.
    pub fn hashes(&self) -> &[Digest32]
        ensures value { result.now
            ≡ chain (genesis_bytes self.now.opening.genesis) (state_of self.now).entries }
    {
        self.line.hashes()
    }

    /// The history as the member reads it.
    pub fn line(&self) -> &Line
        ensures genesis { result.now.genesis ≡ self.now.opening.genesis }
        ensures kit { result.now.kit ≡ self.now.opening.kit }
        ensures entries { result.now.entries ≡ (state_of self.now).entries }
    {
        &self.line
    }

    /// The history with what its checks look up.
    pub fn heads(&self) -> &Heads
        ensures genesis { result.now.genesis ≡ self.now.opening.genesis }
        ensures entries { result.now.entries ≡ (state_of self.now).entries }
    {
        self.line.heads()
    }

    /// The members after the last entry.
    pub fn roster(&self) -> &Roster
        ensures value { result.now.roster
            ≡ roster_of self.now.opening.genesis (state_of self.now).entries }
    {
        self.line.heads().roster()
    }

    /// The key under which the check of an entry's signature verifies it at this history: that of
    /// its author's device. None exactly if the bytes are no entry, or its author has no such live
    /// device. It takes no memory and makes no event.
    pub fn key_for(&self, entry: &[u8]) -> Option<[u8; 56]>
        ensures value { result
            ≡ key_for (roster_of self.now.opening.genesis (state_of self.now).entries) entry.now }
    {
        self.line.key_for(entry)
    }

    /// Whether a change removed the member, or dropped the device.
    pub fn removed(&self) -> bool
        ensures value { result ≡ is_out (state_of self.now) }
    {
        self.line.removed()
    }

    /// The member's number.
    pub fn me(&self) -> u16
        ensures value { result ≡ self.now.opening.kit.me.member }
    {
        self.line.me()
    }

    /// The number of the member's device.
    pub fn device(&self) -> u8
        ensures value { result ≡ self.now.opening.kit.me.number }
    {
        self.line.device()
    }

    /// The document's number.
    pub fn document(&self) -> &[u8; 16]
        ensures value { result.now ≡ self.now.opening.genesis.document }
    {
        self.line.document()
    }

    /// How many items are pending.
    pub fn pending(&self) -> u32
        ensures value { result ≡ length (state_of self.now).pending }
        ensures within { result ≤ MAX_PENDING }
    {
        self.own.pending().len() as u32
    }

    /// The delta of a pending edit, by its place among the pending items, stated on the committed
    /// text with the pending edits before it. None exactly if that item is a change, or there are
    /// no more than `i`.
    pub fn pending_delta(&self, i: u32) -> Option<&Delta>
        ensures value { option_copied result ≡ pending_marks (state_of self.now).pending i }
    {
        match self.own.pending().get(i as usize) {
            Some(Pending::Edit(delta)) => Some(delta),
            Some(Pending::Change(_)) | None => None,
        }
    }

    /// What an event of the journal did to the shown text, by its place there. None exactly if
    /// there are no more than `event`.
    pub fn shown_delta(&self, event: u64) -> Option<&Delta>
        ensures value { option_copied result ≡ slice_get (state_of self.now).shown event }
    {
        self.own.shown_delta(event)
    }

    /// The bytes of the entry on its way.
    pub fn flight(&self) -> Option<&[u8]>
        ensures value { option_copied result ≡ (state_of self.now).flight }
    {
        match self.own.flight() {
            Some(entry) => Some(entry.as_slice()),
            None => None,
        }
    }

    /// Gives the signer back, with its disk. A ticket that is kept is given up. On that disk the
    /// blocks of all leaves drawn since its opening are taken, and so those of the leaves of all
    /// submissions, each of which has one of its own. Whatever a crash leaves of it, a later
    /// opening goes on at the next leaf or above it.
    pub fn close(self) -> Signer<D>
        ensures value { result ≡ record { key = self.opening.key; leaves = self.leaves } }
        ensures leaves { Rise result.leaves.next_at_open result.leaves.next (leaves_of self.log) }
        ensures drawn { Rise (first_leaf_of self) result.leaves.next (leaves_of self.log) }
        ensures since_open { result.leaves.next_at_open ≤ first_leaf_of self }
        ensures taken { AreTaken (disk_images (D.told result.leaves.disk))
            result.leaves.next_at_open result.leaves.next }
        ensures passed { ArePassed (disk_images (D.told result.leaves.disk)) result.leaves.next }
    {
        let _taken = self.signer.next_leaf();
        let Client {
            line,
            signer,
            own,
            ..
        } = self;
        drop(line);
        drop(own);
        signer
    }

    /// Edits the text that was shown after `seen` events. The length of the journal.
    pub fn edit(&mut self, by: u32, seen: u64, delta: &Delta) -> Result<u64, EditFault>
        ensures fault { AnswersUnless EditFault.Memory result
            (edit_fault (state_of self.old) seen delta.now) }
        ensures ok { IfOk result (λ n. n ≡ length self.new.log) }
        ensures log { self.new ≡ with_events self.old (added result (Edited by seen delta.now)) }
    {
        check_edit(&self.line, &self.own, seen, delta)?;
        record_edit(&mut self.own, by, seen as u32, delta)?;
        Ok(self.own.journal().len() as u64)
    }

    /// Changes the members. The length of the journal.
    pub fn change(&mut self, by: u32, change: Change) -> Result<u64, EditFault>
        ensures fault { AnswersUnless EditFault.Memory result (change_fault (state_of self.old)) }
        ensures ok { IfOk result (λ n. n ≡ length self.new.log) }
        ensures log { self.new ≡ with_events self.old (added result (Changed by change)) }
    {
        check_change(&self.line, &self.own)?;
        let ready = ready_keep(self.alloc, &mut self.own)?;
        self.own.record_item(Event::Change { by, change }, ready, Pending::Change(change));
        Ok(self.own.journal().len() as u64)
    }
}

// An empty history, and nothing of one's own.
fn opened(
    alloc: Global,
    genesis: Genesis,
    me: u16,
    device: u8,
    ring: Ring,
    pairs: Pairs,
) -> Result<(Line, Workspace), LineOpenFault>
    requires { IsGenesis genesis }
    ensures fault { AnswersUnless LineOpenFault.Memory result
        (first_of (open_checks genesis (map.get ring.keys 0))) }
    ensures genesis { IfOk result (λ both. both.0.genesis ≡ genesis) }
    ensures kit { IfOk result (λ both. both.0.kit
        ≡ kit_of (record { member = me; number = device }) ring.keys (pairs_in pairs)) }
    ensures empty { IfOk result (λ both. both.0.entries ≡ []) }
    ensures good { IfOk result (λ both. Good both.0.genesis both.0.kit both.0.entries) }
    ensures pending { IfOk result (λ both. both.1.pending ≡ []) }
    ensures flight { IfOk result (λ both. both.1.flight ≡ None) }
    ensures shown { IfOk result (λ both. both.1.shown ≡ []) }
    ensures journal { IfOk result (λ both. both.1.journal ≡ []) }
{
    let line = Line::open(alloc, genesis, me, device, ring, pairs)?;
    let _good = line.len();
    match Workspace::new(alloc) {
        Ok(own) => Ok((line, own)),
        Err(memory) => {
            drop(line);
            Err(memory.into())
        }
    }
}

// Whether the device is live and its member has the right to entries of this kind.
pub(crate) fn has_right(line: &Line, kind: u8) -> bool
    ensures value { result ≡ has_right line.now kind }
{
    let roster = line.heads().roster();
    let me = line.own_device();
    match roster.role(me.member) {
        None => false,
        Some(role) => allows(role, kind) && roster.key(me.member, me.number).is_some(),
    }
}

// The checks of an edit.
fn check_edit(line: &Line, own: &Workspace, seen: u64, delta: &Delta) -> Result<(), EditFault>
    requires follow { Follow 0 own.now.shown }
    ensures fault { Answers result
        (first_of (edit_checks line.now own.now.pending own.now.shown seen delta.now)) }
{
    if line.removed() {
        return Err(EditFault::Removed);
    }
    if !has_right(line, EDIT) {
        return Err(EditFault::NoRight);
    }
    let events = own.journal().len() as u64;
    if seen > events {
        return Err(EditFault::SeenAhead(events));
    }
    if delta.base_len() != own.shown_len_at(seen as u32) {
        return Err(EditFault::WrongLength);
    }
    let bytes = delta.encoded_len();
    if bytes > MAX_EDIT_BYTES {
        return Err(EditFault::TooLong(bytes));
    }
    check_room(own)
}

// Records an edit of the text that was shown after `seen` events, restated on the text shown now.
fn record_edit(own: &mut Workspace, by: u32, seen: u32, delta: &Delta) -> Result<(), Memory>
    requires in_bounds { seen ≤ length own.old.shown }
    requires base { base_len delta.now ≡ reached 0 (take seen own.old.shown) }
    requires limit { base_len delta.now + inserted_len delta.now
        + all_inserted (drop seen own.old.shown) ≤ MAX_TEXT_LEN }
    requires restated { base_len (later_over delta.now (drop seen own.old.shown))
        ≡ reached 0 own.old.shown }
    requires events_limit { length own.old.shown < MAX_EVENTS }
    ensures pending { OnOk result (own.new.pending
        ≡ own.old.pending ++ Pending.Edit (later_over delta.now (drop seen own.old.shown)) ∷ []) }
    ensures flight { own.new.flight ≡ own.old.flight }
    ensures shown { OnOk result
        (own.new.shown ≡ own.old.shown ++ later_over delta.now (drop seen own.old.shown) ∷ []) }
    ensures journal { OnOk result
        (own.new.journal ≡ own.old.journal ++ Event.Edit by seen delta.now ∷ []) }
    ensures unchanged { OnErr result (SameOwn own.old own.new) }
{
    let restated = own.restated(delta, seen)?;
    let item = restated.copy()?;
    let stated = delta.copy()?;
    let ready = own.ready(restated)?;
    let event = Event::Edit {
        by,
        seen: u64::from(seen),
        delta: stated,
    };
    own.record_item(event, ready, Pending::Edit(item));
    Ok(())
}

// The checks of a change.
fn check_change(line: &Line, own: &Workspace) -> Result<(), EditFault>
    ensures fault { Answers result
        (first_of (change_checks line.now own.now.pending own.now.shown)) }
{
    if line.removed() {
        return Err(EditFault::Removed);
    }
    if !has_right(line, CHANGE) {
        return Err(EditFault::NoRight);
    }
    check_room(own)
}

// Whether one more item may be pending, and one more event be.
fn check_room(own: &Workspace) -> Result<(), EditFault>
    ensures fault { Answers result (first_of (room_checks own.now.pending own.now.shown)) }
{
    if own.pending().len() >= MAX_PENDING {
        return Err(EditFault::PendingFull);
    }
    if own.journal().len() >= MAX_EVENTS {
        return Err(EditFault::JournalFull);
    }
    Ok(())
}
