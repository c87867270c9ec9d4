//! A history, with what its checks look up.

ghost use Rattle.std.specs.Prelude.{◌≡◌, ◌+◌, ◌<◌, ◌≤◌, ◌∷◌, ◌++◌, [], length, take, map, Option};
ghost use Rattle.std.specs.Prelude.{option_map, None, Some, IfOk, IfErr, IfSome, OnOk, OnErr, IsOk};
ghost use Rattle.std.specs.Prelude.{IsTrue, ◌↔◌};
ghost use Rattle.std.specs.List.{All};
ghost use Rattle.sporc_base.specs.FirstFault.{Answers, AnswersUnless, first_of};
ghost use Rattle.sporc_hash.specs.Chain.{chain, next_value};
ghost use Rattle.sporc_entry.specs.Genesis.{IsGenesis, genesis_bytes};
ghost use Rattle.sporc_entry.specs.declared.limits.TheConstants.{MAX_ENTRY};
ghost use Rattle.sporc_member.specs.Roster.{member_at, key_of};
ghost use Rattle.sporc_entry.specs.Entry.{author_device};
ghost use Rattle.sporc_head.specs.History.{member_change_of, roster_of, barrier_of, epoch_of};
ghost use Rattle.sporc_head.specs.History.{count_of, last_of, hash_of, is_removed};
ghost use Rattle.sporc_head.specs.HeadChecks.{device_of_pair, place_checks, history_checks};
ghost use Rattle.sporc_head.specs.HeadChecks.{head_checks, head_fault, is_not_removed};
ghost use Rattle.sporc_head.specs.Examined.{IsExact, IsExactOf, key_for};
ghost use Rattle.sporc_head.specs.declared.limits.TheConstants.{MAX_ENTRIES};
ghost use Rattle.sporc_head.specs.IsChecked.{IsChecked};

use crate::authors::{Author, check_author};
use crate::changes::check_change;
use crate::checked::Checked;
use crate::examined::{Examined, Verdict};
use crate::limits::MAX_ENTRIES;
use crate::refusal::Refusal;
use crate::tables::{Tables, Tally, is_gone, record_entry, record_removal, tally_of};
use sporc_base::{Memory, is_same};
use sporc_entry::{EntryView, Genesis, Header, header_in, version_of, write_genesis};
use sporc_hash::{Digest32, genesis_hash, link_hash, next_hash};
use sporc_member::{Change, Device, Roster};
use std::alloc::Global;
use std::marker::Model;

/// A history: a document's genesis and the bytes of its entries, with what the checks of the next
/// entry look up.
///
/// Contracts see the genesis, the entries, and `spare`: how many entries it takes without memory.
#[derive(Drop)]
pub struct Heads {
    genesis: Genesis,
    entries: Vec<Vec<u8>>,
    hashes: Vec<Digest32>,
    roster: Roster,
    barrier: u32,
    epoch: u32,
    tables: Tables,
}

impl Model for Heads {
    ghost use Rattle.sporc_head.specs.HeadsModel.{HeadsModel, model_of, invariant_of};

    ghost Value = { HeadsModel };

    ghost view = { model_of };

    ghost invariant = { invariant_of };
}

impl Heads {
    /// The empty history of a document.
    pub fn open(alloc: Global, genesis: Genesis) -> Result<Heads, Memory>
        requires { IsGenesis genesis }
        ensures genesis { IfOk result (λ heads. heads.genesis ≡ genesis) }
        ensures empty { IfOk result (λ heads. heads.entries ≡ []) }
    {
        let bytes = write_genesis(alloc, &genesis)?;
        let hashes = vec![in alloc; genesis_hash(bytes.as_slice())]?;
        let roster = Roster::found(alloc, genesis.founders.as_slice())?;
        let tables = Tables::new(alloc);
        Ok(Heads {
            genesis,
            entries: Vec::new(alloc),
            hashes,
            roster,
            barrier: 0,
            epoch: 0,
            tables,
        })
    }

    /// What the document begins with.
    pub fn genesis(&self) -> &Genesis
        ensures value { result.now ≡ self.now.genesis }
        ensures is_genesis { IsGenesis result.now }
    {
        &self.genesis
    }

    /// How many entries there are, at most [`MAX_ENTRIES`](crate::MAX_ENTRIES).
    pub fn len(&self) -> u32
        ensures value { result ≡ length self.now.entries }
        ensures within { result ≤ MAX_ENTRIES }
    {
        self.entries.len() as u32
    }

    /// Whether there are none.
    pub fn is_empty(&self) -> bool
        ensures value { IsTrue result ↔ (length self.now.entries ≡ 0) }
    {
        self.len() == 0
    }

    /// The bytes of the entries, oldest first.
    pub fn entries(&self) -> &[Vec<u8>]
        ensures value { map (λ v. v.items) result.now ≡ self.now.entries }
        ensures within { length result.now ≤ MAX_ENTRIES }
        ensures each_within { All (λ bytes. length bytes ≤ MAX_ENTRY) self.now.entries }
    {
        self.entries.as_slice()
    }

    /// The values of the chain after 0, 1, .. and all entries.
    pub fn hashes(&self) -> &[Digest32]
        ensures value { result.now ≡ chain (genesis_bytes self.now.genesis) self.now.entries }
    {
        self.hashes.as_slice()
    }

    /// The value of the chain after `i` entries.
    pub fn hash_at(&self, i: u32) -> Digest32
        requires { i ≤ length self.now.entries }
        ensures value { result ≡ hash_of self.now.genesis (take i self.now.entries) }
    {
        self.hashes[i as usize]
    }

    /// The members after the last entry.
    pub fn roster(&self) -> &Roster
        ensures value { result.now.roster ≡ roster_of self.now.genesis self.now.entries }
    {
        &self.roster
    }

    /// The position of the last change, 0 if there is none.
    pub fn barrier(&self) -> u32
        ensures value { result ≡ barrier_of self.now.entries }
    {
        self.barrier
    }

    /// How many changes there are.
    pub fn epoch(&self) -> u32
        ensures value { result ≡ epoch_of self.now.entries }
    {
        self.epoch
    }

    // How many entries a device has, and where its last one stands.
    fn tally(&self, device: Device) -> Tally
        ensures total { result.count ≡ count_of device self.now.entries }
        ensures last { result.last ≡ last_of device self.now.entries }
    {
        tally_of(&self.tables.tallies, device)
    }

    /// How many entries an author's device has.
    #[tactic(auto, using(crate::proofs::Grows::count_le))]
    pub fn count_of(&self, author: u16, device: u8) -> u32
        ensures value { result
            ≡ count_of (record { member = author; number = device }) self.now.entries }
        ensures within { result ≤ length self.now.entries }
    {
        let device = Device {
            member: author,
            number: device,
        };
        self.tally(device).count
    }

    /// The position of the last entry of an author's device, 0 if there is none.
    pub fn last_of(&self, author: u16, device: u8) -> u32
        ensures value { result
            ≡ last_of (record { member = author; number = device }) self.now.entries }
    {
        let device = Device {
            member: author,
            number: device,
        };
        self.tally(device).last
    }

    /// Whether a change removed this device's member, or dropped the device.
    pub fn is_removed(&self, device: Device) -> bool
        ensures value { result ≡ is_removed device self.now.entries }
    {
        is_gone(self.tables.removals.as_slice(), device)
    }

    /// Takes the memory of one entry: the next `push` takes none.
    pub fn reserve(&mut self) -> Result<(), Memory>
        ensures genesis { self.new.genesis ≡ self.old.genesis }
        ensures entries { self.new.entries ≡ self.old.entries }
        ensures ok { OnOk result (1 ≤ self.new.spare) }
        ensures ready { 1 ≤ self.old.spare → IsOk result }
    {
        self.entries.reserve(1)?;
        self.hashes.reserve(1)?;
        self.roster.reserve()?;
        self.tables.reserve()
    }

    /// Appends an entry that was checked at this history. It takes no memory where `spare` is at
    /// least 1.
    pub fn push(&mut self, checked: Checked) -> Result<(), (Checked, Memory)>
        requires { IsChecked self.old.genesis self.old.entries checked }
        ensures genesis { self.new.genesis ≡ self.old.genesis }
        ensures ok { OnOk result (self.new.entries ≡ self.old.entries ++ checked.bytes ∷ []) }
        ensures memory { OnErr result (self.new.entries ≡ self.old.entries) }
        ensures returned { IfErr result (λ e. e.0 ≡ checked) }
        ensures ready { 1 ≤ self.old.spare → IsOk result }
    {
        if let Err(memory) = self.reserve() {
            return Err((checked, memory));
        }
        match checked.member_change() {
            Some(change) => self.put_change(change, checked),
            None => self.put_edit(checked),
        }
        Ok(())
    }

    // Appends an edit that was checked at this history.
    fn put_edit(&mut self, checked: Checked)
        requires room { 1 ≤ self.old.spare }
        requires checked { IsChecked self.old.genesis self.old.entries checked }
        requires edit { member_change_of checked.entry ≡ None }
        ensures genesis { self.new.genesis ≡ self.old.genesis }
        ensures entries { self.new.entries ≡ self.old.entries ++ checked.bytes ∷ [] }
    {
        let position = self.entries.len() as u32 + 1;
        record_entry(
            &mut self.tables.tallies,
            checked.header().author_device(),
            position,
        );
        self.hashes.push_reserved(*checked.hash());
        self.entries.push_reserved(checked.into_bytes().into_vec());
    }

    // Appends a change that was checked at this history.
    fn put_change(&mut self, change: Change, checked: Checked)
        requires room { 1 ≤ self.old.spare }
        requires checked { IsChecked self.old.genesis self.old.entries checked }
        requires change { member_change_of checked.entry ≡ Some change }
        ensures genesis { self.new.genesis ≡ self.old.genesis }
        ensures entries { self.new.entries ≡ self.old.entries ++ checked.bytes ∷ [] }
    {
        let position = self.entries.len() as u32 + 1;
        record_entry(
            &mut self.tables.tallies,
            checked.header().author_device(),
            position,
        );
        record_removal(&mut self.tables.removals, &change);
        self.barrier = position;
        self.epoch += 1;
        let _ = self.roster.make(&change);
        self.hashes.push_reserved(*checked.hash());
        self.entries.push_reserved(checked.into_bytes().into_vec());
    }

    /// The key under which the check of an entry's signature verifies it at this history: that of
    /// its author's device. None exactly if the bytes are no entry, or its author has no such live
    /// device. It takes no memory.
    #[tactic(auto, unfolding(crate::specs::Examined::key_for))]
    pub fn key_for(&self, entry: &[u8]) -> Option<[u8; 56]>
        ensures value { result ≡ key_for (roster_of self.now.genesis self.now.entries) entry.now }
    {
        match header_in(entry) {
            Some(header) => self.roster().key(header.author, header.device).copied(),
            None => None,
        }
    }

    /// The checks of an entry that is to stand at a position. `me` is a member and its device;
    /// without it it isn't asked whether the history removes them.
    pub fn check(&self, me: Option<(u16, u8)>, pos: u32, bytes: &[u8]) -> Result<Checked, Refusal>
        ensures fault { AnswersUnless Refusal.Memory result (head_fault self.now.genesis
            (option_map device_of_pair me) self.now.entries pos bytes.now) }
        ensures checked { IfOk result (IsChecked self.now.genesis self.now.entries) }
        ensures bytes { IfOk result (λ checked. checked.bytes ≡ bytes.now) }
    {
        self.check_known(me.map(device_of_pair), pos, bytes, None)
    }

    /// The checks of an entry whose signature was examined. It is verified anew if the key isn't
    /// that of its author's device at this history.
    pub fn check_examined(
        &self,
        me: Option<(u16, u8)>,
        pos: u32,
        examined: &Examined,
    ) -> Result<Checked, Refusal>
        ensures fault { AnswersUnless Refusal.Memory result (head_fault self.now.genesis
            (option_map device_of_pair me) self.now.entries pos examined.now.entry) }
        ensures checked { IfOk result (IsChecked self.now.genesis self.now.entries) }
        ensures bytes { IfOk result (λ checked. checked.bytes ≡ examined.now.entry) }
    {
        self.check_known(
            me.map(device_of_pair),
            pos,
            examined.entry(),
            Some(examined.known()),
        )
    }

    /// The checks of an entry's bytes, of which a verdict may be known.
    #[tactic(auto, unfolding(crate::specs::HeadChecks::head_fault))]
    pub fn check_known(
        &self,
        me: Option<Device>,
        pos: u32,
        bytes: &[u8],
        known: Option<&Verdict>,
    ) -> Result<Checked, Refusal>
        requires exact { IfSome known (λ v. IsExact v.now bytes.now) }
        ensures fault { AnswersUnless Refusal.Memory result
            (head_fault self.now.genesis me self.now.entries pos bytes.now) }
        ensures checked { IfOk result (IsChecked self.now.genesis self.now.entries) }
        ensures bytes { IfOk result (λ checked. checked.bytes ≡ bytes.now) }
    {
        let alloc = *self.hashes.allocator();
        let view = EntryView::read(alloc, bytes)?;
        self.check_entry(alloc, me, pos, &view, known)?;
        let hash = self.hash_after(bytes, known);
        let checked = Checked::copied(alloc, view, hash)?;
        Ok(checked)
    }

    // The value of the chain after an entry of these bytes, as the next one. A digest that is known
    // is not made anew.
    fn hash_after(&self, bytes: &[u8], known: Option<&Verdict>) -> Digest32
        requires exact { IfSome known (λ v. IsExact v.now bytes.now) }
        ensures value { result ≡ next_value (hash_of self.now.genesis self.now.entries) bytes.now }
    {
        let before = self.hash_at(self.len());
        match known {
            Some(verdict) => link_hash(&before, &verdict.digest),
            None => next_hash(&before, bytes),
        }
    }

    // The checks of an entry.
    #[tactic(auto, unfolding(crate::specs::HeadChecks::head_checks))]
    fn check_entry(
        &self,
        alloc: Global,
        me: Option<Device>,
        pos: u32,
        view: &EntryView<'_>,
        known: Option<&Verdict>,
    ) -> Result<(), Refusal>
        requires exact { IfSome known (λ v. IsExactOf v.now view.now.entry) }
        ensures { AnswersUnless Refusal.Memory result
            (first_of (head_checks self.now.genesis me self.now.entries pos view.now.entry)) }
    {
        self.check_place(me, pos, view.header())?;
        let author = self.check_history(view.header())?;
        check_author(&author, view, known)?;
        if let Some(body) = view.change() {
            check_change(alloc, self.roster(), body)?;
        }
        Ok(())
    }

    // The checks of where an entry is to stand.
    fn check_place(&self, me: Option<Device>, pos: u32, header: &Header) -> Result<(), Refusal>
        ensures { Answers result
            (first_of (place_checks self.now.genesis me self.now.entries pos header.now)) }
    {
        if !is_same(&header.document, &self.genesis().document) {
            return Err(Refusal::WrongDocument);
        }
        if pos != self.len() + 1 {
            return Err(Refusal::WrongPosition);
        }
        if !self.is_not_removed(me) {
            return Err(Refusal::Removed);
        }
        Ok(())
    }

    // The checks of what an entry says of the history before it, and its author.
    fn check_history(&self, header: &Header) -> Result<Author, Refusal>
        ensures fault { Answers result
            (first_of (history_checks self.now.genesis self.now.entries header.now)) }
        ensures member { IfOk result (λ author. Some author.member
            ≡ member_at (roster_of self.now.genesis self.now.entries) header.now.author) }
        ensures key { IfOk result (λ author. Some author.key
            ≡ key_of (roster_of self.now.genesis self.now.entries) (author_device header.now)) }
    {
        let len = self.len();
        if len >= MAX_ENTRIES {
            return Err(Refusal::HistoryFull);
        }
        let roster = self.roster();
        if header.version != version_of(roster.upgraded()) {
            return Err(Refusal::WrongVersion);
        }
        let Some(member) = roster.member(header.author) else {
            return Err(Refusal::UnknownAuthor);
        };
        let Some(key) = roster.key(header.author, header.device) else {
            return Err(Refusal::UnknownDevice);
        };
        if header.base > len {
            return Err(Refusal::BaseAhead);
        }
        if header.base < self.barrier() {
            return Err(Refusal::BeforeBarrier);
        }
        if !is_same(&header.base_hash, &self.hash_at(header.base)) {
            return Err(Refusal::WrongHistory);
        }
        if header.number != self.count_of(header.author, header.device) + 1 {
            return Err(Refusal::WrongNumber);
        }
        if header.base < self.last_of(header.author, header.device) {
            return Err(Refusal::BehindOwn);
        }
        if header.epoch != self.epoch() {
            return Err(Refusal::WrongEpoch);
        }
        Ok(Author {
            member: *member,
            key: *key,
        })
    }

    // Whether no device is given, or the history removes neither it nor its member.
    fn is_not_removed(&self, me: Option<Device>) -> bool
        ensures { result ≡ is_not_removed me self.now.entries }
    {
        match me {
            Some(me) => !self.is_removed(me),
            None => true,
        }
    }
}

// The device that a pair of its member's number and its own is of.
fn device_of_pair(device: (u16, u8)) -> Device
    ensures value { result ≡ device_of_pair device }
{
    let (member, number) = device;
    Device { member, number }
}
