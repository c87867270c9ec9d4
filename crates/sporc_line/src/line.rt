//! A history as one member reads it.

ghost use Rattle.std.specs.Prelude.{◌≡◌, ◌-◌, ◌≤◌, [], length, take, map, slice_get, Some, IfOk};
ghost use Rattle.std.specs.Prelude.{drop, is_none, option_copied, IsTrue, ◌↔◌};
ghost use Rattle.std.specs.String.{string_bytes};
ghost use Rattle.std.specs.Str.{chars, encode_utf8_all};
ghost use Rattle.std.specs.FinMap as map;
ghost use Rattle.std.specs.List.{All};
ghost use Rattle.sporc_base.specs.FirstFault.{AnswersUnless, first_of};
ghost use Rattle.sporc_hash.specs.Chain.{chain, commitment_of};
ghost use Rattle.sporc_suffix.specs.Compositions.{composed};
ghost use Rattle.sporc_entry.specs.declared.limits.TheConstants.{MAX_ENTRY};
ghost use Rattle.sporc_entry.specs.Genesis.{genesis_bytes, IsGenesis};
ghost use Rattle.sporc_epoch.specs.Keys.{pairs_in};
ghost use Rattle.sporc_head.specs.declared.limits.TheConstants.{MAX_ENTRIES};
ghost use Rattle.sporc_head.specs.Examined.{key_for};
ghost use Rattle.sporc_head.specs.History.{epoch_of, hash_of, is_removed, roster_of};
ghost use Rattle.sporc_line.specs.Kit.{kit_of};
ghost use Rattle.sporc_line.specs.Keys.{epoch_key};
ghost use Rattle.sporc_line.specs.Document.{forms_of, text_of};
ghost use Rattle.sporc_line.specs.Good.{Good};
ghost use Rattle.sporc_line.specs.Openings.{open_checks};
ghost use Rattle.sporc_line.specs.declared.limits.TheConstants.{MAX_COMMITTED_LEN};

mod accepting;

use crate::fault::LineOpenFault;
use crate::kit::MemberKit;
use crate::opening::opening_key;
use crate::prepared::Prepared;
use sporc_base::Memory;
use sporc_delta::Delta;
use sporc_entry::Genesis;
use sporc_epoch::{Pairs, Ring};
use sporc_hash::Digest32;
use sporc_head::{Checked, Heads, Refusal};
use sporc_member::Device;
use sporc_suffix::Blocks;
use sporc_text::Doc;
use std::alloc::Global;
use std::marker::Model;

/// A history as one member reads it: the entries that it accepted, with their forms, the text and
/// the key of the last epoch.
///
/// Contracts see the document's genesis, what the member was given, the entries, and `spare`: how
/// many more entries take no memory.
#[derive(Drop)]
pub struct Line {
    alloc: Global,
    heads: Heads,
    kit: MemberKit,
    // The key of the last epoch, unless the member was removed or the device dropped.
    key: Option<[u8; 32]>,
    forms: Blocks,
    text: Doc,
}

impl Model for Line {
    ghost use Rattle.sporc_line.specs.LineModel.{LineModel};
    ghost use Rattle.sporc_line.specs.Codes.{line_code};

    ghost Value = { LineModel };

    ghost coded = { line_code };

    ghost use Rattle.sporc_line.specs.LineFields.{model_of, invariant_of};

    ghost view = { model_of };

    ghost invariant = { invariant_of };
}

impl Line {
    /// The empty history of a document for a device of a member, by both numbers, a ring with the
    /// key of epoch 0 or a joiner's hints, and the member's pairwise keys.
    pub fn open(
        alloc: Global,
        genesis: Genesis,
        me: u16,
        device: u8,
        ring: Ring,
        pairs: Pairs,
    ) -> Result<Line, LineOpenFault>
        requires { IsGenesis genesis }
        ensures fault { AnswersUnless LineOpenFault.Memory result
            (first_of (open_checks genesis (map.get ring.keys 0))) }
        ensures genesis { IfOk result (λ line. line.genesis ≡ genesis) }
        ensures kit { IfOk result (λ line. line.kit
            ≡ kit_of (record { member = me; number = device }) ring.keys (pairs_in pairs)) }
        ensures empty { IfOk result (λ line. line.entries ≡ []) }
    {
        let me = Device {
            member: me,
            number: device,
        };
        let kit = MemberKit::new(me, ring, pairs);
        let key = opening_key(&genesis, kit.hint(0))?;
        let line = Line::empty(alloc, genesis, kit, key)?;
        Ok(line)
    }

    // The empty history of a document for a member that holds this key of epoch 0.
    fn empty(alloc: Global, genesis: Genesis, kit: MemberKit, key: [u8; 32]) -> Result<Line, Memory>
        requires genesis { IsGenesis genesis }
        requires holds { map.get kit.ring 0 ≡ Some key }
        requires meets { commitment_of genesis.document 0 key ≡ genesis.commitment }
        ensures genesis { IfOk result (λ line. line.genesis ≡ genesis) }
        ensures kit { IfOk result (λ line. line.kit ≡ kit) }
        ensures empty { IfOk result (λ line. line.entries ≡ []) }
    {
        let heads = Heads::open(alloc, genesis)?;
        let forms = Blocks::new(alloc, 0)?;
        Ok(Line {
            alloc,
            heads,
            kit,
            key: Some(key),
            forms,
            text: Doc::new(alloc),
        })
    }

    /// The empty history of the same document for the same member, with what it was given at the
    /// opening.
    pub fn reopen(&self) -> Result<Line, Memory>
        ensures genesis { IfOk result (λ line. line.genesis ≡ self.now.genesis) }
        ensures kit { IfOk result (λ line. line.kit ≡ self.now.kit) }
        ensures empty { IfOk result (λ line. line.entries ≡ []) }
    {
        let genesis = self.heads.genesis().copy()?;
        let kit = self.kit.copy()?;
        match kit.hint(0) {
            Some(key) => Line::empty(self.alloc, genesis, kit, key),
            None => unreachable!(),
        }
    }

    // Where memory is taken from.
    fn allocator(&self) -> Global {
        self.alloc
    }

    // What the member was given.
    fn kit(&self) -> &MemberKit
        ensures value { result.now ≡ self.now.kit }
    {
        &self.kit
    }

    /// How many entries there are, at most [`MAX_ENTRIES`](sporc_head::MAX_ENTRIES).
    pub fn len(&self) -> u32
        ensures value { result ≡ length self.now.entries }
        ensures within { result ≤ MAX_ENTRIES }
        // The history is one that the member accepted, entry by entry.
        ensures good { Good self.now.genesis self.now.kit self.now.entries }
    {
        self.heads.len()
    }

    /// Whether there are none.
    pub fn is_empty(&self) -> bool
        ensures value { IsTrue result ↔ (length self.now.entries ≡ 0) }
    {
        self.heads.is_empty()
    }

    /// The value of the chain after the last entry.
    pub fn hash(&self) -> Digest32
        ensures value { result ≡ hash_of self.now.genesis self.now.entries }
    {
        self.heads.hash_at(self.heads.len())
    }

    /// The form of the entry at position `i`, from 1 on.
    pub fn form(&self, i: u32) -> &Delta
        requires positive { 1 ≤ i }
        requires in_bounds { i ≤ length self.now.entries }
        ensures value { slice_get (forms_of self.now.genesis self.now.kit self.now.entries) (i - 1)
            ≡ Some result.now }
    {
        self.forms.form(i - 1)
    }

    /// The forms of all entries after the first `from`, in one delta: it leads from the text after
    /// these to the text.
    pub fn composed(&self, from: u32) -> Result<Delta, Memory>
        requires { from ≤ length self.now.entries }
        ensures ok { IfOk result (λ d. d ≡ composed
            (length (text_of self.now.genesis self.now.kit (take from self.now.entries)))
            (drop from (forms_of self.now.genesis self.now.kit self.now.entries))) }
    {
        self.forms.composed(from)
    }

    /// How many characters the text had after `i` entries.
    pub fn text_len_at(&self, i: u32) -> u64
        requires { i ≤ length self.now.entries }
        ensures value { result
            ≡ length (text_of self.now.genesis self.now.kit (take i self.now.entries)) }
        ensures within { result ≤ MAX_COMMITTED_LEN }
    {
        if i == self.heads.len() {
            self.text.len()
        } else {
            self.forms.form(i).base_len()
        }
    }

    /// The bytes of the entries, oldest first.
    pub fn entries(&self) -> &[Vec<u8>]
        ensures value { map (λ v. v.items) result.now ≡ self.now.entries }
        ensures within { All (λ bytes. length bytes ≤ MAX_ENTRY) self.now.entries }
    {
        self.heads.entries()
    }

    /// The values of the chain after 0, 1, .. and all entries.
    pub fn hashes(&self) -> &[Digest32]
        ensures value { result.now ≡ chain (genesis_bytes self.now.genesis) self.now.entries }
    {
        self.heads.hashes()
    }

    /// Whether a change removed the member, or dropped the device.
    pub fn removed(&self) -> bool
        ensures value { result ≡ is_removed self.now.kit.me self.now.entries }
    {
        self.heads.is_removed(self.kit.me())
    }

    /// The history with what its checks look up.
    pub fn heads(&self) -> &Heads
        ensures genesis { result.now.genesis ≡ self.now.genesis }
        ensures entries { result.now.entries ≡ self.now.entries }
    {
        &self.heads
    }

    /// The key under which the check of an entry's signature verifies it at this line: that of its
    /// author's device. None exactly if the bytes are no entry, or its author has no such live
    /// device. It takes no memory.
    pub fn key_for(&self, entry: &[u8]) -> Option<[u8; 56]>
        ensures value { result ≡ key_for (roster_of self.now.genesis self.now.entries) entry.now }
    {
        self.heads.key_for(entry)
    }

    /// The member's number.
    pub fn me(&self) -> u16
        ensures value { result ≡ self.now.kit.me.member }
    {
        self.kit.me().member
    }

    /// The number of the member's device.
    pub fn device(&self) -> u8
        ensures value { result ≡ self.now.kit.me.number }
    {
        self.kit.me().number
    }

    /// Which device it is, as one value.
    pub fn own_device(&self) -> Device
        ensures value { result ≡ self.now.kit.me }
    {
        self.kit.me()
    }

    /// The document's number.
    pub fn document(&self) -> &[u8; 16]
        ensures value { result.now ≡ self.now.genesis.document }
    {
        &self.heads.genesis().document
    }

    /// The pairwise keys.
    pub fn pairs(&self) -> &Pairs
        ensures value { pairs_in result.now ≡ self.now.kit.pairs }
    {
        self.kit.pairs()
    }

    /// The key of the last epoch. None if the member was removed or the device dropped.
    pub fn key(&self) -> Option<&[u8; 32]>
        ensures value { option_copied result
            ≡ epoch_key self.now.genesis self.now.kit self.now.entries (epoch_of self.now.entries) }
        ensures none { is_none result ≡ is_removed self.now.kit.me self.now.entries }
    {
        self.key.as_ref()
    }

    /// The committed text.
    pub fn doc(&self) -> &Doc
        ensures value { result.now ≡ text_of self.now.genesis self.now.kit self.now.entries }
    {
        &self.text
    }

    /// The committed text as UTF-8.
    pub fn text(&self) -> Result<String, Memory>
        ensures ok { IfOk result (λ t. string_bytes t
            ≡ encode_utf8_all (text_of self.now.genesis self.now.kit self.now.entries)) }
        ensures characters { IfOk result
            (λ t. chars (string_bytes t) ≡ text_of self.now.genesis self.now.kit self.now.entries) }
        ensures within { length (text_of self.now.genesis self.now.kit self.now.entries)
            ≤ MAX_COMMITTED_LEN }
    {
        self.text.text()
    }
}
