//! Entries that were checked.

ghost use Rattle.std.specs.Prelude.{◌≡◌, ◌≤◌, ◌+◌, length, take, drop, IfOk};
ghost use Rattle.std.specs.Option.{option_copied};
ghost use Rattle.sporc_entry.specs.Entry.{change_of};
ghost use Rattle.sporc_head.specs.History.{member_change_of};

use sporc_base::{Bytes, Memory};
use sporc_entry::{ChangeBody, EntryView, Header, body_at};
use sporc_hash::Digest32;
use sporc_member::Change;
use std::alloc::Global;
use std::marker::Model;

/// An entry that was checked at a history, with the value of the chain after it. It holds the
/// entry's bytes once: its body is a slice of them.
///
/// Contracts see the entry, its bytes and that value.
#[derive(Drop)]
pub struct Checked {
    header: Header,
    body_len: usize,
    change: Option<ChangeBody>,
    bytes: Bytes,
    hash: Digest32,
}

impl Model for Checked {
    ghost use Rattle.sporc_head.specs.CheckedModel.{CheckedModel, model_of, invariant_of};

    ghost Value = { CheckedModel };

    ghost view = { model_of };

    ghost invariant = { invariant_of };
}

impl Checked {
    // An entry whose bytes are copied, with the value of the chain after it.
    pub(crate) fn copied(
        alloc: Global,
        view: EntryView<'_>,
        hash: Digest32,
    ) -> Result<Checked, Memory>
        ensures entry { IfOk result (λ checked. checked.entry ≡ view.entry.entry) }
        ensures bytes { IfOk result (λ checked. checked.bytes ≡ view.entry.bytes) }
        ensures hash { IfOk result (λ checked. checked.hash ≡ hash) }
    {
        let header = *view.header();
        let body_len = view.body().len();
        let bytes = Bytes::copy_of(alloc, view.bytes())?;
        let change = view.into_change();
        Ok(Checked {
            header,
            body_len,
            change,
            bytes,
            hash,
        })
    }

    /// What stands before the body.
    pub fn header(&self) -> &Header
        ensures value { result.now ≡ self.now.entry.header }
    {
        &self.header
    }

    /// The body: of an edit a masked delta, of a change its bytes.
    pub fn body(&self) -> &[u8]
        ensures value { result.now ≡ self.now.entry.body }
    {
        part_of(
            self.bytes.as_slice(),
            body_at(self.header.version),
            self.body_len,
        )
    }

    /// What it changes, if it is a change.
    pub fn change(&self) -> Option<&ChangeBody>
        ensures value { option_copied result ≡ change_of self.now.entry }
    {
        self.change.as_ref()
    }

    // What it does to the members, if it is a change.
    pub(crate) fn member_change(&self) -> Option<Change>
        ensures { result ≡ member_change_of self.now.entry }
    {
        self.change.as_ref().map(|body| body.change)
    }

    /// The bytes of the entry.
    pub fn bytes(&self) -> &[u8]
        ensures value { result.now ≡ self.now.bytes }
    {
        self.bytes.as_slice()
    }

    /// The value of the chain after it.
    pub fn hash(&self) -> &Digest32
        ensures value { result.now ≡ self.now.hash }
    {
        &self.hash
    }

    // Its bytes, moved out.
    pub(crate) fn into_bytes(self) -> Bytes
        ensures { result ≡ self.bytes }
    {
        self.bytes
    }
}

// So many bytes from a place on.
fn part_of(bytes: &[u8], place: usize, len: usize) -> &[u8]
    requires { place + len ≤ length bytes.now }
    ensures { result.now ≡ take len (drop place bytes.now) }
{
    &bytes[place..place + len]
}
