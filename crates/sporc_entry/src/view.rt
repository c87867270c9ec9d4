//! Entries read where their bytes stand.

ghost use Rattle.std.specs.Prelude.{◌≡◌, ◌≤◌, ◌<◌, ◌∷◌, length, Ok, IfOk, None};
ghost use Rattle.std.specs.Option.{option_copied};
ghost use Rattle.std.specs.Result.{result_ok};
ghost use Rattle.sporc_base.specs.Outcome.{GivesUnless};
ghost use Rattle.sporc_bytes.specs.Fields.{fault_as};
ghost use Rattle.sporc_entry.specs.ChangeBody.{change_body_from};
ghost use Rattle.sporc_entry.specs.declared.limits.TheConstants.{MAX_EDIT_BODY, MAX_ENTRY};
ghost use Rattle.sporc_entry.specs.Entry.{body_limit, body_read, entry_of, entry_bytes, change_of};
ghost use Rattle.sporc_entry.specs.Entry.{signed_string, IsEntry};
ghost use Rattle.sporc_entry.specs.EntryView.{parts_entry};

use crate::change::{ChangeBody, read_body};
use crate::entry::Entry;
use crate::fault::EntryFault;
use crate::header::{EDIT, Header, read_header};
use crate::limits::{MAX_CHANGE_BODY, MAX_EDIT_BODY, MAX_SIGNATURE};
use crate::version::body_at;
use sporc_base::{Bytes, Memory};
use sporc_bytes::Cursor;
use std::alloc::Global;
use std::marker::Model;

// What reading found of an entry.
#[derive(Drop)]
struct Parts<'a> {
    header: Header,
    body: &'a [u8],
    signature: &'a [u8],
    change: Option<ChangeBody>,
}

/// An entry read where its bytes stand: its body, its signature and the part that its author signs
/// are slices of the bytes, and the body of a change is read once.
///
/// Contracts see the entry and its bytes.
#[derive(Drop)]
pub struct EntryView<'a> {
    parts: Parts<'a>,
    bytes: &'a [u8],
}

impl<'a> Model for EntryView<'a> {
    ghost use Rattle.sporc_entry.specs.EntryView.{EntryViewModel, EntryViewInvariant, parts_entry};

    ghost Value = { EntryViewModel };

    ghost view = { λ v. record {
      entry = parts_entry v.parts.header v.parts.body.now v.parts.signature.now;
      bytes = v.bytes.now;
    } };

    ghost invariant = { λ v. EntryViewInvariant (parts_entry v.parts.header v.parts.body.now
        v.parts.signature.now) v.bytes.now v.parts.change };
}

// How many bytes the body of an entry of this kind may have.
pub(crate) fn limit_of(kind: u8) -> u32
    ensures value { result ≡ body_limit kind }
    ensures within { result ≤ MAX_EDIT_BODY }
{
    if kind == EDIT {
        MAX_EDIT_BODY
    } else {
        MAX_CHANGE_BODY
    }
}

// The change that the body behind this header is, if it is one.
fn read_kind(alloc: Global, header: &Header, body: &[u8]) -> Result<Option<ChangeBody>, EntryFault>
    requires { length body.now ≤ MAX_EDIT_BODY }
    ensures value { GivesUnless EntryFault.Memory (λ _. tt) result
        (fault_as EntryFault.Malformed (body_read header.now body.now)) }
    ensures edit { IfOk result (λ change. header.now.kind ≡ 1 → change ≡ None) }
    ensures change { IfOk result (λ change. header.now.kind ≡ 2
        → change ≡ result_ok (change_body_from header.now.version 0 body.now)) }
{
    if header.kind == EDIT {
        return Ok(None);
    }
    let change = read_body(alloc, header.version, body, body_at(header.version))?;
    Ok(Some(change))
}

// The fields of the entry that these bytes spell.
#[tactic(auto, unfolding(crate::specs::Entry::entry_of))]
fn read_parts<'a>(alloc: Global, bytes: &'a [u8]) -> Result<Parts<'a>, EntryFault>
    ensures value { GivesUnless EntryFault.Memory
        (λ p. parts_entry p.header p.body.now p.signature.now) result
        (fault_as EntryFault.Malformed (entry_of bytes.now)) }
    ensures edit { IfOk result (λ p. p.header.kind ≡ 1 → p.change ≡ None) }
    ensures change { IfOk result (λ p. p.header.kind ≡ 2
        → p.change ≡ result_ok (change_body_from p.header.version 0 p.body.now)) }
{
    let mut cursor = Cursor::new(bytes);
    let header = read_header(&mut cursor)?;
    let body = cursor.counted(limit_of(header.kind))?;
    let change = read_kind(alloc, &header, body)?;
    let signature = cursor.counted(MAX_SIGNATURE)?;
    cursor.ended()?;
    Ok(Parts {
        header,
        body,
        signature,
        change,
    })
}

impl<'a> EntryView<'a> {
    /// Reads the entry that these bytes spell. A change's body is read where it stands, which alone
    /// takes memory: that of its sealed keys.
    pub fn read(alloc: Global, bytes: &'a [u8]) -> Result<EntryView<'a>, EntryFault>
        ensures value { GivesUnless EntryFault.Memory (λ v. v.entry) result
            (fault_as EntryFault.Malformed (entry_of bytes.entry.now)) }
        ensures bytes { IfOk result (λ v. v.bytes ≡ bytes.entry.now) }
        ensures found { IfOk result
            (λ v. IsEntry v.entry × (bytes.entry.now ≡ entry_bytes v.entry)) }
        ensures within { IfOk result (λ _. length bytes.entry.now ≤ MAX_ENTRY) }
    {
        let parts = read_parts(alloc, bytes)?;
        Ok(EntryView { parts, bytes })
    }

    /// What stands before the body.
    pub fn header(&self) -> &Header
        ensures value { result.now ≡ self.now.entry.header }
    {
        &self.parts.header
    }

    /// The body.
    pub fn body(&self) -> &'a [u8]
        ensures value { result.now ≡ self.now.entry.body }
    {
        self.parts.body
    }

    /// The signature.
    pub fn signature(&self) -> &'a [u8]
        ensures value { result.now ≡ self.now.entry.signature }
    {
        self.parts.signature
    }

    /// The bytes that spell it.
    pub fn bytes(&self) -> &'a [u8]
        ensures value { result.now ≡ self.now.bytes }
        ensures spelled { IsEntry self.now.entry × (self.now.bytes ≡ entry_bytes self.now.entry) }
    {
        self.bytes
    }

    /// What the author signs, without its first byte, which is 3: a part of the bytes.
    pub fn signed(&self) -> &'a [u8]
        ensures value { 3 ∷ result.now ≡ signed_string self.now.entry }
    {
        &self.bytes[..body_at(self.parts.header.version) + self.parts.body.len()]
    }

    /// The body of the change that it is, if it is one.
    pub fn change(&self) -> Option<&ChangeBody>
        ensures value { option_copied result ≡ change_of self.now.entry }
    {
        self.parts.change.as_ref()
    }

    /// The body of the change that it is, if it is one, moved out.
    pub fn into_change(self) -> Option<ChangeBody>
        ensures value { result ≡ change_of self.entry.entry }
    {
        self.parts.change
    }

    /// The entry, with its body and its signature copied.
    pub fn to_entry(&self, alloc: Global) -> Result<Entry, Memory>
        ensures ok { IfOk result (λ e. e ≡ self.now.entry) }
    {
        let body = Bytes::copy_of(alloc, self.parts.body)?;
        let signature = Bytes::copy_of(alloc, self.parts.signature)?;
        Ok(Entry {
            header: self.parts.header,
            body,
            signature,
        })
    }
}
