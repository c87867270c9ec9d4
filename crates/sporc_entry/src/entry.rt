//! Entries of a history.

ghost use Rattle.std.specs.Prelude.{◌≡◌, ◌≤◌, ◌<◌, ◌^◌, length, Ok, IfOk, true};
ghost use Rattle.sporc_base.specs.Outcome.{GivesUnless};
ghost use Rattle.sporc_bytes.specs.Fields.{fault_as};
ghost use Rattle.sporc_entry.specs.declared.entry.Entry.{Entry};
ghost use Rattle.sporc_entry.specs.declared.limits.TheConstants.{MAX_ENTRY};
ghost use Rattle.sporc_entry.specs.Entry.{entry_of, entry_bytes, signed_string, IsEntry};
ghost use Rattle.sporc_entry.specs.Version.{fits_version};

use crate::fault::EntryFault;
use crate::header::{Header, put_header};
use crate::version::body_at;
use crate::view::EntryView;
use sporc_base::{Bytes, Memory};
use sporc_bytes::Out;
use std::alloc::Global;

/// An entry of a history: an edit of the text, whose body is a masked delta, or a change of the
/// members, whose body [`crate::read_change`] reads.
#[derive(Drop)]
pub struct Entry {
    pub header: Header,
    pub body: Bytes,
    /// The author's signature of [`signed_part`].
    pub signature: Bytes,
}

/// The entry that these bytes spell, copied out of them. A change's body is read where it stands.
pub fn read_entry(alloc: Global, bytes: &[u8]) -> Result<Entry, EntryFault>
    // What is read is spelled so.
    ensures found { IfOk result (λ e. IsEntry e × (bytes.now ≡ entry_bytes e)) }
    // Such bytes are no more than those of an edit with the longest body and signature.
    ensures within { IfOk result (λ _. length bytes.now ≤ MAX_ENTRY) }
    // What is spelled so is read, unless memory runs out.
    ensures only { (e : Entry) → IsEntry e → bytes.now ≡ entry_bytes e
        → GivesUnless EntryFault.Memory (λ e. e) result (Ok e) }
    // Which fault it is.
    ensures value { GivesUnless EntryFault.Memory (λ e. e) result
        (fault_as EntryFault.Malformed (entry_of bytes.now)) }
{
    read_copied(alloc, bytes)
}

// The entry that these bytes spell, copied out of them.
fn read_copied(alloc: Global, bytes: &[u8]) -> Result<Entry, EntryFault>
    ensures { GivesUnless EntryFault.Memory (λ e. e) result
        (fault_as EntryFault.Malformed (entry_of bytes.now)) }
{
    let view = EntryView::read(alloc, bytes)?;
    let entry = view.to_entry(alloc)?;
    Ok(entry)
}

/// The bytes of an entry: the one spelling of it, where it has one.
#[tactic(auto, unfolding(crate::specs::Entry::entry_bytes))]
pub fn write_entry(alloc: Global, entry: &Entry) -> Result<Vec<u8>, Memory>
    requires version { fits_version entry.now.header.version entry.now.header.device ≡ true }
    requires body_limit { length entry.now.body < 2 ^ 32 }
    requires signature_limit { length entry.now.signature < 2 ^ 32 }
    ensures ok { IfOk result (λ bytes. bytes.items ≡ entry_bytes entry.now) }
{
    let body = entry.body.as_slice();
    let signature = entry.signature.as_slice();
    let mut out = Out::with_capacity(
        alloc,
        body_at(entry.header.version) + body.len() + 4 + signature.len(),
    )?;
    put_header(&mut out, &entry.header)?;
    out.put_counted(body)?;
    out.put_counted(signature)?;
    Ok(out.into_bytes())
}

/// What the author of an entry signs.
#[tactic(auto, unfolding(crate::specs::Entry::signed_string))]
pub fn signed_part(alloc: Global, entry: &Entry) -> Result<Vec<u8>, Memory>
    requires version { fits_version entry.now.header.version entry.now.header.device ≡ true }
    requires limit { length entry.now.body < 2 ^ 32 }
    ensures ok { IfOk result (λ bytes. bytes.items ≡ signed_string entry.now) }
{
    let body = entry.body.as_slice();
    let mut out = Out::with_capacity(alloc, 1 + body_at(entry.header.version) + body.len())?;
    out.put_u8(3)?;
    put_header(&mut out, &entry.header)?;
    out.put_counted(body)?;
    Ok(out.into_bytes())
}
