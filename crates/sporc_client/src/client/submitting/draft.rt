//! An entry from its draft to its bytes.

ghost use Rattle.std.specs.Prelude.{◌≡◌, true, ◌+◌, ◌≤◌, ◌<◌, ◌^◌, ◌++◌, length, vec_len};
ghost use Rattle.std.specs.Prelude.{vec_capacity, IfOk, IfErr};
ghost use Rattle.lms_tree.specs.LmsType.{height_of};
ghost use Rattle.lms_tree.specs.Verification.{lms_signature_len_of};
ghost use Rattle.sporc_entry.specs.declared.limits.TheConstants.{MAX_ENTRY, MAX_SIGNATURE};
ghost use Rattle.sporc_entry.specs.Entry.{signed_string};
ghost use Rattle.sporc_entry.specs.Version.{fits_version};
ghost use Rattle.sporc_client.specs.Drafts.{AreCopies, HasRoom, IsDraft, prefix_bytes};
ghost use Rattle.sporc_client.specs.Drafts.{signed_bytes};

use lms_sign::{Signer, Ticket};
use lms_tree::LmsPublic;
use sporc_base::{Bytes, Memory};
use sporc_entry::{Entry, signed_part};
use sporc_outside::LeafDisk;
use std::alloc::Global;

/// The bytes of an entry, once for each who keeps them.
#[derive(Drop)]
pub(crate) struct Made {
    /// For the caller.
    pub(crate) answer: Bytes,
    /// For the client, while the entry is on its way.
    pub(crate) flight: Bytes,
    /// For the journal.
    pub(crate) event: Bytes,
}

/// What the author of an entry signs, and the entry's bytes up to its signature, with room for
/// that, once for each who keeps them.
#[derive(Drop)]
pub(crate) struct Draft {
    message: Vec<u8>,
    answer: Vec<u8>,
    flight: Vec<u8>,
    event: Vec<u8>,
}

// Signs an entry by the ticket's leaf, with 32 random bytes. If memory runs out the ticket comes
// back, and has not signed.
pub(crate) fn sign_entry<D: LeafDisk>(
    alloc: Global,
    signer: &mut Signer<D>,
    ticket: Ticket,
    randomizer: &[u8; 32],
    entry: &Entry,
) -> Result<Made, (Ticket, Memory)>
    requires ticket_limit { ticket < 2 ^ height_of signer.old.key.lms }
    requires version { fits_version entry.now.header.version entry.now.header.device ≡ true }
    requires body_limit { length entry.now.body < 2 ^ 32 }
    requires limit { length (signed_string entry.now) ≤ MAX_ENTRY }
    ensures made { IfOk result
        (AreCopies (signed_bytes signer.old.key ticket randomizer.now entry.now)) }
    ensures returned { IfErr result (λ back. back.0 ≡ ticket) }
    ensures unchanged { signer.new ≡ signer.old }
{
    let draft = match write_draft(alloc, &signer.public(), entry) {
        Ok(draft) => draft,
        Err(memory) => return Err((ticket, memory)),
    };
    match signer.sign(alloc, ticket, randomizer, draft.message.as_slice()) {
        Ok(signature) => Ok(finish(draft, signature.as_slice())),
        Err(back) => Err(back),
    }
}

// The draft of an entry for a signature under a key. It takes all memory of the entry's bytes.
fn write_draft(alloc: Global, key: &LmsPublic, entry: &Entry) -> Result<Draft, Memory>
    requires version { fits_version entry.now.header.version entry.now.header.device ≡ true }
    requires body_limit { length entry.now.body < 2 ^ 32 }
    requires limit { length (signed_string entry.now) ≤ MAX_ENTRY }
    ensures draft { IfOk result (IsDraft (lms_signature_len_of key.now) entry.now) }
{
    let message = signed_part(alloc, entry)?;
    let len = signature_len(key);
    let answer = prefix(alloc, message.as_slice(), len)?;
    let flight = prefix(alloc, message.as_slice(), len)?;
    let event = prefix(alloc, message.as_slice(), len)?;
    Ok(Draft {
        message,
        answer,
        flight,
        event,
    })
}

// The length of a signature under a key.
fn signature_len(key: &LmsPublic) -> u32
    ensures value { result ≡ lms_signature_len_of key.now }
    ensures within { result ≤ MAX_SIGNATURE }
{
    8 + key.ots.signature_len() as u32 + 32 * key.lms.height()
}

// The bytes of an entry up to its signature of `len` bytes, with room for that, by what its author
// signs.
fn prefix(alloc: Global, message: &[u8], len: u32) -> Result<Vec<u8>, Memory>
    requires positive { 1 ≤ length message.now }
    requires limit { length message.now ≤ MAX_ENTRY }
    ensures items { IfOk result (λ prefix. prefix.items ≡ prefix_bytes len message.now) }
    ensures room { IfOk result (λ prefix. vec_len prefix + len ≤ vec_capacity prefix) }
{
    let rest = &message[1..];
    let mut prefix = Vec::with_capacity(alloc, rest.len() + 4 + len as usize)?;
    prefix.extend_from_slice(rest)?;
    prefix.extend_from_slice(&len.to_be_bytes())?;
    Ok(prefix)
}

// Writes the signature behind each prefix of a draft, in the room that it has.
fn finish(draft: Draft, signature: &[u8]) -> Made
    requires room { HasRoom (length signature.now) draft }
    ensures answer { result.answer ≡ draft.answer.items ++ signature.now }
    ensures flight { result.flight ≡ draft.flight.items ++ signature.now }
    ensures event { result.event ≡ draft.event.items ++ signature.now }
{
    let Draft {
        message: _,
        answer,
        flight,
        event,
    } = draft;
    Made {
        answer: with_signature(answer, signature),
        flight: with_signature(flight, signature),
        event: with_signature(event, signature),
    }
}

// Bytes with a signature behind them, in the room that they have.
fn with_signature(mut prefix: Vec<u8>, signature: &[u8]) -> Bytes
    requires { vec_len prefix + length signature.now ≤ vec_capacity prefix }
    ensures { result ≡ prefix.items ++ signature.now }
{
    let _ = prefix.extend_from_slice(signature);
    Bytes::new(prefix)
}
