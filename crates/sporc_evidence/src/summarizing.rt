//! Summaries, made and signed.

ghost use Rattle.std.specs.Prelude.{◌≡◌, ◌<◌, ◌^◌, ◌⊎◌, ◌++◌, Err, IfOk, IfErr, OnOk};
ghost use Rattle.lms_tree.specs.LmsType.{height_of};
ghost use Rattle.lms_tree.specs.Signatures.{lms_signature_of};
ghost use Rattle.sporc_bytes.specs.Fields.{counted};
ghost use Rattle.sporc_evidence.specs.Summarizing.{DrewOnce, signed_by};
ghost use Rattle.sporc_evidence.specs.Summary.{summary_of};
ghost use Rattle.sporc_evidence.specs.SummaryBytes.{signed_string, summary_bytes};

use crate::fault::SummaryFault;
use crate::fields::put_summary;
use lms_sign::{Signer, Ticket};
use sporc_base::{Bytes, Memory};
use sporc_bytes::Out;
use sporc_entry::MAX_SIGNATURE;
use sporc_line::Line;
use sporc_outside::LeafDisk;
use std::alloc::Global;

// What the author of a summary signs, and the summary's file up to its signature, with room for
// that.
#[derive(Drop)]
struct Draft {
    message: Bytes,
    file: Out,
}

/// The summary of a line, signed for a device of a member by the next leaf, with 32 random bytes
/// `c`: the bytes of its file. Anyone may read it, since it holds digests alone.
///
/// It takes its memory before it draws. If memory runs out later, as the leaf signs, the leaf is
/// given up.
pub fn summarize<D: LeafDisk>(
    alloc: Global,
    line: &Line,
    me: u16,
    device: u8,
    signer: &mut Signer<D>,
    c: &[u8; 32],
) -> Result<Vec<u8>, SummaryFault>
    ensures ok { IfOk result (λ file. file.items
        ≡ signed_by signer.old.key signer.old.leaves.next c.now
        (summary_of line.now.genesis line.now.entries me device)) }
    ensures drawn { ((result ≡ Err SummaryFault.Memory)
        × (signer.new.leaves ≡ signer.old.leaves))
        ⊎ DrewOnce D.told signer.old.leaves result signer.new.leaves }
    ensures key { signer.new.key ≡ signer.old.key }
{
    let draft = write_draft(alloc, line, me, device)?;
    let ticket = signer.draw()?;
    sign_draft(alloc, signer, ticket, c, draft)
}

// The draft of a summary. It takes all memory of the file.
fn write_draft(alloc: Global, line: &Line, me: u16, device: u8) -> Result<Draft, Memory>
    ensures message { IfOk result (λ draft. draft.message
        ≡ signed_string (summary_of line.now.genesis line.now.entries me device)) }
    ensures file { IfOk result (λ draft. draft.file
        ≡ summary_bytes (summary_of line.now.genesis line.now.entries me device)) }
{
    let len = 27 + 32 * line.hashes().len();
    let mut message = Out::with_capacity(alloc, 1 + len)?;
    message.put_u8(6)?;
    put_line(&mut message, line, me, device)?;
    let mut file = Out::with_capacity(alloc, len + 4 + MAX_SIGNATURE as usize)?;
    put_line(&mut file, line, me, device)?;
    Ok(Draft {
        message: Bytes::new(message.into_bytes()),
        file,
    })
}

// Appends the summary of a line, up to its signature.
fn put_line(out: &mut Out, line: &Line, me: u16, device: u8) -> Result<(), Memory>
    ensures { OnOk result (out.new ≡ out.old
        ++ summary_bytes (summary_of line.now.genesis line.now.entries me device)) }
{
    put_summary(out, line.document(), me, device, line.len(), line.hashes())
}

// The file of a draft, signed by the ticket's leaf. If memory runs out the ticket is given up.
fn sign_draft<D: LeafDisk>(
    alloc: Global,
    signer: &mut Signer<D>,
    ticket: Ticket,
    c: &[u8; 32],
    draft: Draft,
) -> Result<Vec<u8>, SummaryFault>
    requires { ticket < 2 ^ height_of signer.old.key.lms }
    ensures ok { IfOk result (λ file. file.items
        ≡ draft.file ++ counted (lms_signature_of signer.old.key ticket c.now draft.message)) }
    ensures err { IfErr result (λ fault. fault ≡ SummaryFault.Memory) }
    ensures unchanged { signer.new ≡ signer.old }
{
    let Draft { message, mut file } = draft;
    match signer.sign(alloc, ticket, c, message.as_slice()) {
        Ok(signature) => {
            file.put_counted(signature.as_slice())?;
            Ok(file.into_bytes())
        }
        Err((ticket, _)) => {
            ticket.give_up();
            Err(SummaryFault::Memory)
        }
    }
}
