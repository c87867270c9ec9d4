//! The entry that a submission makes.

ghost use Rattle.std.specs.Prelude.{◌≡◌, ℕ, ◌<◌, ◌^◌, ◌∷◌, drop, length, true, None, Some, Ok};
ghost use Rattle.std.specs.Prelude.{IfOk, IfErr, IfSome, IsSomeAnd, is_ok};
ghost use Rattle.lms_tree.specs.LmsType.{height_of};
ghost use Rattle.lms_leaf.specs.Leaves.{DrawFaults, Draws};
ghost use Rattle.sporc_base.specs.Outcome.{GivesUnless};
ghost use Rattle.sporc_client.specs.ClientInvariant.{plain_of};
ghost use Rattle.sporc_client.specs.Contents.{IsSubmission};
ghost use Rattle.sporc_client.specs.Drafts.{AreCopies};
ghost use Rattle.sporc_client.specs.Drawing.{IsDraw, at_hand, kept_after, leaf_for};
ghost use Rattle.sporc_client.specs.Soundness.{IsSound};
ghost use Rattle.sporc_client.specs.Submissions.{due, is_signing, submission};

use super::draft::{Made, sign_entry};
use super::unsigned::unsigned_entry;
use crate::fault::SubmitFault;
use crate::halves::{first_half, second_half};
use crate::pending::Pending;
use crate::submitted::Submitted;
use crate::workspace::Workspace;
use lms_leaf::LeafFault;
use lms_sign::{KeptTicket, Signer, Ticket};
use sporc_base::Memory;
use sporc_line::Line;
use sporc_outside::LeafDisk;
use std::alloc::Global;

// Makes the entry of the first pending item by the leaf of the kept ticket or, if there is none, of
// one that it draws. If memory runs out the ticket is kept.
pub(crate) fn make_entry<D: LeafDisk>(
    alloc: Global,
    line: &Line,
    own: &Workspace,
    signer: &mut Signer<D>,
    kept: &mut Option<KeptTicket>,
    random: &[u8; 64],
) -> Result<Made, SubmitFault>
    requires due { is_signing (due (plain_of signer.old.key line.now own.now)) ≡ true }
    requires sound { IsSound (plain_of signer.old.key line.now own.now) }
    requires limit { IfSome kept.old (λ leaf. leaf < 2 ^ height_of signer.old.key.lms) }
    ensures value { GivesUnless SubmitFault.Memory (λ made. Submitted.Entry made.answer) result
        (submission (plain_of signer.old.key line.now own.now) random.now
        (leaf_for kept.old signer.old.leaves signer.new.leaves)) }
    ensures made { IfOk result (λ made. AreCopies made.answer made) }
    ensures submission { IfOk result
        (λ made. IsSomeAnd (at_hand kept.old signer.old.leaves signer.new.leaves)
        (λ leaf. IsSubmission (plain_of signer.old.key line.now own.now) leaf made.answer)) }
    ensures undrawn { (leaf : ℕ) → kept.old ≡ Some leaf → signer.new ≡ signer.old }
    ensures drawn { kept.old ≡ None → IsDraw D.told signer.old.leaves signer.new.leaves }
    ensures ticket { kept.new
        ≡ kept_after kept.old signer.old.leaves signer.new.leaves (is_ok result) }
    ensures within { IfSome kept.new (λ leaf. leaf < 2 ^ height_of signer.old.key.lms) }
    ensures key { signer.new.key ≡ signer.old.key }
{
    let ticket = take_ticket(signer, kept)?;
    match make_signed(alloc, line, own, signer, ticket, random) {
        Ok(made) => Ok(made),
        Err((ticket, _)) => {
            *kept = Some(ticket.keep());
            Err(SubmitFault::Memory)
        }
    }
}

// The kept ticket or, if there is none, one that it draws.
fn take_ticket<D: LeafDisk>(
    signer: &mut Signer<D>,
    kept: &mut Option<KeptTicket>,
) -> Result<Ticket, LeafFault>
    requires limit { IfSome kept.old (λ leaf. leaf < 2 ^ height_of signer.old.key.lms) }
    ensures undrawn { (leaf : ℕ) → kept.old ≡ Some leaf
        → (result ≡ Ok leaf) × (signer.new ≡ signer.old) }
    ensures draws { kept.old ≡ None → Draws D.told signer.old.leaves result signer.new.leaves }
    ensures faults { kept.old ≡ None
        → DrawFaults D.told signer.old.leaves result signer.new.leaves }
    ensures within { IfOk result (λ ticket. ticket < 2 ^ height_of signer.old.key.lms) }
    ensures key { signer.new.key ≡ signer.old.key }
    ensures taken { kept.new ≡ None }
{
    match kept.take() {
        Some(kept) => Ok(kept.take()),
        None => {
            let ticket = signer.draw()?;
            Ok(ticket)
        }
    }
}

// The entry of the first pending item, signed by the ticket's leaf. The ticket comes back if memory
// runs out.
fn make_signed<D: LeafDisk>(
    alloc: Global,
    line: &Line,
    own: &Workspace,
    signer: &mut Signer<D>,
    ticket: Ticket,
    random: &[u8; 64],
) -> Result<Made, (Ticket, Memory)>
    requires due { is_signing (due (plain_of signer.old.key line.now own.now)) ≡ true }
    requires sound { IsSound (plain_of signer.old.key line.now own.now) }
    requires limit { ticket < 2 ^ height_of signer.old.key.lms }
    ensures answer { IfOk result
        (λ made. submission (plain_of signer.old.key line.now own.now) random.now (Ok ticket)
        ≡ Ok (Submitted.Entry made.answer)) }
    ensures made { IfOk result (λ made. AreCopies made.answer made) }
    ensures submission { IfOk result
        (λ made. IsSubmission (plain_of signer.old.key line.now own.now) ticket made.answer) }
    ensures returned { IfErr result (λ back. back.0 ≡ ticket) }
    ensures unchanged { signer.new ≡ signer.old }
{
    let new_key = second_half(random);
    match unsigned_entry(alloc, line, first_item(own), ticket.leaf(), &new_key) {
        Ok(entry) => sign_entry(alloc, signer, ticket, &first_half(random), &entry),
        Err(memory) => Err((ticket, memory)),
    }
}

// The first pending item.
fn first_item(own: &Workspace) -> &Pending
    requires { 0 < length own.now.pending }
    ensures { own.now.pending ≡ result.now ∷ drop 1 own.now.pending }
{
    &own.pending()[0]
}
