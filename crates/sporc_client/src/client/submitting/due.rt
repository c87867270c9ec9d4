//! What is due at a submission.

ghost use Rattle.std.specs.Prelude.{◌≡◌, [], ◌∷◌, length, nat_le};
ghost use Rattle.sporc_base.specs.FirstFault.{Answers, first_of, unless};
ghost use Rattle.sporc_base.specs.Outcome.{GivesUnless};
ghost use Rattle.sporc_delta.specs.Format.{delta_bytes};
ghost use Rattle.sporc_client.specs.Entries.{kind_of};
ghost use Rattle.sporc_client.specs.Submissions.{due_behind, first_due, item_due, step_of};
ghost use Rattle.sporc_client.specs.Submissions.{submit_checks};
ghost use Rattle.sporc_client.specs.declared.pending.Pending.TheVariants as items;

use crate::client::has_right;
use crate::fault::SubmitFault;
use crate::limits::{MAX_EVENTS, MAX_HEAD_BYTES};
use crate::pending::Pending;
use crate::workspace::Workspace;
use sporc_delta::Delta;
use sporc_entry::{CHANGE, EDIT};
use sporc_epoch::least_unpaired;
use sporc_head::MAX_ENTRIES;
use sporc_line::Line;
use sporc_member::{Change, ChangeFault};

/// What is due at a submission.
#[derive(Drop)]
pub(crate) enum Due {
    /// An entry is on its way already.
    Waiting,
    /// Nothing is pending.
    Nothing,
    /// The first pending item is a change that the members refuse, and is taken off.
    Drop(ChangeFault),
    /// An entry of the first pending item is to be signed.
    Sign,
}

// What is due, or its fault.
pub(crate) fn find_due(line: &Line, own: &Workspace) -> Result<Due, SubmitFault>
    ensures value { GivesUnless SubmitFault.Memory (λ d. d) result
        (step_of (due_behind line.now own.now.shown own.now.pending own.now.flight)) }
{
    if own.flight().is_some() {
        return Ok(Due::Waiting);
    }
    match own.pending().first() {
        None => Ok(Due::Nothing),
        Some(item) => find_due_first(line, own, item),
    }
}

// What is due of the first pending item.
fn find_due_first(line: &Line, own: &Workspace, item: &Pending) -> Result<Due, SubmitFault>
    ensures value { GivesUnless SubmitFault.Memory (λ d. d) result
        (step_of (first_due line.now own.now.shown (item.now ∷ []))) }
{
    check_submission(line, own, item)?;
    match item {
        Pending::Edit(delta) => {
            check_length(delta)?;
            Ok(Due::Sign)
        }
        Pending::Change(change) => find_due_change(line, change),
    }
}

// The checks of a submission of an item, whatever the item says.
fn check_submission(line: &Line, own: &Workspace, item: &Pending) -> Result<(), SubmitFault>
    ensures fault { Answers result (first_of (submit_checks line.now own.now.shown item.now)) }
{
    if line.removed() {
        return Err(SubmitFault::Removed);
    }
    if !has_right(line, kind_of(item)) {
        return Err(SubmitFault::NoRight);
    }
    if line.len() >= MAX_ENTRIES {
        return Err(SubmitFault::HistoryFull);
    }
    if own.journal().len() >= MAX_EVENTS {
        return Err(SubmitFault::JournalFull);
    }
    Ok(())
}

// The kind of the entry of an item.
pub(crate) fn kind_of(item: &Pending) -> u8
    ensures value { result ≡ kind_of item.now }
{
    match item {
        Pending::Edit(_) => EDIT,
        Pending::Change(_) => CHANGE,
    }
}

// Whether an edit has few enough bytes to be signed.
fn check_length(delta: &Delta) -> Result<(), SubmitFault>
    ensures fault { Answers result (unless (nat_le (length (delta_bytes delta.now)) MAX_HEAD_BYTES)
        (SubmitFault.HeadTooLong (length (delta_bytes delta.now)))) }
{
    let bytes = delta.encoded_len();
    if bytes > MAX_HEAD_BYTES {
        return Err(SubmitFault::HeadTooLong(bytes));
    }
    Ok(())
}

// What is due of a change at the head: it is taken off if the members refuse it, and needs a
// pairwise key with each member after it.
fn find_due_change(line: &Line, change: &Change) -> Result<Due, SubmitFault>
    ensures value { GivesUnless SubmitFault.Memory (λ d. d) result
        (step_of (item_due line.now (items.Change change.now))) }
{
    let roster = line.heads().roster();
    if let Err(fault) = roster.test(change) {
        return Ok(Due::Drop(fault));
    }
    let members = roster.members_after(change)?;
    match least_unpaired(members.as_slice(), line.pairs()) {
        Some(member) => Err(SubmitFault::NoPairKey(member)),
        None => Ok(Due::Sign),
    }
}
