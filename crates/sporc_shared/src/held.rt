//! What calls do to the client while it is out with a pass. Each answers, beside the call's answer,
//! how many events the journal then has.

ghost use Rattle.std.specs.Prelude.{◌≡◌, ◌≢◌, ◌≤◌, length, Err, IfOk};
ghost use Rattle.sporc_base.specs.FirstFault.{AnswersUnless};
ghost use Rattle.sporc_client.specs.Answers.{accept_fault, added, change_fault, edit_fault};
ghost use Rattle.sporc_client.specs.Log.{Accept as Accepted, Change as Changed, Edit as Edited};
ghost use Rattle.sporc_client.specs.Submissions.{submission_added};
ghost use Rattle.sporc_client.specs.Step.{is_flight};
ghost use Rattle.sporc_turn.specs.Passes.{IsSameTurn, value_of};
ghost use Rattle.sporc_shared.specs.Calls.{SubmitsAt};
ghost use Rattle.sporc_shared.specs.Items.{IsAllowed, client_of, disk_faults, past_of, with_events};
ghost use Rattle.sporc_shared.specs.Looks.{IsLookAt, key_at, membership_of};

use crate::desk::Desk;
use crate::journal::count_events;
use crate::look::{Look, look_at};
use crate::membership::Membership;
use sporc_base::is_same;
use sporc_client::{AcceptFault, Client, EditFault, SubmitFault, Submitted};
use sporc_delta::Delta;
use sporc_head::Examined;
use sporc_member::Change;
use sporc_outside::LeafDisk;
use sporc_turn::Held;

// An edit of the text that was shown after so many events.
#[tactic(auto, using(crate::proofs::Afters::past_added))]
pub(crate) fn edit<D: LeafDisk>(
    held: &mut Held<Desk<D>>,
    by: u32,
    seen: u64,
    delta: &Delta,
) -> (Result<u64, EditFault>, u64)
    ensures turn { IsSameTurn held.old held.new }
    ensures fault { AnswersUnless EditFault.Memory result.0
        (edit_fault (client_of (past_of (value_of held.old).client.value)) seen delta.now) }
    ensures ok { IfOk result.0 (λ n. n ≡ result.1) }
    ensures past { past_of (value_of held.new).client.value ≡ with_events
        (past_of (value_of held.old).client.value) (added result.0 (Edited by seen delta.now)) }
    ensures allowed { IsAllowed (past_of (value_of held.new).client.value) }
    ensures watermark { disk_faults D.told (value_of held.new).client.value
        ≡ disk_faults D.told (value_of held.old).client.value }
    ensures events { result.1 ≡ length (past_of (value_of held.new).client.value).log }
{
    let desk = held.value();
    let answer = desk.client.edit(by, seen, delta);
    let events = count_events(&desk.client);
    (answer, events)
}

// A change of the members.
#[tactic(auto, using(crate::proofs::Afters::past_added))]
pub(crate) fn change<D: LeafDisk>(
    held: &mut Held<Desk<D>>,
    by: u32,
    change: Change,
) -> (Result<u64, EditFault>, u64)
    ensures turn { IsSameTurn held.old held.new }
    ensures fault { AnswersUnless EditFault.Memory result.0
        (change_fault (client_of (past_of (value_of held.old).client.value))) }
    ensures ok { IfOk result.0 (λ n. n ≡ result.1) }
    ensures past { past_of (value_of held.new).client.value ≡ with_events
        (past_of (value_of held.old).client.value) (added result.0 (Changed by change)) }
    ensures allowed { IsAllowed (past_of (value_of held.new).client.value) }
    ensures watermark { disk_faults D.told (value_of held.new).client.value
        ≡ disk_faults D.told (value_of held.old).client.value }
    ensures events { result.1 ≡ length (past_of (value_of held.new).client.value).log }
{
    let desk = held.value();
    let answer = desk.client.change(by, change);
    let events = count_events(&desk.client);
    (answer, events)
}

// A submission by 64 random bytes.
#[tactic(auto, using(crate::proofs::Afters::past_submitted))]
pub(crate) fn submit<D: LeafDisk>(
    held: &mut Held<Desk<D>>,
    by: u32,
    random: &[u8; 64],
) -> (Result<Submitted, SubmitFault>, u64)
    ensures turn { IsSameTurn held.old held.new }
    ensures answer { SubmitsAt (past_of (value_of held.old).client.value) random.now result.0 }
    ensures past { past_of (value_of held.new).client.value
        ≡ with_events (past_of (value_of held.old).client.value) (submission_added by result.0) }
    ensures allowed { IsAllowed (past_of (value_of held.new).client.value) }
    ensures watermark { disk_faults D.told (value_of held.old).client.value
        ≤ disk_faults D.told (value_of held.new).client.value }
    ensures disk { result.0 ≡ Err SubmitFault.LeafFault
        → disk_faults D.told (value_of held.new).client.value ≢ 0 }
    ensures events { result.1 ≡ length (past_of (value_of held.new).client.value).log }
{
    let desk = held.value();
    let answer = desk.client.submit(by, random);
    let events = count_events(&desk.client);
    (answer, events)
}

// An entry that is to stand at a position.
#[tactic(auto, using(crate::proofs::Afters::past_added))]
pub(crate) fn accept<D: LeafDisk>(
    held: &mut Held<Desk<D>>,
    by: u32,
    pos: u32,
    bytes: &[u8],
) -> (Result<u64, AcceptFault>, u64)
    ensures turn { IsSameTurn held.old held.new }
    ensures fault { AnswersUnless AcceptFault.Memory result.0
        (accept_fault (client_of (past_of (value_of held.old).client.value)) pos bytes.now) }
    ensures ok { IfOk result.0 (λ n. n ≡ result.1) }
    ensures past { past_of (value_of held.new).client.value ≡ with_events
        (past_of (value_of held.old).client.value) (added result.0 (Accepted by bytes.now)) }
    ensures allowed { IsAllowed (past_of (value_of held.new).client.value) }
    ensures watermark { disk_faults D.told (value_of held.new).client.value
        ≡ disk_faults D.told (value_of held.old).client.value }
    ensures events { result.1 ≡ length (past_of (value_of held.new).client.value).log }
{
    let desk = held.value();
    let answer = desk.client.accept(by, pos, bytes);
    let events = count_events(&desk.client);
    (answer, events)
}

// An examined entry that is to stand at a position.
#[tactic(auto, using(crate::proofs::Afters::past_added))]
pub(crate) fn accept_examined<D: LeafDisk>(
    held: &mut Held<Desk<D>>,
    by: u32,
    pos: u32,
    examined: &Examined,
) -> (Result<u64, AcceptFault>, u64)
    ensures turn { IsSameTurn held.old held.new }
    ensures fault { AnswersUnless AcceptFault.Memory result.0 (accept_fault
        (client_of (past_of (value_of held.old).client.value)) pos examined.now.entry) }
    ensures ok { IfOk result.0 (λ n. n ≡ result.1) }
    ensures past { past_of (value_of held.new).client.value
        ≡ with_events (past_of (value_of held.old).client.value)
        (added result.0 (Accepted by examined.now.entry)) }
    ensures allowed { IsAllowed (past_of (value_of held.new).client.value) }
    ensures watermark { disk_faults D.told (value_of held.new).client.value
        ≡ disk_faults D.told (value_of held.old).client.value }
    ensures events { result.1 ≡ length (past_of (value_of held.new).client.value).log }
{
    let desk = held.value();
    let answer = desk.client.accept_examined(by, pos, examined);
    let events = count_events(&desk.client);
    (answer, events)
}

// The client at a glance.
pub(crate) fn look<D: LeafDisk>(held: &mut Held<Desk<D>>) -> (Look, u64)
    ensures unchanged { held.new ≡ held.old }
    ensures seen { IsLookAt (past_of (value_of held.old).client.value) result.0 }
    ensures allowed { IsAllowed (past_of (value_of held.old).client.value) }
    ensures events { result.1 ≡ length (past_of (value_of held.old).client.value).log }
{
    let desk = held.value();
    let look = look_at(&desk.client);
    let events = count_events(&desk.client);
    (look, events)
}

// The key under which the signature of an entry is checked.
pub(crate) fn key_for<D: LeafDisk>(
    held: &mut Held<Desk<D>>,
    entry: &[u8],
) -> (Option<[u8; 56]>, u64)
    ensures unchanged { held.new ≡ held.old }
    ensures key { result.0 ≡ key_at (past_of (value_of held.old).client.value) entry.now }
    ensures allowed { IsAllowed (past_of (value_of held.old).client.value) }
    ensures events { result.1 ≡ length (past_of (value_of held.old).client.value).log }
{
    let desk = held.value();
    let key = desk.client.key_for(entry);
    let events = count_events(&desk.client);
    (key, events)
}

// Whether an entry is the one on its way.
pub(crate) fn is_flight<D: LeafDisk>(held: &mut Held<Desk<D>>, entry: &[u8]) -> (bool, u64)
    ensures unchanged { held.new ≡ held.old }
    ensures is { result.0
        ≡ is_flight (client_of (past_of (value_of held.old).client.value)) entry.now }
    ensures allowed { IsAllowed (past_of (value_of held.old).client.value) }
    ensures events { result.1 ≡ length (past_of (value_of held.old).client.value).log }
{
    let desk = held.value();
    let is = has_on_its_way(&desk.client, entry);
    let events = count_events(&desk.client);
    (is, events)
}

fn has_on_its_way<D: LeafDisk>(client: &Client<D>, entry: &[u8]) -> bool
    ensures { result ≡ is_flight (client_of (past_of client.now)) entry.now }
{
    match client.flight() {
        Some(flight) => is_same(flight, entry),
        None => false,
    }
}

// Whose the client is.
pub(crate) fn membership<D: LeafDisk>(held: &mut Held<Desk<D>>) -> (Membership, u64)
    ensures unchanged { held.new ≡ held.old }
    ensures membership { result.0 ≡ membership_of (past_of (value_of held.old).client.value) }
    ensures allowed { IsAllowed (past_of (value_of held.old).client.value) }
    ensures events { result.1 ≡ length (past_of (value_of held.old).client.value).log }
{
    let desk = held.value();
    let document = *desk.client.document();
    let member = desk.client.me();
    let events = count_events(&desk.client);
    (Membership { document, member }, events)
}
