//! Commands that act on the client of a device, and the lines that tell their answers.

ghost use Rattle.std.specs.Prelude.{◌≡◌, ◌≢◌, ℕ, ◌+◌, ◌<◌, ◌≤◌, ◌^◌, ◌++◌, codes, length, Some};
ghost use Rattle.std.specs.Prelude.{true, false, Ok, Err, Option, OnOk, OnErr, IfOk, IfErr, IfSome};
ghost use Rattle.std.specs.Prelude.{option_map, string_bytes};
ghost use Rattle.std.specs.Option.{option_copied, option_to_list};
ghost use Rattle.std.specs.Fmt.{decimal};
ghost use Rattle.std.specs.Result.{result_ok};
ghost use Rattle.sporc_base.specs.FirstFault.{AnswersUnless};
ghost use Rattle.sporc_delta.specs.declared.limits.TheConstants.{MAX_COUNT};
ghost use Rattle.sporc_client.specs.Answers.{restart_fault};
ghost use Rattle.sporc_client.specs.ClientModel.{state_of};
ghost use Rattle.sporc_client.specs.PlainClient.{shown_after};
ghost use Rattle.sporc_client.specs.Step.{log_of_first};
ghost use Rattle.sporc_client.specs.Submissions.{entries_made, submission};
ghost use Rattle.sporc_script.specs.Spelling.{device_text};
ghost use Rattle.sporc_play.specs.Logs.{change_events, discard_events, edit_logged, given_by};
ghost use Rattle.sporc_play.specs.Logs.{given_events};
ghost use Rattle.sporc_play.specs.Report.{change_line, discard_line, edit_line, edited_line};
ghost use Rattle.sporc_play.specs.Report.{event_line, give_line, line_by, not_open_line};
ghost use Rattle.sporc_play.specs.Report.{restart_answer, restart_line, submit_line};
ghost use Rattle.sporc_play.specs.Seats.{HasSubmitted, IsReady, IsSubmitted, client_logged};
ghost use Rattle.sporc_play.specs.Seats.{plain_in, seat_logged, seat_restarted, submission_line};
ghost use Rattle.sporc_play.specs.Scene.{delta_by, edit_events, edit_size, leaf_next, marks_of};
ghost use Rattle.sporc_play.specs.Scene.{seen_by};

use crate::derived::random_of;
use crate::seat::{PlayClient, Seat};
use sporc_base::Memory;
use sporc_client::{EditFault, RestartFault, SubmitFault, Submitted};
use sporc_delta::Delta;
use sporc_member::{Change, ChangeFault, Device};
use sporc_report::{
    push_accept_fault, push_device, push_edit_fault, push_number, push_start, push_submit_fault,
};
use sporc_script::{Edit, Give, Restart, TextEdit};
use std::alloc::{AllocError, Global};
use std::fmt::Write;

/// Appends that a device has no client.
pub fn push_not_open(out: &mut String, device: Device) -> Result<(), Memory>
    ensures ok { OnOk result (string_bytes out.new ≡ string_bytes out.old ++ not_open_line device) }
{
    push_start(out, device, " not open\n")
}

// ---- edits

/// Edits what a client shows, or showed after so many events.
pub fn edit(alloc: Global, seat: &mut Seat, edit: &Edit, out: &mut String) -> Result<(), Memory>
    requires limit { edit_size edit.now.change ≤ MAX_COUNT }
    ensures line { OnOk result (string_bytes out.new ≡ string_bytes out.old
        ++ line_by edit.now.device (plain_in seat.old) (edited_line edit.now)) }
    ensures seat { OnOk result (seat.new ≡ seat_logged (edit_events edit.now) seat.old) }
{
    match &mut seat.client {
        Some(client) => edit_client(alloc, client, edit, out),
        None => push_not_open(out, edit.device),
    }
}

fn edit_client(
    alloc: Global,
    client: &mut PlayClient,
    edit: &Edit,
    out: &mut String,
) -> Result<(), Memory>
    requires { edit_size edit.now.change ≤ MAX_COUNT }
    ensures line { OnOk result (string_bytes out.new
        ≡ string_bytes out.old ++ edited_line edit.now (state_of client.old)) }
    ensures log { OnOk result (client.new ≡ client_logged (edit_events edit.now) client.old) }
{
    let device = edit.device;
    let seen = seen_by(client, edit.seen);
    match delta_by(alloc, client, seen, &edit.change)? {
        Ok(delta) => edit_by(client, device, seen, &delta, out),
        Err(len) => push_number(out, device, " edit outside ", len),
    }
}

// The delta that an edit stands for after so many events, or the length of the text shown then, if
// the edit lies outside it. One who has seen more events than there are asks for the empty delta.
fn delta_by(
    alloc: Global,
    client: &PlayClient,
    seen: u64,
    edit: &TextEdit,
) -> Result<Result<Delta, u64>, Memory>
    requires { edit_size edit.now ≤ MAX_COUNT }
    ensures value { IfOk result
        (λ found. result_ok found ≡ delta_by (state_of client.now) seen edit.now) }
    ensures outside { IfOk result
        (λ found. IfErr found (λ len. len ≡ length (shown_after seen (state_of client.now)))) }
{
    let _journal = client.journal();
    let Some(len) = client.shown_len_at(seen) else {
        return Ok(Ok(Delta::keep_all(alloc, 0)?));
    };
    match delta_of(alloc, edit, len)? {
        Some(delta) => Ok(Ok(delta)),
        None => Ok(Err(len)),
    }
}

// How many events an edit has seen: all, unless it says so.
fn seen_by(client: &PlayClient, seen: Option<u64>) -> u64
    ensures { result ≡ seen_by (state_of client.now) seen }
{
    match seen {
        Some(seen) => seen,
        None => client.journal().len() as u64,
    }
}

// Edits by a delta.
fn edit_by(
    client: &mut PlayClient,
    device: Device,
    seen: u64,
    delta: &Delta,
    out: &mut String,
) -> Result<(), Memory>
    ensures line { OnOk result (string_bytes out.new
        ≡ string_bytes out.old ++ edit_line device (state_of client.old) seen (Some delta.now)) }
    ensures log { OnOk result
        (client.new ≡ client_logged (λ c. edit_logged c seen (Some delta.now)) client.old) }
{
    let answer = client.edit(0, seen, delta);
    push_event(out, device, "edit", answer)
}

// The delta of an edit of a text of this length; none, if the edit lies outside it.
fn delta_of(alloc: Global, edit: &TextEdit, len: u64) -> Result<Option<Delta>, Memory>
    requires limit { len ≤ MAX_COUNT }
    requires edit_limit { edit_size edit.now ≤ MAX_COUNT }
    ensures { IfOk result (λ found. found ≡ marks_of edit.now len) }
{
    match edit {
        TextEdit::Insert(e) => {
            if e.at > len {
                return Ok(None);
            }
            let delta = Delta::insert_at(alloc, len, e.at, e.text.as_str())?;
            Ok(Some(delta))
        }
        TextEdit::Remove(e) => {
            if e.at > len || e.count > len - e.at {
                return Ok(None);
            }
            let delta = Delta::remove_at(alloc, len, e.at, e.count)?;
            Ok(Some(delta))
        }
    }
}

// The line of a call that adds an event.
fn push_event(
    out: &mut String,
    device: Device,
    word: &str,
    answer: Result<u64, EditFault>,
) -> Result<(), Memory>
    ensures line { OnOk result ((events : ℕ) (fault : Option EditFault)
        → AnswersUnless EditFault.Memory answer fault → IfOk answer (λ n. n ≡ events)
        → string_bytes out.new ≡ string_bytes out.old ++ event_line device word.now events fault) }
    ensures named { OnOk result (answer ≢ Err EditFault.Memory) }
{
    push_device(out, device)?;
    match answer {
        Ok(events) => writeln!(out, " {word} event {events}"),
        Err(fault) => {
            write!(out, " {word} refused ")?;
            push_edit_fault(out, fault)?;
            out.push_str("\n")
        }
    }
}

// ---- changes and discards

/// Asks for a change of the members.
pub fn change(
    seat: &mut Seat,
    device: Device,
    change: Change,
    out: &mut String,
) -> Result<(), Memory>
    ensures line { OnOk result (string_bytes out.new
        ≡ string_bytes out.old ++ line_by device (plain_in seat.old) (change_line device)) }
    ensures seat { OnOk result (seat.new ≡ seat_logged (change_events change) seat.old) }
{
    match &mut seat.client {
        Some(client) => {
            let answer = client.change(0, change);
            push_event(out, device, "change", answer)
        }
        None => push_not_open(out, device),
    }
}

/// Gives up what is pending.
pub fn discard(seat: &mut Seat, device: Device, out: &mut String) -> Result<(), Memory>
    ensures line { OnOk result (string_bytes out.new
        ≡ string_bytes out.old ++ line_by device (plain_in seat.old) (discard_line device)) }
    ensures seat { OnOk result (seat.new ≡ seat_logged discard_events seat.old) }
{
    match &mut seat.client {
        Some(client) => {
            let answer = client.discard(0);
            push_event(out, device, "discard", answer)
        }
        None => push_not_open(out, device),
    }
}

// ---- submissions

/// Submits the first pending item of a client. The entry that is made gets the number `next`.
pub fn submit(seat: &mut Seat, next: u64, out: &mut String) -> Result<Option<Vec<u8>>, Memory>
    requires limit { seat.old.asked + 1 < 2 ^ 24 }
    requires client { IfSome seat.old.client (λ c. IsReady c.opening.key c.leaves.next c) }
    ensures line { OnOk result (string_bytes out.new
        ≡ string_bytes out.old ++ submission_line next seat.old seat.old.client) }
    ensures seat { IfOk result
        (λ made. HasSubmitted next seat.old (option_map (λ v. v.items) made) seat.new) }
{
    seat.asked += 1;
    let device = seat.device;
    let random = random_of(device, seat.asked);
    let last = seat.last;
    let Some(client) = &mut seat.client else {
        push_not_open(out, device)?;
        return Ok(None);
    };
    match submit_client(client, device, &random, next, last, out)? {
        Some(entry) => {
            seat.last = next;
            Ok(Some(entry))
        }
        None => Ok(None),
    }
}

// Submits the first pending item of a client; `last` is the number of the entry that it made last.
fn submit_client(
    client: &mut PlayClient,
    device: Device,
    random: &[u8; 64],
    next: u64,
    last: u64,
    out: &mut String,
) -> Result<Option<Vec<u8>>, Memory>
    requires client { IsReady client.old.opening.key client.old.leaves.next client.old }
    ensures line { OnOk result (string_bytes out.new ≡ string_bytes out.old ++ submit_line device
        next last (submission (state_of client.old) random.now (leaf_next client.old))) }
    ensures made { IfOk result (λ made. option_to_list (option_map (λ v. v.items) made)
        ≡ entries_made (submission (state_of client.old) random.now (leaf_next client.old))) }
    ensures client { OnOk result (IsSubmitted client.old
        (submission (state_of client.old) random.now (leaf_next client.old)) client.new) }
{
    let answer = client.submit(0, random);
    tell_submission(out, device, next, last, answer)
}

// The line of what a submission answered, and the entry that it hands out.
fn tell_submission(
    out: &mut String,
    device: Device,
    next: u64,
    last: u64,
    answer: Result<Submitted, SubmitFault>,
) -> Result<Option<Vec<u8>>, Memory>
    ensures line { OnOk result
        (string_bytes out.new ≡ string_bytes out.old ++ submit_line device next last answer) }
    ensures made { IfOk result
        (λ made. option_to_list (option_map (λ v. v.items) made) ≡ entries_made answer) }
    ensures named { OnOk result (answer ≢ Err SubmitFault.Memory) }
    ensures no_disk { OnOk result (answer ≢ Err SubmitFault.LeafFault) }
{
    push_submission(out, device, next, last, &answer)?;
    Ok(entry_in(answer))
}

fn push_submission(
    out: &mut String,
    device: Device,
    next: u64,
    last: u64,
    answer: &Result<Submitted, SubmitFault>,
) -> Result<(), Memory>
    ensures line { OnOk result
        (string_bytes out.new ≡ string_bytes out.old ++ submit_line device next last answer.now) }
    ensures named { OnOk result (answer.now ≢ Err SubmitFault.Memory) }
    ensures no_disk { OnOk result (answer.now ≢ Err SubmitFault.LeafFault) }
{
    match answer {
        Ok(Submitted::Entry(_)) => push_number(out, device, " submit entry ", next),
        Ok(Submitted::Nothing) => push_start(out, device, " submit nothing\n"),
        Ok(Submitted::Waiting) => push_number(out, device, " submit waiting ", last),
        Ok(Submitted::Dropped(fault)) => push_dropped(out, device, *fault),
        Err(fault) => push_unsubmitted(out, device, *fault),
    }
}

// The entry that a submission hands out.
fn entry_in(answer: Result<Submitted, SubmitFault>) -> Option<Vec<u8>>
    ensures { option_to_list (option_map (λ v. v.items) result) ≡ entries_made answer }
{
    match answer {
        Ok(Submitted::Entry(entry)) => Some(entry.into_vec()),
        _ => None,
    }
}

// The line of a submission that gives an item up.
fn push_dropped(out: &mut String, device: Device, fault: ChangeFault) -> Result<(), Memory>
    ensures { OnOk result (string_bytes out.new
        ≡ string_bytes out.old ++ submit_line device 0 0 (Ok (Submitted.Dropped fault))) }
{
    push_start(out, device, " submit dropped ")?;
    out.push_str(fault.name())?;
    out.push_str("\n")
}

// The line of a submission that is refused. A disk in memory fails only if it finds no memory,
// which is then the answer.
fn push_unsubmitted(out: &mut String, device: Device, fault: SubmitFault) -> Result<(), Memory>
    ensures line { OnOk result
        (string_bytes out.new ≡ string_bytes out.old ++ submit_line device 0 0 (Err fault)) }
    ensures named { OnOk result (fault ≢ SubmitFault.Memory) }
    ensures no_disk { OnOk result (fault ≢ SubmitFault.LeafFault) }
{
    match fault {
        SubmitFault::LeafFault => Err(AllocError),
        _ => push_refused(out, device, fault),
    }
}

fn push_refused(out: &mut String, device: Device, fault: SubmitFault) -> Result<(), Memory>
    ensures line { OnOk result
        (string_bytes out.new ≡ string_bytes out.old ++ submit_line device 0 0 (Err fault)) }
    ensures named { OnOk result (fault ≢ SubmitFault.Memory) }
{
    push_start(out, device, " submit refused ")?;
    push_submit_fault(out, fault)?;
    out.push_str("\n")
}

// ---- what is handed out, and going back

/// Hands a client an entry as the one at a position, if there is one.
pub fn give(
    seat: &mut Seat,
    give: &Give,
    entry: Option<&[u8]>,
    out: &mut String,
) -> Result<(), Memory>
    ensures line { OnOk result
        (string_bytes out.new ≡ string_bytes out.old ++ line_by give.now.device (plain_in seat.old)
        (λ c. give_line give.now.device give.now.position c (option_copied entry.entry))) }
    ensures seat { OnOk result
        (seat.new ≡ seat_logged (given_by give.now.position (option_copied entry.entry)) seat.old) }
{
    let Some(client) = &mut seat.client else {
        return push_not_open(out, give.device);
    };
    match entry {
        Some(entry) => give_client(client, give, entry, out),
        None => push_given(out, give, " no entry\n"),
    }
}

fn give_client(
    client: &mut PlayClient,
    give: &Give,
    entry: &[u8],
    out: &mut String,
) -> Result<(), Memory>
    ensures line { OnOk result (string_bytes out.new ≡ string_bytes out.old
        ++ give_line give.now.device give.now.position (state_of client.old) (Some entry.now)) }
    ensures log { OnOk result
        (client.new ≡ client_logged (λ c. given_events c give.now.position entry.now) client.old) }
{
    match client.accept(0, give.position, entry) {
        Ok(_) => push_given(out, give, " ok\n"),
        Err(fault) => {
            push_given(out, give, " refused ")?;
            push_accept_fault(out, fault)?;
            out.push_str("\n")
        }
    }
}

// Appends who is handed an entry at which position, and these words.
fn push_given(out: &mut String, give: &Give, words: &str) -> Result<(), Memory>
    ensures { OnOk result
        (string_bytes out.new ≡ string_bytes out.old ++ (device_text give.now.device
        ++ (codes " accept " ++ (decimal give.now.position ++ words.now)))) }
{
    let position = give.position;
    push_device(out, give.device)?;
    write!(out, " accept {position}{words}")
}

/// Goes back to the first entries.
pub fn restart(seat: &mut Seat, restart: &Restart, out: &mut String) -> Result<(), Memory>
    ensures line { OnOk result
        (string_bytes out.new ≡ string_bytes out.old ++ line_by restart.now.device
        (plain_in seat.old) (restart_line restart.now.device restart.now.entries)) }
    ensures seat { OnOk result (seat.new ≡ seat_restarted restart.now.entries seat.old) }
{
    let Some(client) = &mut seat.client else {
        return push_not_open(out, restart.device);
    };
    match restart_to(client, restart.entries) {
        Ok(()) => push_restarted(out, restart),
        Err(RestartFault::Ahead(len)) => push_ahead(out, restart, len),
        Err(RestartFault::Memory) => Err(AllocError),
    }
}

fn push_restarted(out: &mut String, restart: &Restart) -> Result<(), Memory>
    ensures { OnOk result (string_bytes out.new
        ≡ string_bytes out.old ++ restart_answer false restart.now.device restart.now.entries 0) }
{
    let k = restart.entries;
    push_device(out, restart.device)?;
    writeln!(out, " restart {k} ok")
}

fn push_ahead(out: &mut String, restart: &Restart, len: u32) -> Result<(), Memory>
    ensures { OnOk result (string_bytes out.new
        ≡ string_bytes out.old ++ restart_answer true restart.now.device restart.now.entries len) }
{
    let k = restart.entries;
    push_device(out, restart.device)?;
    writeln!(out, " restart {k} ahead {len}")
}

// Goes back to the first entries, also by a number that no history reaches.
fn restart_to(client: &mut PlayClient, k: u64) -> Result<(), RestartFault>
    ensures fault { AnswersUnless RestartFault.Memory result
        (restart_fault (state_of client.old) k) }
    ensures ok { OnOk result (client.new
        ≡ record client.old { log = log_of_first k (state_of client.old) }) }
    ensures unchanged { OnErr result (client.new ≡ client.old) }
{
    match u32::try_from(k) {
        Ok(k) => client.restart(k),
        Err(_) => Err(RestartFault::Ahead(client.heads().len())),
    }
}
