//! An editor's lines.

ghost use Rattle.std.specs.Prelude.{◌≡◌, ◌-◌, ◌≤◌, min, [], IfErr, IfOk};
ghost use Rattle.std.specs.Result.{result_err};
ghost use Rattle.sporc_member.specs.declared.change.Change.TheVariants.{Add, SetRole, AddDevice};
ghost use Rattle.sporc_member.specs.declared.change.Change.TheVariants.{DropDevice};
ghost use Rattle.sporc_script.specs.declared.editor_line.EditorCommand.TheVariants as commands;
ghost use Rattle.sporc_script.specs.EditorLines.{AreShort, IsShort};
ghost use Rattle.sporc_turn.specs.Passes.{known_of};
ghost use Rattle.sporc_delta.specs.declared.limits.TheConstants.{MAX_COUNT};
ghost use Rattle.sporc_delta.specs.Marks.{base_len, insertion, removal};
ghost use Rattle.sporc_shared.specs.Passes.{IsPassOf};
ghost use Rattle.sporc_session.specs.Traces.{CountsSame, KnowsMore};
ghost use Rattle.sporc_session.specs.Editing.{AskedDid, IsAtFront, IsWornFault, LineDid, LinesDid};
ghost use Rattle.sporc_session.specs.Editing.{StatedDid, seen_of};
ghost use Rattle.sporc_session.specs.Lines.{Changes, asked_by};
ghost use Rattle.sporc_session.specs.Replies.{HasReadFor, edited_of};

use crate::context::Context;
use crate::fault::SessionFault;
use crate::receiver::{WithPass, plain};
use sporc_base::Memory;
use sporc_client::EditFault;
use sporc_delta::Delta;
use sporc_member::{Change, Device, Founder, KeyedDevice};
use sporc_outside::{Gate, LeafDisk};
use sporc_script::{EditorCommand, EditorLine, Insertion, MemberRole, Removal};
use sporc_shared::{Answered, Front, Look, Pass, Reply};
use sporc_turn::Worn;
use std::alloc::Global;
use std::sync::Wait;

// The fault of a session in which a line isn't done.
fn edited(editor: u32, line: u32, answer: Result<u64, EditFault>) -> Result<(), SessionFault>
    ensures { result ≡ edited_of editor line answer }
{
    match answer {
        Ok(_) => Ok(()),
        Err(EditFault::JournalFull) => Err(SessionFault::JournalFull),
        Err(EditFault::Memory) => Err(SessionFault::Memory),
        Err(fault) => Err(SessionFault::EditRefused(editor, line, fault)),
    }
}

// The client as it is now: a front, and how many characters it then showed.
#[derive(Clone, Copy)]
pub(crate) struct Seen {
    pub front: Front,
    pub len: u64,
}

// What a look shows, or that no ticket was left, and the pass.
fn looked(reply: Reply<Look>) -> WithPass<Seen>
    ensures { result ≡ seen_of reply }
{
    match reply {
        Ok(
            Answered {
                answer,
                front,
                pass,
            },
        ) => {
            let len = answer.len;
            (Ok(Seen { front, len }), pass)
        }
        Err((pass, Worn(ticket))) => (Err(SessionFault::Worn(ticket)), pass),
    }
}

// Sees the client.
fn see<R: Wait, D: LeafDisk, G>(context: &Context<'_, R, D, G>, pass: Pass) -> WithPass<Seen>
    requires lock { IsPassOf context.now.shared.now pass }
    ensures lock { IsPassOf context.now.shared.now result.1 }
    ensures counts { CountsSame (known_of pass) (known_of result.1) }
    ensures knows { KnowsMore (known_of pass) (known_of result.1) [] }
    ensures ok { IfOk result.0 (λ seen. IsAtFront (known_of result.1) seen.front.events seen.len) }
    ensures err { IfErr result.0 IsWornFault }
    ensures read { IfErr result.0 (HasReadFor result.1) }
{
    looked(context.shared.look(context.rt, pass))
}

// Edits the text that was seen last.
fn edit_at<R: Wait, D: LeafDisk, G>(
    context: &Context<'_, R, D, G>,
    pass: Pass,
    line: u32,
    seen: Seen,
    delta: &Delta,
) -> WithPass<()>
    requires lock { IsPassOf context.now.shared.now pass }
    requires last { IsAtFront (known_of pass) seen.front.events seen.len }
    requires stated { base_len delta.now ≡ seen.len }
    ensures lock { IsPassOf context.now.shared.now result.1 }
    ensures counts { CountsSame (known_of pass) (known_of result.1) }
    ensures did { StatedDid (known_of pass)
        (known_of result.1) line seen.front.events delta.now result.0 }
    ensures read { IfErr result.0 (HasReadFor result.1) }
{
    let number = pass.number();
    let (answer, pass) = plain(context.shared.edit(context.rt, pass, seen.front, delta));
    match answer {
        Ok(answer) => (edited(number, line, answer), pass),
        Err(fault) => (Err(fault), pass),
    }
}

// The delta of an insertion into a text of this length.
fn inserted(alloc: Global, len: u64, asked: &Insertion) -> Result<Delta, Memory>
    requires limit { len ≤ MAX_COUNT }
    requires text_limit { IsShort (commands.Insert asked.now) }
    ensures ok { IfOk result
        (λ delta. delta ≡ insertion len (min asked.now.at len) asked.now.text) }
{
    let at = asked.at.min(len);
    let delta = Delta::insert_at(alloc, len, at, asked.text.as_str())?;
    Ok(delta)
}

// The delta of a removal from a text of this length.
fn removed(alloc: Global, len: u64, asked: &Removal) -> Result<Delta, Memory>
    requires { len ≤ MAX_COUNT }
    ensures ok { IfOk result (λ delta. delta
        ≡ removal len (min asked.now.at len) (min asked.now.count (len - min asked.now.at len))) }
{
    let at = asked.at.min(len);
    let count = asked.count.min(len - at);
    let delta = Delta::remove_at(alloc, len, at, count)?;
    Ok(delta)
}

// Inserts into the text that is seen now.
fn insert<R: Wait, D: LeafDisk, G>(
    context: &Context<'_, R, D, G>,
    pass: Pass,
    line: u32,
    asked: &Insertion,
) -> WithPass<()>
    requires lock { IsPassOf context.now.shared.now pass }
    requires limit { IsShort (commands.Insert asked.now) }
    ensures lock { IsPassOf context.now.shared.now result.1 }
    ensures counts { CountsSame (known_of pass) (known_of result.1) }
    ensures did { AskedDid (known_of pass) (known_of result.1) line
        (asked_by (commands.Insert asked.now)) result.0 }
    ensures read { IfErr result.0 (HasReadFor result.1) }
{
    let (found, pass) = see(context, pass);
    let seen = match found {
        Ok(seen) => seen,
        Err(fault) => return (Err(fault), pass),
    };
    let Ok(delta) = inserted(context.alloc, seen.len, asked) else {
        return (Err(SessionFault::Memory), pass);
    };
    edit_at(context, pass, line, seen, &delta)
}

// Removes from the text that is seen now.
fn remove<R: Wait, D: LeafDisk, G>(
    context: &Context<'_, R, D, G>,
    pass: Pass,
    line: u32,
    asked: &Removal,
) -> WithPass<()>
    requires lock { IsPassOf context.now.shared.now pass }
    ensures lock { IsPassOf context.now.shared.now result.1 }
    ensures counts { CountsSame (known_of pass) (known_of result.1) }
    ensures did { AskedDid (known_of pass) (known_of result.1) line
        (asked_by (commands.Remove asked.now)) result.0 }
    ensures read { IfErr result.0 (HasReadFor result.1) }
{
    let (found, pass) = see(context, pass);
    let seen = match found {
        Ok(seen) => seen,
        Err(fault) => return (Err(fault), pass),
    };
    let Ok(delta) = removed(context.alloc, seen.len, asked) else {
        return (Err(SessionFault::Memory), pass);
    };
    edit_at(context, pass, line, seen, &delta)
}

// Makes a change.
fn change<R: Wait, D: LeafDisk, G>(
    context: &Context<'_, R, D, G>,
    pass: Pass,
    line: u32,
    change: Change,
) -> WithPass<()>
    requires lock { IsPassOf context.now.shared.now pass }
    ensures lock { IsPassOf context.now.shared.now result.1 }
    ensures counts { CountsSame (known_of pass) (known_of result.1) }
    ensures did { AskedDid (known_of pass) (known_of result.1) line (Changes change) result.0 }
    ensures read { IfErr result.0 (HasReadFor result.1) }
{
    let number = pass.number();
    let (answer, pass) = plain(context.shared.change(context.rt, pass, change));
    match answer {
        Ok(answer) => (edited(number, line, answer), pass),
        Err(fault) => (Err(fault), pass),
    }
}

// Does a line.
fn do_line<R: Wait, D: LeafDisk, G: Gate>(
    context: &Context<'_, R, D, G>,
    pass: Pass,
    line: &EditorLine,
) -> WithPass<()>
    requires lock { IsPassOf context.now.shared.now pass }
    requires limit { IsShort line.now.command }
    ensures lock { IsPassOf context.now.shared.now result.1 }
    ensures counts { CountsSame (known_of pass) (known_of result.1) }
    ensures did { LineDid (known_of pass) (known_of result.1) line.now result.0 }
    ensures read { IfErr result.0 (HasReadFor result.1) }
{
    let number = line.number;
    context.gate.before_line(context.rt, pass.number(), number);
    match &line.command {
        EditorCommand::Insert(insertion) => insert(context, pass, number, insertion),
        EditorCommand::Remove(removal) => remove(context, pass, number, removal),
        EditorCommand::Add(founder) => change(context, pass, number, added(founder)),
        EditorCommand::Drop(member) => {
            let removed = Change::Remove { member: *member };
            change(context, pass, number, removed)
        }
        EditorCommand::SetRole(set) => change(context, pass, number, role_set(*set)),
        EditorCommand::AddDevice(live) => change(context, pass, number, device_added(live)),
        EditorCommand::DropDevice(device) => {
            change(context, pass, number, device_dropped(*device))
        }
        EditorCommand::Upgrade => change(context, pass, number, Change::Upgrade),
    }
}

fn added(founder: &Founder) -> Change
    ensures { result ≡ Add founder.now.member founder.now.role founder.now.key }
{
    Change::Add {
        member: founder.member,
        role: founder.role,
        key: founder.key,
    }
}

fn role_set(set: MemberRole) -> Change
    ensures { result ≡ SetRole set.member set.role }
{
    Change::SetRole {
        member: set.member,
        role: set.role,
    }
}

fn device_added(live: &KeyedDevice) -> Change
    ensures { result ≡ AddDevice live.now.device.member live.now.device.number live.now.key }
{
    Change::AddDevice {
        member: live.device.member,
        device: live.device.number,
        key: live.key,
    }
}

fn device_dropped(device: Device) -> Change
    ensures { result ≡ DropDevice device.member device.number }
{
    Change::DropDevice {
        member: device.member,
        device: device.number,
    }
}

// Does lines in order.
pub(crate) fn do_lines<R: Wait, D: LeafDisk, G: Gate>(
    context: &Context<'_, R, D, G>,
    pass: Pass,
    lines: &[EditorLine],
) -> WithPass<()>
    requires lock { IsPassOf context.now.shared.now pass }
    requires limit { AreShort lines.now }
    ensures lock { IsPassOf context.now.shared.now result.1 }
    ensures counts { CountsSame (known_of pass) (known_of result.1) }
    ensures did { LinesDid (known_of pass) (known_of result.1) lines.now (result_err result.0) }
    ensures read { IfErr result.0 (HasReadFor result.1) }
{
    let mut mine = pass;
    for line in lines {
        let (one, next) = do_line(context, mine, line);
        mine = next;
        if let Err(fault) = one {
            return (Err(fault), mine);
        }
    }
    (Ok(()), mine)
}
