//! What an editor asks for, read.

ghost use Rattle.std.specs.Prelude.{◌≡◌, IfNone, IfOk, IfSome};
ghost use Rattle.sporc_editor.specs.AskedLines.{SpellsAsked, asked_alone_of, asked_change_of};
ghost use Rattle.sporc_editor.specs.AskedLines.{asked_insertion_of, asked_of, asked_removal_of};
ghost use Rattle.sporc_editor.specs.AskedLines.{change_of};
ghost use Rattle.sporc_editor.specs.declared.asked.Asked.{Asked};

use crate::asked::Asked;
use sporc_base::{Memory, is_same};
use sporc_member::Change;
use sporc_script::{
    EditorCommand, cut, parse_u64, read_editor_command, read_insertion, read_removal,
};
use std::alloc::Global;

/// What the whole line asks for, if it is in the grammar of an editor's lines. A line that
/// [`sporc_script::is_skipped`] is not.
pub fn read_asked(alloc: Global, line: &[u8]) -> Result<Option<Asked>, Memory>
    ensures some { IfOk result (λ found. IfSome found (λ asked. SpellsAsked line.now asked)) }
    ensures none { IfOk result
        (λ found. IfNone found ((asked : Asked) → ¬ SpellsAsked line.now asked)) }
{
    let found = read_line(alloc, line)?;
    Ok(found)
}

#[tactic(auto, unfolding(crate::specs::AskedLines::asked_of))]
fn read_line(alloc: Global, line: &[u8]) -> Result<Option<Asked>, Memory>
    ensures { IfOk result (λ found. found ≡ asked_of line.now) }
{
    let Some((first, words)) = cut(line) else {
        return read_alone(alloc, line);
    };
    if is_same(first, b"insert") {
        return read_asked_insertion(alloc, words);
    }
    if is_same(first, b"remove") {
        return Ok(read_asked_removal(words));
    }
    read_change(alloc, line)
}

// A line that is one word.
fn read_alone(alloc: Global, line: &[u8]) -> Result<Option<Asked>, Memory>
    ensures { IfOk result (λ found. found ≡ asked_alone_of line.now) }
{
    if is_same(line, b"pull") {
        return Ok(Some(Asked::Pull));
    }
    if is_same(line, b"sync") {
        return Ok(Some(Asked::Sync));
    }
    if is_same(line, b"text") {
        return Ok(Some(Asked::Text));
    }
    if is_same(line, b"save") {
        return Ok(Some(Asked::Save));
    }
    read_change(alloc, line)
}

// `SEEN AT TEXT`
#[tactic(auto, unfolding(crate::specs::AskedLines::asked_insertion_of))]
fn read_asked_insertion(alloc: Global, words: &[u8]) -> Result<Option<Asked>, Memory>
    ensures { IfOk result (λ found. found ≡ asked_insertion_of words.now) }
{
    let Some((first, rest)) = cut(words) else {
        return Ok(None);
    };
    let Some(seen) = parse_u64(first) else {
        return Ok(None);
    };
    let Some(insertion) = read_insertion(alloc, rest)? else {
        return Ok(None);
    };
    Ok(Some(Asked::Insert { seen, insertion }))
}

// `SEEN AT COUNT`
#[tactic(auto, unfolding(crate::specs::AskedLines::asked_removal_of))]
fn read_asked_removal(words: &[u8]) -> Option<Asked>
    ensures { result ≡ asked_removal_of words.now }
{
    let (first, rest) = cut(words)?;
    let seen = parse_u64(first)?;
    let removal = read_removal(rest)?;
    Some(Asked::Remove { seen, removal })
}

// A line of an editor script that asks for a change.
#[tactic(auto, unfolding(crate::specs::AskedLines::asked_change_of))]
fn read_change(alloc: Global, line: &[u8]) -> Result<Option<Asked>, Memory>
    ensures { IfOk result (λ found. found ≡ asked_change_of line.now) }
{
    let Some(command) = read_editor_command(alloc, line)? else {
        return Ok(None);
    };
    let Some(change) = change_of(&command) else {
        return Ok(None);
    };
    Ok(Some(Asked::Change(change)))
}

// The change that a line of an editor script asks for, if it does not ask for an edit.
fn change_of(command: &EditorCommand) -> Option<Change>
    ensures { result ≡ change_of command.now }
{
    match command {
        EditorCommand::Insert(_) | EditorCommand::Remove(_) => None,
        EditorCommand::Add(founder) => Some(Change::Add {
            member: founder.member,
            role: founder.role,
            key: founder.key,
        }),
        EditorCommand::Drop(member) => Some(Change::Remove { member: *member }),
        EditorCommand::SetRole(set) => Some(Change::SetRole {
            member: set.member,
            role: set.role,
        }),
        EditorCommand::AddDevice(live) => Some(Change::AddDevice {
            member: live.device.member,
            device: live.device.number,
            key: live.key,
        }),
        EditorCommand::DropDevice(device) => Some(Change::DropDevice {
            member: device.member,
            device: device.number,
        }),
        EditorCommand::Upgrade => Some(Change::Upgrade),
    }
}
