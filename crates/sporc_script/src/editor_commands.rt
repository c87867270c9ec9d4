//! One line of an editor script, read.

ghost use Rattle.std.specs.Prelude.{◌≡◌, IfOk};
ghost use Rattle.sporc_script.specs.EditorLines.{editor_of, editor_with, key_of_word};
ghost use Rattle.sporc_script.specs.EditorLines.{new_device_of, newcomer_of};

use crate::editor_line::{EditorCommand, EditorWord, KEY_BYTES};
use crate::edits::{read_insertion, read_removal};
use crate::hex_word::parse_hex;
use crate::names::{parse_editor_word, parse_role};
use crate::plain::{read_member_device, read_member_role};
use crate::words::{cut, parse_device_number, parse_member};
use sporc_base::{Memory, is_same};
use sporc_member::{Device, Founder, KeyedDevice};
use std::alloc::Global;

/// The command that the whole line of an editor script spells, if there is one.
#[tactic(auto, unfolding(crate::specs::EditorLines::editor_of))]
pub fn read_editor_command(alloc: Global, line: &[u8]) -> Result<Option<EditorCommand>, Memory>
    ensures ok { IfOk result (λ found. found ≡ editor_of line.now) }
{
    if is_same(line, b"upgrade") {
        return Ok(Some(EditorCommand::Upgrade));
    }
    let Some((first, words)) = cut(line) else {
        return Ok(None);
    };
    let Some(word) = parse_editor_word(first) else {
        return Ok(None);
    };
    read_editor_words(alloc, word, words)
}

// What follows the first word.
fn read_editor_words(
    alloc: Global,
    word: EditorWord,
    words: &[u8],
) -> Result<Option<EditorCommand>, Memory>
    ensures { IfOk result (λ found. found ≡ editor_with word words.now) }
{
    let command = match word {
        EditorWord::Insert => read_insertion(alloc, words)?.map(EditorCommand::Insert),
        EditorWord::Add => read_newcomer(alloc, words)?.map(EditorCommand::Add),
        EditorWord::Remove => read_removal(words).map(EditorCommand::Remove),
        EditorWord::Drop => parse_member(words).map(EditorCommand::Drop),
        EditorWord::Role => read_member_role(words).map(EditorCommand::SetRole),
        EditorWord::Device => read_new_device(alloc, words)?.map(EditorCommand::AddDevice),
        EditorWord::DropDevice => read_member_device(words).map(EditorCommand::DropDevice),
    };
    Ok(command)
}

// `N ROLE HEX`
#[tactic(auto, unfolding(crate::specs::EditorLines::newcomer_of))]
fn read_newcomer(alloc: Global, words: &[u8]) -> Result<Option<Founder>, Memory>
    ensures { IfOk result (λ found. found ≡ newcomer_of words.now) }
{
    let Some((first, rest)) = cut(words) else {
        return Ok(None);
    };
    let Some(member) = parse_member(first) else {
        return Ok(None);
    };
    let Some((second, third)) = cut(rest) else {
        return Ok(None);
    };
    let Some(role) = parse_role(second) else {
        return Ok(None);
    };
    let Some(key) = parse_key(alloc, third)? else {
        return Ok(None);
    };
    Ok(Some(Founder { member, role, key }))
}

// `N D HEX`
#[tactic(auto, unfolding(crate::specs::EditorLines::new_device_of))]
fn read_new_device(alloc: Global, words: &[u8]) -> Result<Option<KeyedDevice>, Memory>
    ensures { IfOk result (λ found. found ≡ new_device_of words.now) }
{
    let Some((first, rest)) = cut(words) else {
        return Ok(None);
    };
    let Some(member) = parse_member(first) else {
        return Ok(None);
    };
    let Some((second, third)) = cut(rest) else {
        return Ok(None);
    };
    let Some(number) = parse_device_number(second) else {
        return Ok(None);
    };
    let Some(key) = parse_key(alloc, third)? else {
        return Ok(None);
    };
    let device = Device { member, number };
    Ok(Some(KeyedDevice { device, key }))
}

#[tactic(auto, unfolding(crate::specs::EditorLines::key_of_word))]
fn parse_key(alloc: Global, word: &[u8]) -> Result<Option<[u8; 56]>, Memory>
    ensures { IfOk result (λ found. found ≡ key_of_word word.now) }
{
    let Some(bytes) = parse_hex(alloc, word)? else {
        return Ok(None);
    };
    let bytes = bytes.as_slice();
    if bytes.len() != KEY_BYTES {
        return Ok(None);
    }
    let mut key = [0; KEY_BYTES];
    key.copy_from_slice(bytes);
    Ok(Some(key))
}
