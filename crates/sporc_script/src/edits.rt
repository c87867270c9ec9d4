//! Edits of the text and of the members, read.

ghost use Rattle.std.specs.Prelude.{◌≡◌, IfOk, Some, option_map};
ghost use Rattle.sporc_script.specs.Edits.{edit_of, insertion_of, removal_of, roster_change_of};
ghost use Rattle.sporc_script.specs.Edits.{roster_edit_of, stated_of, text_edit_of};
ghost use Rattle.sporc_script.specs.Readers.{pair_of};
ghost use Rattle.sporc_script.specs.Words.{number_of};

use crate::command::{Edit, RosterEdit};
use crate::names::{parse_roster_word, parse_text_word};
use crate::plain::{read_member_device, read_member_role};
use crate::quoted::parse_text;
use crate::roster_change::{RosterChange, RosterWord};
use crate::text_edit::{Insertion, Removal, TextEdit, TextWord};
use crate::words::{cut, parse_device, parse_member, parse_u64};
use sporc_base::{Memory, is_same};
use std::alloc::Global;

// `C insert ..`, `C remove ..` or one of these behind `C seen S`
#[tactic(auto, unfolding(crate::specs::Edits::edit_of))]
pub fn read_edit(alloc: Global, words: &[u8]) -> Result<Option<Edit>, Memory>
    ensures ok { IfOk result (λ found. found ≡ edit_of words.now) }
{
    let Some((first, rest)) = cut(words) else {
        return Ok(None);
    };
    let Some(device) = parse_device(first) else {
        return Ok(None);
    };
    let Some(stated) = read_stated(alloc, rest)? else {
        return Ok(None);
    };
    Ok(Some(Edit {
        device,
        seen: stated.0,
        change: stated.1,
    }))
}

// An edit, and how many events its author has seen, if that stands before it.
#[tactic(auto, unfolding(crate::specs::Edits::stated_of))]
fn read_stated(alloc: Global, words: &[u8]) -> Result<Option<(Option<u64>, TextEdit)>, Memory>
    ensures { IfOk result (λ found. found ≡ stated_of words.now) }
{
    let Some((first, rest)) = cut(words) else {
        return Ok(None);
    };
    if is_same(first, b"seen") {
        return read_seen(alloc, rest);
    }
    let Some(change) = read_text_edit(alloc, words)? else {
        return Ok(None);
    };
    Ok(Some((None, change)))
}

// `S`, and an edit
fn read_seen(alloc: Global, words: &[u8]) -> Result<Option<(Option<u64>, TextEdit)>, Memory>
    ensures { IfOk result (λ found. found
        ≡ option_map (λ p. (Some p.0, p.1)) (pair_of number_of text_edit_of words.now)) }
{
    let Some((first, rest)) = cut(words) else {
        return Ok(None);
    };
    let Some(seen) = parse_u64(first) else {
        return Ok(None);
    };
    let Some(change) = read_text_edit(alloc, rest)? else {
        return Ok(None);
    };
    Ok(Some((Some(seen), change)))
}

// `insert AT TEXT` or `remove AT COUNT`
#[tactic(auto, unfolding(crate::specs::Edits::text_edit_of))]
pub fn read_text_edit(alloc: Global, words: &[u8]) -> Result<Option<TextEdit>, Memory>
    ensures ok { IfOk result (λ found. found ≡ text_edit_of words.now) }
{
    let Some((first, rest)) = cut(words) else {
        return Ok(None);
    };
    let Some(word) = parse_text_word(first) else {
        return Ok(None);
    };
    match word {
        TextWord::Insert => match read_insertion(alloc, rest)? {
            Some(insertion) => Ok(Some(TextEdit::Insert(insertion))),
            None => Ok(None),
        },
        TextWord::Remove => match read_removal(rest) {
            Some(removal) => Ok(Some(TextEdit::Remove(removal))),
            None => Ok(None),
        },
    }
}

/// What `AT TEXT` spells, if the words are that.
#[tactic(auto, unfolding(crate::specs::Edits::insertion_of))]
pub fn read_insertion(alloc: Global, words: &[u8]) -> Result<Option<Insertion>, Memory>
    ensures ok { IfOk result (λ found. found ≡ insertion_of words.now) }
{
    let Some((first, second)) = cut(words) else {
        return Ok(None);
    };
    let Some(at) = parse_u64(first) else {
        return Ok(None);
    };
    let Some(text) = parse_text(alloc, second)? else {
        return Ok(None);
    };
    Ok(Some(Insertion { at, text }))
}

/// What `AT COUNT` spells, if the words are that.
#[tactic(auto, unfolding(crate::specs::Edits::removal_of))]
pub fn read_removal(words: &[u8]) -> Option<Removal>
    ensures value { result ≡ removal_of words.now }
{
    let (first, second) = cut(words)?;
    let at = parse_u64(first)?;
    let count = parse_u64(second)?;
    Some(Removal { at, count })
}

// `C ..` with a change
#[tactic(auto, unfolding(crate::specs::Edits::roster_edit_of))]
pub fn read_roster_edit(words: &[u8]) -> Option<RosterEdit>
    ensures value { result ≡ roster_edit_of words.now }
{
    let (first, rest) = cut(words)?;
    let device = parse_device(first)?;
    let change = read_roster_change(rest)?;
    Some(RosterEdit { device, change })
}

// `add N ROLE`, `remove N`, `role N ROLE`, `device N D`, `drop-device N D` or `upgrade`
#[tactic(auto, unfolding(crate::specs::Edits::roster_change_of))]
fn read_roster_change(words: &[u8]) -> Option<RosterChange>
    ensures { result ≡ roster_change_of words.now }
{
    if is_same(words, b"upgrade") {
        return Some(RosterChange::Upgrade);
    }
    let (first, rest) = cut(words)?;
    match parse_roster_word(first)? {
        RosterWord::Add => Some(RosterChange::Add(read_member_role(rest)?)),
        RosterWord::Remove => Some(RosterChange::Remove(parse_member(rest)?)),
        RosterWord::Role => Some(RosterChange::SetRole(read_member_role(rest)?)),
        RosterWord::Device => Some(RosterChange::AddDevice(read_member_device(rest)?)),
        RosterWord::DropDevice => Some(RosterChange::DropDevice(read_member_device(rest)?)),
    }
}
