//! One line of a play script, read.

ghost use Rattle.std.specs.Prelude.{◌≡◌, IfOk};
ghost use Rattle.sporc_script.specs.Commands.{command_of, command_with};

use crate::command::{Command, Keyword};
use crate::edits::{read_edit, read_roster_edit};
use crate::names::parse_keyword;
use crate::numbers::read_join;
use crate::plain::{
    read_flip, read_further_device, read_give, read_member_role, read_restart, read_tree,
    read_two_devices, read_two_members,
};
use crate::signs::read_forgery;
use crate::words::{cut, parse_device, parse_member, parse_u64};
use sporc_base::Memory;
use std::alloc::Global;

// The command that the whole line spells, if there is one.
#[tactic(auto, unfolding(crate::specs::Commands::command_of))]
pub fn read_command(alloc: Global, line: &[u8]) -> Result<Option<Command>, Memory>
    ensures ok { IfOk result (λ found. found ≡ command_of line.now) }
{
    let Some((first, words)) = cut(line) else {
        return Ok(None);
    };
    let Some(keyword) = parse_keyword(first) else {
        return Ok(None);
    };
    read_words(alloc, keyword, words)
}

// What follows the first word.
fn read_words(alloc: Global, keyword: Keyword, words: &[u8]) -> Result<Option<Command>, Memory>
    ensures { IfOk result (λ found. found ≡ command_with keyword words.now) }
{
    let command = match keyword {
        Keyword::Tree => read_tree(words).map(Command::Tree),
        Keyword::Member => read_member_role(words).map(Command::Member),
        Keyword::Rogue => read_member_role(words).map(Command::Rogue),
        Keyword::Joiner => parse_member(words).map(Command::Joiner),
        Keyword::Unpaired => read_two_members(words).map(Command::Unpaired),
        Keyword::Edit => read_edit(alloc, words)?.map(Command::Edit),
        Keyword::Change => read_roster_edit(words).map(Command::Change),
        Keyword::Discard => parse_device(words).map(Command::Discard),
        Keyword::Submit => parse_device(words).map(Command::Submit),
        Keyword::Give => read_give(words).map(Command::Give),
        Keyword::Restart => read_restart(words).map(Command::Restart),
        Keyword::Join => read_join(alloc, words)?.map(Command::Join),
        Keyword::Show => parse_device(words).map(Command::Show),
        Keyword::Members => parse_device(words).map(Command::Members),
        Keyword::Hash => parse_device(words).map(Command::Hash),
        Keyword::Journal => parse_device(words).map(Command::Journal),
        Keyword::Compare => read_two_devices(words).map(Command::Compare),
        Keyword::Flip => read_flip(words).map(Command::Flip),
        Keyword::Cut => parse_u64(words).map(Command::Cut),
        Keyword::Sign => read_forgery(alloc, words)?.map(Command::Sign),
        Keyword::Device => read_further_device(words).map(Command::Device),
    };
    Ok(command)
}
