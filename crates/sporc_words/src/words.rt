//! Reading all words.

ghost use Rattle.std.specs.Prelude.{◌≡◌, map, IfOk, Err, None, Some};
ghost use Rattle.std.specs.Prelude.{string_bytes};
ghost use Rattle.sporc_words.specs.declared.fault.WordsFault.{WordsFault};
ghost use Rattle.sporc_words.specs.Arguments.{grammar_of};
ghost use Rattle.sporc_words.specs.Commands.{command_by, command_of, work_in};
ghost use Rattle.sporc_words.specs.Verbs.{app_for, verb_of};

use crate::arguments::command_with;
use crate::command::{Command, VERBS, Verb};
use crate::fault::WordsFault;
use crate::help::read_help;
use crate::matches::read_matches;
use sporc_base::Memory;
use std::alloc::Global;

/// What the words after the program's name ask for.
pub fn read_words(alloc: Global, words: &[String]) -> Result<Command, WordsFault>
    ensures ok { IfOk result
        (λ command. command_of (map (λ w. string_bytes w) words.now) ≡ Some command) }
    ensures err { result ≡ Err WordsFault.Words
        → command_of (map (λ w. string_bytes w) words.now) ≡ None }
{
    match find_command(alloc, words)? {
        Some(command) => Ok(command),
        None => Err(WordsFault::Words),
    }
}

// The command, if there is one.
#[tactic(auto, unfolding(crate::specs::Commands::command_of))]
fn find_command(alloc: Global, words: &[String]) -> Result<Option<Command>, Memory>
    ensures ok { IfOk result (λ found. found ≡ command_of (map (λ w. string_bytes w) words.now)) }
{
    match read_help(words) {
        Some(command) => Ok(Some(command)),
        None => find_work(alloc, words),
    }
}

// What they ask for, by the command that the first names.
#[tactic(auto, unfolding(crate::specs::Commands::work_in))]
fn find_work(alloc: Global, words: &[String]) -> Result<Option<Command>, Memory>
    ensures ok { IfOk result (λ found. found ≡ work_in (map (λ w. string_bytes w) words.now)) }
{
    let Some(first) = words.first() else {
        return Ok(None);
    };
    let Some(verb) = parse_verb(first.as_str()) else {
        return Ok(None);
    };
    read_by(alloc, verb, words)
}

// The command of this verb, from all words: its arguments first, and then what is made of their
// values.
#[tactic(auto, unfolding(crate::specs::Commands::command_by))]
fn read_by(alloc: Global, verb: Verb, words: &[String]) -> Result<Option<Command>, Memory>
    ensures ok { IfOk result
        (λ found. found ≡ command_by verb (map (λ w. string_bytes w) words.now)) }
{
    let command = command_for(alloc, verb)?;
    let Some(matches) = read_matches(command, words)? else {
        return Ok(None);
    };
    verb.read(alloc, &matches)
}

// What `clap` is told of the command.
fn command_for<'a>(alloc: Global, verb: Verb) -> Result<clap::Command<'a>, Memory>
    ensures ok { IfOk result (λ c. grammar_of c ≡ app_for verb) }
{
    let row = verb.row();
    let word: &'a str = row.word;
    command_with(alloc, word, row.arguments)
}

// The command that a word names.
#[tactic(auto, unfolding(crate::specs::Verbs::verb_of))]
pub(crate) fn parse_verb(word: &str) -> Option<Verb>
    ensures value { result ≡ verb_of word.now }
{
    VERBS.iter().copied().find(|verb| verb.row().word == word)
}
