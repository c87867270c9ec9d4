//! `help`, `help COMMAND`, `COMMAND --help` and `version`: these words and no more.

ghost use Rattle.std.specs.Prelude.{◌≡◌, map, string_bytes};
ghost use Rattle.sporc_words.specs.Help.{asks_overview, asks_version, help_in, of_both, of_one};
ghost use Rattle.sporc_words.specs.Help.{page_of};

use crate::command::Command;
use crate::page::Page;
use crate::words::parse_verb;

/// The page that a whole command line asks for, or the version.
#[tactic(auto, unfolding(crate::specs::Help::help_in))]
pub fn read_help(words: &[String]) -> Option<Command>
    ensures value { result ≡ help_in (map (λ w. string_bytes w) words.now) }
{
    match words {
        [word] => of_one(word.as_str()),
        [first, second] => of_both(first.as_str(), second.as_str()),
        _ => None,
    }
}

// What one word asks for.
fn of_one(word: &str) -> Option<Command>
    ensures value { result ≡ of_one word.now }
{
    if asks_overview(word) {
        return Some(Command::Help(Page::Overview));
    }
    if asks_version(word) {
        return Some(Command::Version);
    }
    None
}

fn asks_overview(word: &str) -> bool
    ensures value { result ≡ asks_overview word.now }
{
    word == "help" || word == "--help" || word == "-h"
}

fn asks_version(word: &str) -> bool
    ensures value { result ≡ asks_version word.now }
{
    word == "version" || word == "--version"
}

// What two words ask for.
fn of_both(first: &str, second: &str) -> Option<Command>
    ensures value { result ≡ of_both first.now second.now }
{
    if second == "--help" {
        return page_of(first).map(Command::Help);
    }
    if first == "help" {
        return page_of(second).map(Command::Help);
    }
    None
}

// The page of a command.
fn page_of(word: &str) -> Option<Page>
    ensures value { result ≡ page_of word.now }
{
    if word == "help" {
        return Some(Page::Help);
    }
    if word == "version" {
        return Some(Page::Version);
    }
    parse_verb(word).map(Page::Of)
}
