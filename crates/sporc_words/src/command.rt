//! The table of the commands, and what a command line asks for.

ghost use Rattle.std.specs.Prelude.{◌≡◌};

use crate::arguments::Kind;
use crate::check::{self, Check};
use crate::client::{self, Client};
use crate::compare::{self, Compare};
use crate::entries::{self, EntriesFrom};
use crate::found::{self, Found};
use crate::keygen::{self, Keygen};
use crate::page::Page;
use crate::play;
use crate::public::{self, Public};
use crate::row::CommandRow;
use crate::serve::{self, Serve};
use crate::serve_all::{self, ServeAll};
use crate::text::{self, TextAt};
use clap::ArgMatches;
use sporc_base::Memory;
use std::alloc::Global;

/// What a command line asks for.
#[derive(Drop)]
pub enum Command {
    /// `play` performs the script on standard input.
    Play,
    /// `play --generate N` performs the generated run of so many edits, from 1 to
    /// `sporc_script::MAX_GENERATED`.
    Generate(u32),
    /// `keygen NAME M HEIGHT W` makes a device's key.
    Keygen(Keygen),
    /// `found NAME M:ROLE ..` makes a document.
    Found(Found),
    /// `serve NAME ADDRESS --sessions K --times T` serves sessions.
    Serve(Serve),
    /// `client NAME M ADDRESS --rounds R --until P SCRIPT ..` runs a session of a member's device.
    Client(Client),
    /// `check NAME M` examines a device's history.
    Check(Check),
    /// `compare NAME M N` compares the histories of two devices.
    Compare(Compare),
    /// `help`, `help COMMAND` or `COMMAND --help` shows a page of the help.
    Help(Page),
    /// `version` tells the version.
    Version,
    /// `public NAME M` prints the public key of a key that is there.
    Public(Public),
    /// `text NAME M --at POS` writes the committed text of a device's history.
    Text(TextAt),
    /// `entries NAME M --from POS` lists the entries of a device's history.
    Entries(EntriesFrom),
    /// `serve-all ADDRESS --sessions K --times T NAME ..` serves sessions of several documents.
    ServeAll(ServeAll),
}

/// The first word of a command line, but for `help` and `version`.
#[derive(Clone, Copy)]
pub enum Verb {
    Play,
    Keygen,
    Found,
    Serve,
    Client,
    Check,
    Compare,
    Public,
    Text,
    Entries,
    ServeAll,
}

/// All commands, on one screen of 24 lines and 80 columns, with room for six more.
pub const OVERVIEW: &str = "\
sporc: one text, edited by a group through a server that nobody has to trust

  keygen NAME M HEIGHT W                                    makes a member's key
  found NAME M:ROLE ..                                      founds a document
  serve NAME ADDRESS --sessions K [--times T]               serves a document
  serve-all ADDRESS --sessions K [--times T] NAME ..        serves documents
  client NAME M ADDRESS [--rounds R] [--until P] SCRIPT ..  edits as a member
  check NAME M                                              checks a history
  text NAME M [--at POS]                                    prints a text
  entries NAME M [--from POS]                               lists who wrote what
  compare NAME M N                                          compares histories
  public NAME M                                             shows a public key
  play                                                      plays a script
  play --generate EDITS                                     plays so many edits
  help [COMMAND]                                            shows a page of help
  version                                                   tells the version

Each behind the word sporc; sporc help COMMAND says what its words mean.
";

/// All of them, in the order of the overview.
pub const VERBS: [Verb; 11] = [
    Verb::Keygen,
    Verb::Found,
    Verb::Serve,
    Verb::ServeAll,
    Verb::Client,
    Verb::Check,
    Verb::Text,
    Verb::Entries,
    Verb::Compare,
    Verb::Public,
    Verb::Play,
];

impl Verb {
    ghost use Rattle.std.specs.Prelude.{◌≡◌, map, IfOk};
    ghost use Rattle.clap.specs.Words.{found_of, rows_of};
    ghost use Rattle.sporc_words.specs.Arguments.{rule_for};
    ghost use Rattle.sporc_words.specs.Verbs.{command_in, row_of};

    // What is said of the command.
    pub(crate) fn row(self) -> CommandRow
        ensures word { result.word.now ≡ (row_of self).word }
        ensures rules { map (λ a. rule_for a.0 a.1.now) result.arguments.now
            ≡ (row_of self).rules }
        ensures page { result.page.now ≡ (row_of self).page }
    {
        match self {
            Verb::Play => row_with(play::WORD, play::ARGUMENTS, play::PAGE),
            Verb::Keygen => row_with(keygen::WORD, keygen::ARGUMENTS, keygen::PAGE),
            Verb::Found => row_with(found::WORD, found::ARGUMENTS, found::PAGE),
            Verb::Serve => row_with(serve::WORD, serve::ARGUMENTS, serve::PAGE),
            Verb::Client => row_with(client::WORD, client::ARGUMENTS, client::PAGE),
            Verb::Check => row_with(check::WORD, check::ARGUMENTS, check::PAGE),
            Verb::Compare => row_with(compare::WORD, compare::ARGUMENTS, compare::PAGE),
            Verb::Public => row_with(public::WORD, public::ARGUMENTS, public::PAGE),
            Verb::Text => row_with(text::WORD, text::ARGUMENTS, text::PAGE),
            Verb::Entries => row_with(entries::WORD, entries::ARGUMENTS, entries::PAGE),
            Verb::ServeAll => row_with(serve_all::WORD, serve_all::ARGUMENTS, serve_all::PAGE),
        }
    }

    // The command, by the values of its arguments.
    pub(crate) fn read(
        self,
        alloc: Global,
        matches: &ArgMatches<'_>,
    ) -> Result<Option<Command>, Memory>
        ensures ok { IfOk result
            (λ found. found ≡ command_in self (rows_of (found_of matches.now))) }
    {
        match self {
            Verb::Play => Ok(play::play_from(matches)),
            Verb::Keygen => Ok(keygen::keygen_from(alloc, matches)?.map(Command::Keygen)),
            Verb::Found => Ok(found::found_from(alloc, matches)?.map(Command::Found)),
            Verb::Serve => Ok(serve::serve_from(alloc, matches)?.map(Command::Serve)),
            Verb::Client => Ok(client::client_from(alloc, matches)?.map(Command::Client)),
            Verb::Check => Ok(check::check_from(alloc, matches)?.map(Command::Check)),
            Verb::Compare => Ok(compare::compare_from(alloc, matches)?.map(Command::Compare)),
            Verb::Public => Ok(public::public_from(alloc, matches)?.map(Command::Public)),
            Verb::Text => Ok(text::text_from(alloc, matches)?.map(Command::Text)),
            Verb::Entries => Ok(entries::entries_from(alloc, matches)?.map(Command::Entries)),
            Verb::ServeAll => Ok(serve_all::serve_all_from(alloc, matches)?.map(Command::ServeAll)),
        }
    }
}

// A row of the table.
fn row_with(
    word: &'static str,
    arguments: &'static [(Kind, &'static str)],
    page: &'static str,
) -> CommandRow
    ensures word { result.word.now ≡ word.now }
    ensures arguments { result.arguments.now ≡ arguments.now }
    ensures page { result.page.now ≡ page.now }
{
    CommandRow {
        word,
        arguments,
        page,
    }
}
