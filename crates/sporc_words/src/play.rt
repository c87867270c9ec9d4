//! `play`, and `play --generate N`.

ghost use Rattle.std.specs.Prelude.{◌≡◌};
ghost use Rattle.clap.specs.Words.{found_of, rows_of};
ghost use Rattle.sporc_words.specs.Verbs.{play_in};

use crate::arguments::Kind;
use crate::command::Command;
use crate::matches::value;
use crate::values::parse_between;
use clap::ArgMatches;
use sporc_base::Memory;
use sporc_script::MAX_GENERATED;
use std::alloc::Global;

/// Its first word.
pub const WORD: &str = "play";

/// Its arguments, in their order.
pub const ARGUMENTS: &[(Kind, &str)] = &[(Kind::Optional, "generate")];

/// Its page of the help.
pub const PAGE: &str = "\
sporc play
sporc play --generate EDITS

Plays a script of many members and a server, which may lie, from standard
input, and prints its report; or plays a run of so many edits of three
members, and prints one line.

  EDITS  how many edits, 1 to 3000

Files: none.

Examples:

  sporc play < examples/first-edit.play
  sporc play --generate 1000

Statuses:

  0  the play is over
  1  memory ran out
  2  the words are not these, or one is out of its range
  3  the script has a line that is not valid, or is too long
  6  standard input or standard output failed
";

/// What is asked for, by the values of the arguments.
pub fn play_from(matches: &ArgMatches<'_>) -> Option<Command>
    ensures value { result ≡ play_in (rows_of (found_of matches.now)) }
{
    let Some(edits) = value(matches, "generate") else {
        return Some(Command::Play);
    };
    let edits = parse_between(edits, 1, MAX_GENERATED)?;
    Some(Command::Generate(edits))
}
