//! The values of arguments, as `clap` finds them.

ghost use Rattle.std.specs.Prelude.{◌≡◌, true, map, IfOk, option_map, string_bytes};
ghost use Rattle.clap.specs.Walk.{texts};
ghost use Rattle.clap.specs.Words.{all_of, first_of, found_of, is_simple_and_free, rows_of};
ghost use Rattle.sporc_words.specs.Arguments.{grammar_of, taken};

use clap::error::ErrorKind;
use clap::{ArgMatches, Command};
use sporc_base::Memory;
use std::alloc::AllocError;

/// The values of the command's arguments among these words, of which the first is the command's
/// name. `None` if the words are no such command.
pub fn read_matches<'a>(
    command: Command<'a>,
    words: &'a [String],
) -> Result<Option<ArgMatches<'a>>, Memory>
    requires { is_simple_and_free (grammar_of command) ≡ true }
    ensures ok { IfOk result (λ found. option_map (λ m. rows_of (found_of m)) found
        ≡ taken (grammar_of command.entry) (map (λ w. string_bytes w) words.entry.now)) }
{
    match command.try_get_matches_from(words) {
        Ok(matches) => Ok(Some(matches)),
        Err(error) => match error.kind() {
            ErrorKind::OutOfMemory => Err(AllocError),
            _ => Ok(None),
        },
    }
}

/// The value of an argument, if it has one.
pub fn value<'a>(matches: &ArgMatches<'a>, id: &str) -> Option<&'a str>
    ensures value { option_map (λ v. v.now) result
        ≡ first_of id.now (rows_of (found_of matches.now)) }
{
    matches.get_str(id)
}

/// The values of an argument that may come any number of times, if it has some.
pub fn values<'a, 'b>(matches: &'b ArgMatches<'a>, id: &str) -> Option<&'b [&'a str]>
    ensures value { option_map (λ s. texts s.now) result
        ≡ all_of id.now (rows_of (found_of matches.now)) }
{
    matches.get_strs(id)
}
