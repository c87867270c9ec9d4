//! Laws over the definitions that contracts cite. Their functions do nothing.

ghost use Rattle.std.specs.Prelude.{◌≡◌, ℕ, List, Some};
ghost use Rattle.sporc_words.specs.declared.command.Command.{Command};
ghost use Rattle.sporc_words.specs.Commands.{command_of, work_in};

use crate::defaults::{DEFAULT_FROM, DEFAULT_ROUNDS, DEFAULT_TIMES, DEFAULT_UNTIL};

/// The numbers behind the names.
pub fn defaults()
    ensures rounds { DEFAULT_ROUNDS ≡ 64 }
    ensures until { DEFAULT_UNTIL ≡ 0 }
    ensures from { DEFAULT_FROM ≡ 1 }
    ensures times { DEFAULT_TIMES ≡ 1 }
{}

/// Words that a command reads as its own ask for that command, also where they ask for help.
pub fn help_takes_no_line_of_a_command()
    ensures asked { (words : List (List ℕ)) (asked : Command) → work_in words ≡ Some asked
        → command_of words ≡ Some asked }
{}
