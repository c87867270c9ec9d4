//! `check NAME M`.

ghost use Rattle.std.specs.Prelude.{◌≡◌, IfOk};
ghost use Rattle.clap.specs.Words.{found_of, rows_of};
ghost use Rattle.sporc_words.specs.Verbs.{check_in};

use crate::arguments::Kind;
use crate::matches::value;
use crate::values::device_value;
use crate::word::Word;
use clap::ArgMatches;
use sporc_base::Memory;
use sporc_member::Device;
use std::alloc::Global;

/// Its first word.
pub const WORD: &str = "check";

/// Its arguments, in their order.
pub const ARGUMENTS: &[(Kind, &str)] = &[(Kind::Positional, "NAME"), (Kind::Positional, "M")];

/// Its page of the help.
pub const PAGE: &str = "\
sporc check NAME M

Checks every entry of a device's saved history, signatures and keys too, as
the device's client does, and prints how many entries there are.

  NAME  the document's name: the path that its files' names begin with
  M     the member's number, 1 to 65535, for its first device; M.D for a
        further one, D from 1 to 255

Files: reads NAME.genesis, NAME.M.key, NAME.M.ring and NAME.M.history; for
M.D NAME.M.D.key and NAME.M.D.history in place of the device's two.

Example:

  sporc check trip 2

Statuses:

  0  every entry is right
  1  memory ran out
  2  the words are not these, or one is out of its range
  3  a file is missing, too long or malformed
  4  an entry fails a check, or the keys do not open the document
  6  a file or standard output failed
";

/// What `check` is asked for.
#[derive(Drop)]
pub struct Check {
    /// The document's name.
    pub name: Word,
    /// The device.
    pub device: Device,
}

/// What is asked for, by the values of the arguments.
pub fn check_from(alloc: Global, matches: &ArgMatches<'_>) -> Result<Option<Check>, Memory>
    ensures ok { IfOk result (λ found. found ≡ check_in (rows_of (found_of matches.now))) }
{
    let Some(name) = value(matches, "NAME") else {
        return Ok(None);
    };
    let Some(device) = device_value(matches, "M") else {
        return Ok(None);
    };
    let name = Word::new(alloc, name)?;
    Ok(Some(Check { name, device }))
}
