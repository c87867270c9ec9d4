//! `public NAME M`.

ghost use Rattle.std.specs.Prelude.{◌≡◌, IfOk};
ghost use Rattle.clap.specs.Words.{found_of, rows_of};
ghost use Rattle.sporc_words.specs.Verbs.{public_in};

use crate::arguments::Kind;
use crate::matches::value;
use crate::values::device_value;
use crate::word::Word;
use clap::ArgMatches;
use sporc_base::Memory;
use sporc_member::Device;
use std::alloc::Global;

/// Its first word.
pub const WORD: &str = "public";

/// Its arguments, in their order.
pub const ARGUMENTS: &[(Kind, &str)] = &[(Kind::Positional, "NAME"), (Kind::Positional, "M")];

/// Its page of the help.
pub const PAGE: &str = "\
sporc public NAME M

Prints the public key of a key that is there, as keygen printed it. No file
is changed.

  NAME  the document's name: the path that its files' names begin with
  M     the member's number, 1 to 65535, for its first device; M.D for a
        further one, D from 1 to 255

Files: reads NAME.M.key, or NAME.M.D.key.

Example:

  sporc public trip 2

Statuses:

  0  the public key is printed
  1  memory ran out
  2  the words are not these, or one is out of its range
  3  the key file is missing, too long or malformed
  6  the key file or standard output failed
";

/// What `public` is asked for.
#[derive(Drop)]
pub struct Public {
    /// The document's name.
    pub name: Word,
    /// The device.
    pub device: Device,
}

/// What is asked for, by the values of the arguments.
pub fn public_from(alloc: Global, matches: &ArgMatches<'_>) -> Result<Option<Public>, Memory>
    ensures ok { IfOk result (λ found. found ≡ public_in (rows_of (found_of matches.now))) }
{
    let Some(name) = value(matches, "NAME") else {
        return Ok(None);
    };
    let Some(device) = device_value(matches, "M") else {
        return Ok(None);
    };
    let name = Word::new(alloc, name)?;
    Ok(Some(Public { name, device }))
}
