//! `entries NAME M --from POS`.

ghost use Rattle.std.specs.Prelude.{◌≡◌, IfOk};
ghost use Rattle.clap.specs.Words.{found_of, rows_of};
ghost use Rattle.sporc_words.specs.Verbs.{entries_in};

use crate::arguments::Kind;
use crate::defaults::DEFAULT_FROM;
use crate::matches::value;
use crate::values::{device_value, value_or};
use crate::word::Word;
use clap::ArgMatches;
use sporc_base::Memory;
use sporc_member::Device;
use std::alloc::Global;

/// Its first word.
pub const WORD: &str = "entries";

/// Its arguments, in their order.
pub const ARGUMENTS: &[(Kind, &str)] = &[
    (Kind::Positional, "NAME"),
    (Kind::Positional, "M"),
    (Kind::Optional, "from"),
];

/// Its page of the help.
pub const PAGE: &str = "\
sporc entries NAME M [--from POS]

Checks every entry of a device's saved history, as check does, and prints a
line for each, from the one at POS on: its position, the device that made
it, its number among that device's entries, how many entries the device had
seen, and what it did, an edit as it came into the text.

  NAME  the document's name: the path that its files' names begin with
  M     the member's number, 1 to 65535, for its first device; M.D for a
        further one, D from 1 to 255
  POS   the position of the first line that is printed; 1 if left out

Files: reads NAME.genesis, NAME.M.key, NAME.M.ring and NAME.M.history; for
M.D NAME.M.D.key and NAME.M.D.history in place of the device's two.

Example:

  sporc entries trip 2 --from 18

Statuses:

  0  the lines are printed
  1  memory ran out
  2  the words are not these, or one is out of its range
  3  a file is missing, too long or malformed
  4  an entry fails a check, or the keys do not open the document
  6  a file or standard output failed
";

/// What `entries` is asked for.
#[derive(Drop)]
pub struct EntriesFrom {
    /// The document's name.
    pub name: Word,
    /// The device.
    pub device: Device,
    /// The position of the first entry that is listed.
    pub from: u32,
}

/// What is asked for, by the values of the arguments.
pub fn entries_from(alloc: Global, matches: &ArgMatches<'_>) -> Result<Option<EntriesFrom>, Memory>
    ensures ok { IfOk result (λ found. found ≡ entries_in (rows_of (found_of matches.now))) }
{
    let Some(name) = value(matches, "NAME") else {
        return Ok(None);
    };
    let Some(device) = device_value(matches, "M") else {
        return Ok(None);
    };
    let Some(from) = value_or(matches, "from", DEFAULT_FROM) else {
        return Ok(None);
    };
    let name = Word::new(alloc, name)?;
    Ok(Some(EntriesFrom { name, device, from }))
}
