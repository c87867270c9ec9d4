//! `text NAME M --at POS`.

ghost use Rattle.std.specs.Prelude.{◌≡◌, IfOk};
ghost use Rattle.clap.specs.Words.{found_of, rows_of};
ghost use Rattle.sporc_words.specs.Verbs.{text_in};

use crate::arguments::Kind;
use crate::matches::value;
use crate::values::{device_value, number_if};
use crate::word::Word;
use clap::ArgMatches;
use sporc_base::Memory;
use sporc_member::Device;
use std::alloc::Global;

/// Its first word.
pub const WORD: &str = "text";

/// Its arguments, in their order.
pub const ARGUMENTS: &[(Kind, &str)] = &[
    (Kind::Positional, "NAME"),
    (Kind::Positional, "M"),
    (Kind::Optional, "at"),
];

/// Its page of the help.
pub const PAGE: &str = "\
sporc text NAME M [--at POS]

Checks every entry of a device's saved history, as check does, and prints
the text after all entries or after the first POS, as UTF-8, with nothing
before or behind it. After a fault nothing of the text was printed, unless
standard output failed.

  NAME  the document's name: the path that its files' names begin with
  M     the member's number, 1 to 65535, for its first device; M.D for a
        further one, D from 1 to 255
  POS   after how many entries; after all if it is left out

Files: reads NAME.genesis, NAME.M.key, NAME.M.ring and NAME.M.history; for
M.D NAME.M.D.key and NAME.M.D.history in place of the device's two.

Example:

  sporc text trip 2 --at 17 > trip.txt

Statuses:

  0  the text is printed
  1  memory ran out
  2  the words are not these, or one is out of its range
  3  a file is missing, too long or malformed, or POS is above the
     history's length
  4  an entry fails a check, or the keys do not open the document
  6  a file or standard output failed
";

/// What `text` is asked for.
#[derive(Drop)]
pub struct TextAt {
    /// The document's name.
    pub name: Word,
    /// The device.
    pub device: Device,
    /// After how many entries, if not after all.
    pub at: Option<u32>,
}

/// What is asked for, by the values of the arguments.
pub fn text_from(alloc: Global, matches: &ArgMatches<'_>) -> Result<Option<TextAt>, Memory>
    ensures ok { IfOk result (λ found. found ≡ text_in (rows_of (found_of matches.now))) }
{
    let Some(name) = value(matches, "NAME") else {
        return Ok(None);
    };
    let Some(device) = device_value(matches, "M") else {
        return Ok(None);
    };
    let Some(at) = number_if(matches, "at") else {
        return Ok(None);
    };
    let name = Word::new(alloc, name)?;
    Ok(Some(TextAt { name, device, at }))
}
