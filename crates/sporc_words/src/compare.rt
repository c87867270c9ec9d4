//! `compare NAME M N`.

ghost use Rattle.std.specs.Prelude.{◌≡◌, IfOk};
ghost use Rattle.clap.specs.Words.{found_of, rows_of};
ghost use Rattle.sporc_words.specs.Verbs.{compare_in};

use crate::arguments::Kind;
use crate::matches::value;
use crate::values::device_value;
use crate::word::Word;
use clap::ArgMatches;
use sporc_base::Memory;
use sporc_member::Device;
use std::alloc::Global;

/// Its first word.
pub const WORD: &str = "compare";

/// Its arguments, in their order.
pub const ARGUMENTS: &[(Kind, &str)] = &[
    (Kind::Positional, "NAME"),
    (Kind::Positional, "M"),
    (Kind::Positional, "N"),
];

/// Its page of the help.
pub const PAGE: &str = "\
sporc compare NAME M N

Prints how the saved history of M stands to that of N, without checking
their entries: same, prefix, longer, or forked after so many entries, if a
server told the two of them two stories.

  NAME  the document's name: the path that its files' names begin with
  M, N  two members' numbers, 1 to 65535, for their first devices; M.D for
        a further one, D from 1 to 255

Files: reads NAME.genesis, NAME.M.history and NAME.N.history, or
NAME.M.D.history in place of each.

Examples:

  sporc compare trip 1 2
  sporc compare trip 1 1.1

Statuses:

  0  the line is printed
  1  memory ran out
  2  the words are not these, or one is out of its range
  3  a file is missing, too long or malformed
  6  a file or standard output failed
";

/// What `compare` is asked for. The two devices may be the same.
#[derive(Drop)]
pub struct Compare {
    /// The document's name.
    pub name: Word,
    /// The one device.
    pub first: Device,
    /// The other device.
    pub second: Device,
}

/// What is asked for, by the values of the arguments.
pub fn compare_from(alloc: Global, matches: &ArgMatches<'_>) -> Result<Option<Compare>, Memory>
    ensures ok { IfOk result (λ found. found ≡ compare_in (rows_of (found_of matches.now))) }
{
    let Some(name) = value(matches, "NAME") else {
        return Ok(None);
    };
    let Some(first) = device_value(matches, "M") else {
        return Ok(None);
    };
    let Some(second) = device_value(matches, "N") else {
        return Ok(None);
    };
    let name = Word::new(alloc, name)?;
    Ok(Some(Compare {
        name,
        first,
        second,
    }))
}
