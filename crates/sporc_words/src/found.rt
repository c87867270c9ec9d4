//! `found NAME M:ROLE ..`.

ghost use Rattle.std.specs.Prelude.{◌≡◌, IfOk};
ghost use Rattle.clap.specs.Words.{found_of, rows_of};
ghost use Rattle.sporc_words.specs.Verbs.{found_in};

use crate::arguments::Kind;
use crate::matches::value;
use crate::participants::participants_value;
use crate::standing::Participant;
use crate::word::Word;
use clap::ArgMatches;
use sporc_base::{Items, Memory};
use std::alloc::Global;

/// Its first word.
pub const WORD: &str = "found";

/// Its arguments, in their order.
pub const ARGUMENTS: &[(Kind, &str)] = &[(Kind::Positional, "NAME"), (Kind::Repeated, "M:ROLE")];

/// Its page of the help.
pub const PAGE: &str = "\
sporc found NAME M:ROLE ..

Makes a document of its founders and of those who may be added later. Files
of these names are replaced: found over a document in use makes another.

  NAME  the document's name: the path that its files' names begin with
  M     a member's number, 1 to 65535; each once, and at most 64
  ROLE  reader, editor, admin or joiner; at least one is an admin. A joiner
        has no right before an admin adds it, and needs no key yet

Files: reads NAME.M.key of each founder, the key of its first device; makes
NAME.genesis, which everyone needs, and NAME.M.ring, a secret of M, for
each number that is named.

Example:

  sporc found trip 1:admin 2:editor 3:reader 4:joiner

Statuses:

  0  the document is made
  1  memory ran out
  2  the words are not these, or one is out of its range
  3  a founder's key file is missing, too long or malformed
  6  a file or the system's random bytes failed
";

/// What `found` is asked for.
#[derive(Drop)]
pub struct Found {
    /// The document's name.
    pub name: Word,
    /// Those who are named, in the order of the words: at most `sporc_member::MAX_MEMBERS`, each
    /// number once, and an admin among them.
    pub participants: Items<Participant>,
}

/// What is asked for, by the values of the arguments.
pub fn found_from(alloc: Global, matches: &ArgMatches<'_>) -> Result<Option<Found>, Memory>
    ensures ok { IfOk result (λ found. found ≡ found_in (rows_of (found_of matches.now))) }
{
    let Some(name) = value(matches, "NAME") else {
        return Ok(None);
    };
    let Some(participants) = participants_value(alloc, matches, "M:ROLE")? else {
        return Ok(None);
    };
    let name = Word::new(alloc, name)?;
    Ok(Some(Found { name, participants }))
}
