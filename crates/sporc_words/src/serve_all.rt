//! `serve-all ADDRESS --sessions K --times T NAME ..`.

ghost use Rattle.std.specs.Prelude.{◌≡◌, IfOk};
ghost use Rattle.clap.specs.Words.{found_of, rows_of};
ghost use Rattle.sporc_words.specs.Verbs.{serve_all_in};

use crate::arguments::Kind;
use crate::defaults::DEFAULT_TIMES;
use crate::matches::value;
use crate::values::{between_value, documents_value, times_or};
use crate::word::Word;
use clap::ArgMatches;
use sporc_base::{Items, Memory};
use sporc_wire::MAX_SESSIONS;
use std::alloc::Global;

/// Its first word.
pub const WORD: &str = "serve-all";

/// Its arguments, in their order.
pub const ARGUMENTS: &[(Kind, &str)] = &[
    (Kind::Positional, "ADDRESS"),
    (Kind::Needed, "sessions"),
    (Kind::Optional, "times"),
    (Kind::Repeated, "NAME"),
];

/// Its page of the help.
pub const PAGE: &str = "\
sporc serve-all ADDRESS --sessions K [--times T] NAME ..

Serves K sessions of several documents at one address, all at once as they
come. A session is of the document that its client names first; one that
names none of these is closed. As the last of them has ended, it saves the
log of each document, and prints how many entries each has, in the order of
the names. It does so T times, and then ends. It may be stopped at any
moment, and started again, as serve may.

  ADDRESS  where it listens: a host and a port, as 127.0.0.1:4000
  K        how many sessions each time, of all documents together, 1 to
           1024
  T        how many times, 1 to 4294967295; once if it is left out
  NAME     a document's name: the path that its files' names begin with; 1
           to 64 of them, each of another document

Files: reads NAME.genesis and, if they are there, NAME.log and NAME.tail of
each document; appends each entry to its document's NAME.tail; writes
NAME.log of each, and at the end removes each NAME.tail.

Examples:

  sporc serve-all 127.0.0.1:4000 --sessions 8 trip menu
  sporc serve-all 127.0.0.1:4000 --sessions 8 --times 1000000 trip menu

Statuses:

  0  all sessions have ended, and each log is saved
  1  memory ran out
  2  the words are not these, or one is out of its range
  3  a file is missing, too long or malformed, or a document named twice
  4  an entry of a log or of a tail fails a check
  6  a file, standard output or the net failed, or another server has a
     tail
  8  a log is too long for a file, or a lock is worn
";

/// What `serve-all` is asked for.
#[derive(Drop)]
pub struct ServeAll {
    /// Where it listens.
    pub address: Word,
    /// How many sessions it serves each time, from 1 to `sporc_wire::MAX_SESSIONS`.
    pub sessions: u32,
    /// How often it serves so many: at least once.
    pub times: u32,
    /// The documents' names, in the order of the words: from 1 to `sporc_wire::MAX_DOCUMENTS`.
    pub names: Items<Word>,
}

/// What is asked for, by the values of the arguments.
pub fn serve_all_from(alloc: Global, matches: &ArgMatches<'_>) -> Result<Option<ServeAll>, Memory>
    ensures ok { IfOk result (λ found. found ≡ serve_all_in (rows_of (found_of matches.now))) }
{
    let Some(address) = value(matches, "ADDRESS") else {
        return Ok(None);
    };
    let Some(sessions) = between_value(matches, "sessions", 1, MAX_SESSIONS) else {
        return Ok(None);
    };
    let Some(times) = times_or(matches, "times", DEFAULT_TIMES) else {
        return Ok(None);
    };
    let Some(names) = documents_value(alloc, matches, "NAME")? else {
        return Ok(None);
    };
    let address = Word::new(alloc, address)?;
    Ok(Some(ServeAll {
        address,
        sessions,
        times,
        names,
    }))
}
