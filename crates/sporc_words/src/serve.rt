//! `serve NAME ADDRESS --sessions K --times T`.

ghost use Rattle.std.specs.Prelude.{◌≡◌, IfOk};
ghost use Rattle.clap.specs.Words.{found_of, rows_of};
ghost use Rattle.sporc_words.specs.Verbs.{serve_in};

use crate::arguments::Kind;
use crate::defaults::DEFAULT_TIMES;
use crate::matches::value;
use crate::values::{between_value, times_or};
use crate::word::Word;
use clap::ArgMatches;
use sporc_base::Memory;
use sporc_wire::MAX_SESSIONS;
use std::alloc::Global;

/// Its first word.
pub const WORD: &str = "serve";

/// Its arguments, in their order.
pub const ARGUMENTS: &[(Kind, &str)] = &[
    (Kind::Positional, "NAME"),
    (Kind::Positional, "ADDRESS"),
    (Kind::Needed, "sessions"),
    (Kind::Optional, "times"),
];

/// Its page of the help.
pub const PAGE: &str = "\
sporc serve NAME ADDRESS --sessions K [--times T]

Serves K sessions of a document, all at once as they come. As the last of
them has ended, it saves the log, and prints how many entries that has. It
does so T times, and then ends. It writes each entry to the disk before it
tells anybody of it, so it may be stopped at any moment, and started again.

  NAME     the document's name: the path that its files' names begin with
  ADDRESS  where it listens: a host and a port, as 127.0.0.1:4000
  K        how many sessions each time, 1 to 1024
  T        how many times, 1 to 4294967295; once if it is left out

Files: reads NAME.genesis and, if they are there, NAME.log and NAME.tail;
appends each entry to NAME.tail; writes NAME.log, and at the end removes
NAME.tail.

Examples:

  sporc serve trip 127.0.0.1:4000 --sessions 8
  sporc serve trip 127.0.0.1:4000 --sessions 8 --times 1000000

Statuses:

  0  all sessions have ended, and the log is saved
  1  memory ran out
  2  the words are not these, or one is out of its range
  3  a file is missing, too long or malformed
  4  an entry of the log or of the tail fails a check
  6  a file, standard output or the net failed, or another server has the
     tail
  8  the log is too long for a file, or a lock is worn
";

/// What `serve` is asked for.
#[derive(Drop)]
pub struct Serve {
    /// The document's name.
    pub name: Word,
    /// Where it listens.
    pub address: Word,
    /// How many sessions it serves each time, from 1 to `sporc_wire::MAX_SESSIONS`.
    pub sessions: u32,
    /// How often it serves so many: at least once.
    pub times: u32,
}

/// What is asked for, by the values of the arguments.
pub fn serve_from(alloc: Global, matches: &ArgMatches<'_>) -> Result<Option<Serve>, Memory>
    ensures ok { IfOk result (λ found. found ≡ serve_in (rows_of (found_of matches.now))) }
{
    let Some(name) = value(matches, "NAME") else {
        return Ok(None);
    };
    let Some(address) = value(matches, "ADDRESS") else {
        return Ok(None);
    };
    let Some(sessions) = between_value(matches, "sessions", 1, MAX_SESSIONS) else {
        return Ok(None);
    };
    let Some(times) = times_or(matches, "times", DEFAULT_TIMES) else {
        return Ok(None);
    };
    let name = Word::new(alloc, name)?;
    let address = Word::new(alloc, address)?;
    Ok(Some(Serve {
        name,
        address,
        sessions,
        times,
    }))
}
