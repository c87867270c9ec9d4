//! `client NAME M ADDRESS --rounds R --until P SCRIPT ..`.

ghost use Rattle.std.specs.Prelude.{◌≡◌, IfOk};
ghost use Rattle.clap.specs.Words.{found_of, rows_of};
ghost use Rattle.sporc_words.specs.Verbs.{client_in};

use crate::arguments::Kind;
use crate::defaults::{DEFAULT_ROUNDS, DEFAULT_UNTIL};
use crate::matches::value;
use crate::values::{device_value, scripts_value, value_or};
use crate::word::Word;
use clap::ArgMatches;
use sporc_base::{Items, Memory};
use sporc_member::Device;
use std::alloc::Global;

/// Its first word.
pub const WORD: &str = "client";

/// Its arguments, in their order.
pub const ARGUMENTS: &[(Kind, &str)] = &[
    (Kind::Positional, "NAME"),
    (Kind::Positional, "M"),
    (Kind::Positional, "ADDRESS"),
    (Kind::Optional, "rounds"),
    (Kind::Optional, "until"),
    (Kind::Repeated, "SCRIPT"),
];

/// Its page of the help.
pub const PAGE: &str = "\
sporc client NAME M ADDRESS [--rounds R] [--until P] SCRIPT ..

Runs one session of a member's device with a server, beside an editor for
each script. When the session has ended it saves the history, and then it
prints the journal, the text and the last hash, also after a fault. Run one
client of a device at a time.

  NAME     the document's name: the path that its files' names begin with
  M        the member's number, 1 to 65535, for its first device; M.D for a
           further one, D from 1 to 255
  ADDRESS  the server's host and port, as 127.0.0.1:4000
  R        rounds beside the editors, and at most so many after them; 64 if
           it is left out
  P        how many entries the history is to have; 0 if it is left out
  SCRIPT   the path of an editor script, at most eight. Its lines are
           insert AT TEXT, remove AT COUNT, add M ROLE HEX, drop M,
           role M ROLE, upgrade, device M D HEX and drop-device M D

Files: reads NAME.genesis, NAME.M.key, NAME.M.ring, the scripts and, if it
is there, NAME.M.history; marks NAME.M.leaf; writes NAME.M.history. For M.D
key, leaf file and history are NAME.M.D.key, NAME.M.D.leaf and
NAME.M.D.history; the ring is the member's.

Example:

  sporc client trip 2 127.0.0.1:4000 --until 5 morning.txt

Statuses:

  0  all was done
  1  memory ran out
  2  the words are not these, or one is out of its range
  3  a file is missing, too long or malformed, or a script has a line that
     is not valid
  4  an entry was refused or rejected, or the keys do not open the document
  5  the rounds are over, and edits wait or the history is shorter than P
  6  a file, standard output, the system's random bytes or the connection
     failed, or another client has the leaf file
  7  the key has signed all that it can
  8  the history, the journal or a file is full, or a lock is worn
  9  what the server sent is no message
 10  an edit of a script can not be done
";

/// What `client` is asked for.
#[derive(Drop)]
pub struct Client {
    /// The document's name.
    pub name: Word,
    /// The device.
    pub device: Device,
    /// Where the server listens.
    pub address: Word,
    /// How many rounds the session has beside the editors, and at most after them.
    pub rounds: u32,
    /// The position up to which the session waits for entries.
    pub until: u32,
    /// The files of the editor scripts, at most `sporc_script::MAX_EDITORS`.
    pub scripts: Items<Word>,
}

/// What is asked for, by the values of the arguments.
pub fn client_from(alloc: Global, matches: &ArgMatches<'_>) -> Result<Option<Client>, Memory>
    ensures ok { IfOk result (λ found. found ≡ client_in (rows_of (found_of matches.now))) }
{
    let Some(name) = value(matches, "NAME") else {
        return Ok(None);
    };
    let Some(device) = device_value(matches, "M") else {
        return Ok(None);
    };
    let Some(address) = value(matches, "ADDRESS") else {
        return Ok(None);
    };
    let Some(rounds) = value_or(matches, "rounds", DEFAULT_ROUNDS) else {
        return Ok(None);
    };
    let Some(until) = value_or(matches, "until", DEFAULT_UNTIL) else {
        return Ok(None);
    };
    let Some(scripts) = scripts_value(alloc, matches, "SCRIPT")? else {
        return Ok(None);
    };
    let name = Word::new(alloc, name)?;
    let address = Word::new(alloc, address)?;
    Ok(Some(Client {
        name,
        device,
        address,
        rounds,
        until,
        scripts,
    }))
}
