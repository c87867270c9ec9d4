//! `keygen NAME M HEIGHT W`.

ghost use Rattle.std.specs.Prelude.{◌≡◌, IfOk};
ghost use Rattle.clap.specs.Words.{found_of, rows_of};
ghost use Rattle.sporc_words.specs.Verbs.{keygen_in};

use crate::arguments::Kind;
use crate::matches::value;
use crate::values::{device_value, tree_value, width_value};
use crate::word::Word;
use clap::ArgMatches;
use lms_ots::OtsType;
use lms_tree::LmsType;
use sporc_base::Memory;
use sporc_member::Device;
use std::alloc::Global;

/// Its first word.
pub const WORD: &str = "keygen";

/// Its arguments, in their order.
pub const ARGUMENTS: &[(Kind, &str)] = &[
    (Kind::Positional, "NAME"),
    (Kind::Positional, "M"),
    (Kind::Positional, "HEIGHT"),
    (Kind::Positional, "W"),
];

/// Its page of the help.
pub const PAGE: &str = "\
sporc keygen NAME M HEIGHT W

Makes a new key for a device of a member, and prints its public key, which
an admin needs to add the member, or a further device, later. No file is
replaced.

  NAME    the document's name: the path that its files' names begin with
  M       the member's number, 1 to 65535, for its first device; M.D for a
          further one, D from 1 to 255
  HEIGHT  the height of the key's tree, 5, 10 or 15: the key signs at most
          2^HEIGHT entries
  W       the Winternitz width, 4 or 8: with 8 a signature is about half as
          long, and takes about eight times as long to make

Files: makes NAME.M.key, which is secret, and NAME.M.leaf, which tells what
of the key is used; for a further device NAME.M.D.key and NAME.M.D.leaf.
Make a key on the machine that is to sign with it. Never copy it to another
one, nor a leaf file back from a backup: what is signed twice by one leaf
gives the key away.

Examples:

  sporc keygen trip 2 10 4
  sporc keygen trip 2.1 10 4

Statuses:

  0  the key is made
  1  memory ran out
  2  the words are not these, or one is out of its range
  3  there is such a file already
  6  a file, standard output or the system's random bytes failed
";

/// What `keygen` is asked for.
#[derive(Drop)]
pub struct Keygen {
    /// The document's name.
    pub name: Word,
    /// The device.
    pub device: Device,
    /// The type of the tree, of height 5, 10 or 15.
    pub height: LmsType,
    /// The type of the one-time signatures, with 4 or 8 bits a coefficient.
    pub width: OtsType,
}

/// What is asked for, by the values of the arguments.
pub fn keygen_from(alloc: Global, matches: &ArgMatches<'_>) -> Result<Option<Keygen>, Memory>
    ensures ok { IfOk result (λ found. found ≡ keygen_in (rows_of (found_of matches.now))) }
{
    let Some(name) = value(matches, "NAME") else {
        return Ok(None);
    };
    let Some(device) = device_value(matches, "M") else {
        return Ok(None);
    };
    let Some(height) = tree_value(matches, "HEIGHT") else {
        return Ok(None);
    };
    let Some(width) = width_value(matches, "W") else {
        return Ok(None);
    };
    let name = Word::new(alloc, name)?;
    Ok(Some(Keygen {
        name,
        device,
        height,
        width,
    }))
}
