//! The pages of the help that are of no command with a file of its own.
//!
//! A page has lines of at most 75 columns and begins with its command's words, up to the first
//! empty line, which docs/MANUAL.md has as a heading. The manual page, docs/sporc.1, is made of all
//! pages by `examples/manual-page`. `examples/documents` holds both against what stands here and in
//! the commands' files.

/// The page of `help`.
pub const HELP: &str = "\
sporc help [COMMAND]

Shows all commands, or the page of one. sporc --help and sporc -h show all
of them too, and sporc COMMAND --help the page of one.

  COMMAND  the first word of a command, as keygen

Files: none.

Example:

  sporc help client

Statuses:

  0  the page is shown
  1  memory ran out
  2  there is no such command
  6  standard output failed
";

/// The page of `version`.
pub const VERSION_PAGE: &str = "\
sporc version

Prints the program's name and its version. sporc --version does the same.

Files: none.

Example:

  sporc version

Statuses:

  0  the version is printed
  1  memory ran out
  2  the words are not these
  6  standard output failed
";

/// What `version` prints.
pub const VERSION: &str = "sporc 0.9\n";
