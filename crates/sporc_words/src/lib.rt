//! What a command line asks for, and what the help shows.
//!
//! The file of a command, as `public.rt`, has its first word, its arguments, its page of the help
//! and its values; `command.rt` has the table of the commands and the overview of the help.
//!
//! - [`read_words`] reads the words after the program's name, by `clap` with one simple command for
//!   each first word, and then the numbers, members and roles among the values. The lines that ask
//!   for help (`help`, `--help`, `-h`, `help COMMAND`, `COMMAND --help`) and for the version
//!   (`version`, `--version`) are read word for word.
//! - [`Page::text`] is what a page of the help shows.
//!
//! ```text
//! read_words(alloc, &["check", "plan", "7"])?    // Command::Check, of plan and device 7
//! Page::Of(Verb::Check).text()                   // begins with `sporc check NAME M`
//! ```
//!
//! Numbers are decimal, with no sign and no zero in front. ROLE is `reader`, `editor`, `admin` or
//! `joiner`. M and N name a member's first device by its number alone, and a further one as `M.D`,
//! with D from 1 to 255; in M:ROLE M is a member.
//!
//! Proved: words ask for exactly one command or for none, which `specs/Commands.antt` defines by
//! `clap`'s own definition of what a simple command takes, and `read_words` answers which; a page's
//! text is the constant of its command. Only tested: that reading does not run out of memory if
//! there is ample (`sporc_top_tests`); how wide and how long the pages are, and that the documents
//! have the same words (`examples/documents`). Neither: whether a document, a file or an address
//! has such a name; that a page is right.
#![tactic(auto)]

mod arguments;
mod check;
mod client;
mod command;
mod compare;
mod defaults;
mod entries;
mod fault;
mod found;
mod help;
mod keygen;
pub mod laws;
mod matches;
mod page;
mod pages;
mod participants;
mod play;
mod public;
mod row;
mod serve;
mod serve_all;
mod standing;
mod text;
mod values;
mod word;
mod words;

pub use check::Check;
pub use client::Client;
pub use command::{Command, VERBS, Verb};
pub use compare::Compare;
pub use defaults::{DEFAULT_FROM, DEFAULT_ROUNDS, DEFAULT_TIMES, DEFAULT_UNTIL};
pub use entries::EntriesFrom;
pub use fault::WordsFault;
pub use found::Found;
pub use keygen::Keygen;
pub use page::Page;
pub use pages::VERSION;
pub use public::Public;
pub use serve::Serve;
pub use serve_all::ServeAll;
pub use standing::{Participant, Standing};
pub use text::TextAt;
pub use word::Word;
pub use words::read_words;
