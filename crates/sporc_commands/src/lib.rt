//! Commands of the program that no session is behind, over a folder, a sink and a chance.
//!
//! - [`keygen`] makes a device's key: `NAME.M.key`, then `NAME.M.leaf`, or `NAME.M.D.key` and
//!   `NAME.M.D.leaf`, and prints the public key. [`public`] prints that line again, of a key file
//!   that is there.
//! - [`found`] makes a document: `NAME.genesis`, then `NAME.M.ring` of each who is named, by the
//!   key files of the founders' first devices.
//! - [`check`]: examines a device's saved history with its own keys, entry by entry.
//! - [`text`]: the committed text of a device's saved history, examined so, after all entries or
//!   the first of them.
//! - [`list_entries`]: a line for each of its entries.
//! - [`compare`]: how the saved history of one device stands to that of another.
//! - [`help`] prints a page of the help, [`version`] the program's name and its version.
//!
//! ```text
//! // plan.1.key, plan.1.leaf, and `key` with 112 digits
//! keygen(rt, alloc, &mut files, &mut chance, &mut out, &asked)?;
//! // plan.genesis, plan.1.ring, plan.2.ring
//! found(rt, alloc, &mut files, &mut chance, &asked)?;
//! // `checked 3`, or Fault::Refused(2, Refusal::BadSignature)
//! check(rt, alloc, &mut files, &mut out, &asked, &OpenGate)?;
//! // `Buy bread.`, or Fault::Ahead(0)
//! text(rt, alloc, &mut files, &mut out, &asked, &OpenGate)?;
//! // `1 1 1 0 edit i"Buy bread."`
//! list_entries(rt, alloc, &mut files, &mut out, &asked, &OpenGate)?;
//! // `2 2.1 forked after 3`
//! compare(alloc, &mut files, &mut out, &asked)?;
//! ```
//!
//! Proved: of `keygen`, `found` and `public`, which files are asked for, which stand after each
//! answer, of which words of the chance they are made, what is printed, and why a command failed;
//! of `help` and `version`, that the text is written to the byte, or a prefix of it.
//! For each other command one relation, in `specs/Outcomes.antt`, between its words, the folder and
//! the sink as it found and left them, and its answer: what the files say is a function of their
//! bytes (`Checking`, `Telling`, `Comparing`), whose first fault is answered, unless memory runs
//! out or something outside fails. Only tested: the files of a document in memory, the names asked
//! for, in their order, each call outside failing in turn, the lines of histories with real
//! signatures, and that calls succeed with ample memory (`sporc_commands_tests`). Neither: that a
//! chance is random, and that a real folder keeps what is written.
#![tactic(auto)]

mod chains;
mod checking;
mod comparing;
mod entries;
mod examining;
mod founding;
mod helping;
mod key_making;
mod key_showing;
pub mod laws;
mod listing;
mod printing;
mod reading;
mod texts;

pub use checking::check;
pub use comparing::compare;
pub use founding::found;
pub use helping::{help, version};
pub use key_making::keygen;
pub use key_showing::public;
pub use listing::list_entries;
pub use texts::text;
