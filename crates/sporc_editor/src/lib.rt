//! The lines between the program and an editor that drives it.
//!
//! The editor asks by lines, which [`read_asked`] reads, and it is told by lines, which
//! [`push_said`] writes. What is asked for is done elsewhere: here is no client and nothing
//! outside. The lines stand in docs/FORMATS.md; those behind `<` are the editor's:
//!
//! ```text
//! text 0 0 ""
//! < insert 0 0 "hello"
//! shown 1 1 - k5
//! < pull
//! shown 2 1 2,3.1 k5 i"!"
//! at 2 pending 1
//! < remove 2 9 1
//! refused 3 outside
//! text 3 2 "hello!"
//! ```
//!
//! ```text
//! let asked = read_asked(alloc, line)?;                     // None: outside the grammar
//! let mut authors = Authors::new();
//! authors.add(device);                                      // of each entry that came
//! push_said(&mut out, &Said::Shown { written, authors })?;
//! ```
//!
//! Proved: a line asks for one thing at most ([`laws::one_asked`]), and reading answers which,
//! exactly if it is spelled so; what is appended is the line of its definition in `specs/`, and
//! none for a refusal by out of memory; after out of memory the text begins with what it was; a
//! line names authors by what is kept of them as it would by all ([`laws::authors_are_named`]).
//! Only tested: that the calls succeed with ample memory (`sporc_commands_tests`). Neither: how
//! long they take. Whoever takes lines off a source holds them to [`MAX_LINE`].
#![tactic(auto, using(sporc_report::proofs::Beginnings::begins_then, sporc_report::proofs::Beginnings::begins_last))]

mod asked;
mod authors;
pub mod laws;
mod limits;
mod reading;
mod said;
mod writing;

pub use crate::asked::Asked;
pub use crate::authors::Authors;
pub use crate::limits::{MAX_AUTHORS, MAX_LINE};
pub use crate::reading::read_asked;
pub use crate::said::{Cause, Said};
pub use crate::writing::push_said;
pub use sporc_base::Memory;
