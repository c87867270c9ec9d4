//! The outside world as traits: where bytes come from and go to, and how its faults are counted.
//!
//! - [`Source`] and [`Sink`] give and take bytes, and a [`Link`] does both for one connection;
//!   [`write_all`] and [`read_all`] go to the end, and [`Lines`] hands out a source's lines as they
//!   come. [`Dial`] and [`Listen`] make links.
//! - [`Chance`] gives random words, a [`Folder`] keeps files, a [`LeafDisk`] keeps a key's state,
//!   an [`AppendFile`] is appended to, and a [`Gate`] is called between the steps of threads.
//! - [`Counted`]: each object counts its faults, and a call answers [`Failed`] only where that
//!   count rose.
//!
//! An object may tell its content to contracts, as those of `sporc_memory` do, or not tell it, as a
//! real file or terminal does.
//!
//! ```text
//! write_all(&mut sink, b"hello")?;                    // in pieces of the sink's choice
//! read_all(alloc, &mut source, 16)?                   // what is left, if it is at most 16 bytes
//! ```
//!
//! Proved: what writing to the end does to what a sink tells and to its count; what reading to the
//! end takes of a source, whatever the answer, and when each fault comes; the same of a line. What
//! the calls of traits promise is kept by each object that has them. Only tested: that reading
//! succeeds with ample memory (`sporc_top_tests`, `sporc_lower_tests`). Neither: nothing else is
//! claimed.
#![tactic(auto)]

mod append_file;
mod chance;
mod counted;
mod file_fault;
mod folder;
mod gate;
pub mod laws;
mod leaf_disk;
mod lines;
mod link;
mod links;
mod named_file;
mod reading;
mod sink;
mod source;
mod stream;

pub use crate::append_file::AppendFile;
pub use crate::chance::Chance;
pub use crate::counted::{Counted, Failed};
pub use crate::file_fault::{FileFault, MAX_FILE};
pub use crate::folder::Folder;
pub use crate::gate::{Gate, OpenGate};
pub use crate::leaf_disk::LeafDisk;
pub use crate::lines::{LineFault, Lines};
pub use crate::link::Link;
pub use crate::links::{Dial, Links, Listen};
pub use crate::named_file::{FileBytes, NamedFile};
pub use crate::reading::{ReadFault, read_all};
pub use crate::sink::{Sink, write_all};
pub use crate::source::Source;
pub use crate::stream::Stream;
