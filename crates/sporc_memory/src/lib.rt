//! The outside in memory, for tests and for plays: objects that tell contracts their content, each
//! with a list of the calls that are to fail.
//!
//! - [`MemorySource`], [`MemorySink`] and [`MemoryLink`] move bytes in pieces of a size that is
//!   chosen; a [`MemoryNet`] makes links.
//! - [`MemoryFolder`] keeps files, [`MemoryDisk`] and [`MemoryAppendFile`] keep what a crash may
//!   leave of them, and [`ListedChance`] gives the random words that it was made with.
//! - [`Calls`] counts the calls of one of them, and lets those fail whose numbers are listed.
//! - The links of a [`PipeNet`] join two threads, and tell nothing.
//!
//! ```text
//! let mut sink = MemorySink::new(alloc, 2, Calls::failing(Vec::new(alloc)));
//! write_all(&mut sink, b"hello")?;                    // in pieces of two
//! sink.as_slice()                                     // hello
//! ```
//!
//! Proved: what each call does to the told content and to the counts. Only tested: that a call
//! succeeds with ample memory. Neither: nothing else is claimed.
#![tactic(auto)]

mod asked;
mod calls;
mod listed_chance;
mod logged;
mod memory_append_file;
mod memory_disk;
mod memory_folder;
mod memory_link;
mod memory_net;
mod memory_sink;
mod memory_source;
mod pipe;
mod pipe_link;
mod pipe_net;
mod requests;

pub use crate::calls::Calls;
pub use crate::listed_chance::ListedChance;
pub use crate::logged::Call;
pub use crate::memory_append_file::MemoryAppendFile;
pub use crate::memory_disk::MemoryDisk;
pub use crate::memory_folder::MemoryFolder;
pub use crate::memory_link::MemoryLink;
pub use crate::memory_net::MemoryNet;
pub use crate::memory_sink::MemorySink;
pub use crate::memory_source::MemorySource;
pub use crate::pipe_link::PipeLink;
pub use crate::pipe_net::PipeNet;
pub use crate::requests::{AppendCall, AppendRequest, DiskCall, DiskRequest};
