//! The outside of `sporc_outside` as the system gives it: standard input and output, files, TCP,
//! and random words.
//!
//! - [`StandardInput`] and [`StandardOutput`] are a source and a sink over a reader and a writer of
//!   the system.
//! - [`RealFolder`] keeps files; a name is a path from the current directory. Its [`RealDisk`]s are
//!   leaf files, and its [`RealAppendFile`]s files that are appended to, each of which has the
//!   system's lock on its file.
//! - [`TcpNet`] dials and listens, and gives up peers that say nothing for too long; its links are
//!   [`TcpLink`]s.
//! - [`RandomWords`] takes words from the system's random bytes.
//!
//! ```text
//! let mut files = RealFolder::new(rt);
//! files.write_new("doc.1.key", &bytes)?              // FileFault::Exists if there is such a file
//! ```
//!
//! Each error of the system is counted, and then the call answers that it failed. A write that
//! takes none of some bytes is an error. A call that a signal interrupts is made again, and so is
//! one that takes no connection, for two minutes.
//!
//! Proved: that each adapter meets its trait. As none tells its content, that is what its count
//! does and which answers come with it; of standard input and output it is the bytes too, over a
//! reader or a writer that tells them, as the system's don't. Only tested: that bytes written are
//! read again, that a file with keys or leaves is its owner's alone, that a save keeps modes, links
//! and the old file, that locks keep programs apart, that what is appended is read again and a file
//! is gone once it is removed, that links connect, that a net goes on listening at its address, and
//! that silent peers are given up. Neither: what the system does with the bytes, above all if it
//! stops.
#![tactic(auto)]

mod counting;
mod pieces;
mod random_words;
mod real_append_file;
mod real_disk;
mod real_folder;
mod saving;
mod standard_input;
mod standard_output;
mod tcp_link;
mod tcp_net;

pub use crate::random_words::RandomWords;
pub use crate::real_append_file::RealAppendFile;
pub use crate::real_disk::RealDisk;
pub use crate::real_folder::RealFolder;
pub use crate::standard_input::StandardInput;
pub use crate::standard_output::StandardOutput;
pub use crate::tcp_link::TcpLink;
pub use crate::tcp_net::TcpNet;
