//! Saved histories: the file that a document's entries are kept in, and how it is read and loaded
//! again.
//!
//! A file is `SPH1`, the 16 bytes of the document, the number of entries as a `u32`, at most
//! 16,384, and each entry as a `u32` length and so many bytes, oldest first. Nothing follows.
//!
//! - [`save`]: the file of entries.
//! - [`read_saved`]: the entries of a file, unchecked, as far as it is whole, and where it stops.
//! - [`saved_stop`]: where it stops, alone, without memory.
//! - [`load`], [`load_order`]: the longest prefix of a file's entries that a member's line, or an
//!   order, accepts.
//! - [`load_many`], [`load_order_many`]: the same, with the signatures examined by several workers,
//!   block by block: those of one block while the entries of the block before are taken.
//! - [`Stop`]: where reading stops: at the end, at another document's file, at a place that is cut
//!   short or forbidden, or before an entry that a check refuses.
//! - [`TailFile`]: the tail of a log, on a file that is appended to: the entries that were ordered
//!   since the log was saved, each of them on the disk before the order takes it. Opening it takes
//!   the entries that the log lacks through the order's checks.
//! - [`laws`]: what was saved is read and loaded again, whole, what is loaded is the longest prefix
//!   that is accepted, and nothing that was ordered is lost, whatever a crash leaves of a tail.
//!
//! ```text
//! let file = save(alloc, &document, line.entries())?;          // TooLong
//! let (entries, stop) = read_saved(alloc, &document, file.as_slice())?;
//! // Stop::Refused(2, Refusal::BadSignature)
//! let (line, stop) = load(alloc, file.as_slice(), empty_line)?;
//! // Err((TailFault::Malformed(20), file))
//! let tail = TailFile::open(alloc, file, &mut order);
//! ```
//!
//! Each entry is copied once, out of the bytes as they stand there, as it is appended. A number of
//! entries takes no memory before there are as many. Workers examine the signatures under keys that
//! are foretold of the file's changes, which nobody has checked then; where the author has another
//! key, the check verifies the signature anew.
//!
//! Proved: the bytes that `save` gives, and when they are too many; what each call takes of any
//! bytes, and where it stops; that line and order keep the entries taken if memory runs out; what
//! is read of a tail, what a crash at any moment of its calls leaves, and what is found of that;
//! the laws. Only tested: the loading of entries with real signatures and of files cut at each
//! byte, and that the calls succeed with ample memory (`sporc_commands_tests`, and
//! `sporc_history_tests` for tails and for a file of version 1), and that workers examine at the
//! same time. Neither: how long a call takes, that no signature is verified twice, and that a block
//! is examined while another is taken.
#![tactic(auto)]

mod appending;
mod fault;
mod foretelling;
mod head;
mod history;
pub mod laws;
mod limits;
mod loading;
mod reading;
mod saved_entry;
mod saving;
mod stop;
mod tail_fault;
mod tail_file;
mod tail_reading;
mod workers;

pub use fault::SaveFault;
pub use limits::{LOADERS, MAX_WORKERS};
pub use loading::{load, load_many, load_order, load_order_many, read_saved, saved_stop};
pub use saving::save;
pub use sporc_base::Memory;
pub use stop::Stop;
pub use tail_fault::TailFault;
pub use tail_file::TailFile;
