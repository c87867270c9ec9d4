//! What every command of the program has in common: the files of a document, and the program's
//! faults.
//!
//! - [`Names`]: the names of a command's files; [`File`]: one of them.
//! - [`read_genesis_file`], [`read_key_file`], [`read_own_key`], [`read_ring_file`]: what a file
//!   says; [`read_bytes`] and [`read_if_there`]: its bytes. [`write_new_file`],
//!   [`write_whole_file`]: files are written. [`append_to_file`]: one that is appended to, with its
//!   name; [`lend_disk`]: a disk over one.
//! - [`Fault`]: why a command did not do all its work, with its exit status and its line.
//!   [`stopped`]: that of a history's file that is not whole.
//! - [`open_line`]: the line of a member's device, by what the member's ring file says, or by
//!   hints.
//! - `specs/Uses.antt`: which names a folder was asked for, and how often a net was asked for an
//!   address. `specs/Contents.antt`: what the files of a document hold.
//!
//! ```text
//! let names = Names::of_document("plan");
//! let genesis = read_genesis_file(alloc, files, &names)?;   // Fault::Missing(File::Genesis)
//! fault.tell(&names, out);                                  // fault missing plan.genesis
//! fault.status()                                           // 3
//! ```
//!
//! Proved: names, statuses and lines to the byte, which are written as far as the sink takes them
//! and take no memory; that different files of a document have different names ([`laws`]); what is
//! read of which file, and which fault is answered; that a call asks for the names of its files
//! alone. Only tested: that reading and writing succeed with ample memory (`sporc_commands_tests`,
//! `sporc_top_tests`). Neither: that a real folder keeps what is written.
#![tactic(auto)]

mod appending;
mod argument;
mod causes;
mod fault;
mod fault_names;
mod file;
pub mod laws;
mod names;
mod opening;
mod reading;
mod text;
mod writing;

pub use appending::{Appended, append_to_file, lend_disk};
pub use causes::{first_fault, stopped};
pub use fault::Fault;
pub use file::File;
pub use names::Names;
pub use opening::open_line;
pub use reading::{
    read_bytes, read_genesis_file, read_if_there, read_key_file, read_own_key, read_ring_file,
};
pub use writing::{write_new_file, write_whole_file};
