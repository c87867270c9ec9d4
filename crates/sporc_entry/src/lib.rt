//! The bytes of a document's genesis and of the entries of its history.
//!
//! All numbers are big-endian. Each genesis, entry and body of a change has exactly one spelling. A
//! reader answers the value that its bytes spell, or the place of the first byte of the first field
//! that is cut short or has a forbidden value. There are two versions of entries: those behind a
//! document's Upgrade name their author's device, and have other kinds of change ([`version_of`]).
//! [`EntryView`] reads an entry where its bytes stand and copies nothing of it but a change's
//! fields; [`read_entry`] copies it out.
//!
//! ```text
//! let view = EntryView::read(alloc, bytes)?;
//! // what the author signs, behind a byte 3: a part of the bytes
//! let message = view.signed();
//! if let Some(change) = view.change() { .. }
//! ```
//!
//! Proved: what is read is spelled so, what is spelled so is read, and which fault it is otherwise
//! ([`laws`]). Only tested: the layout against bytes that are spelled by hand. Neither: nothing
//! else is claimed.
#![tactic(auto)]

mod change;
mod committed;
mod entry;
mod fault;
mod fields;
mod genesis;
mod header;
pub mod laws;
mod limits;
mod skimming;
mod version;
mod view;
mod wrap;

pub use change::{ChangeBody, read_change, write_change};
pub use committed::{CommittedChange, read_committed};
pub use entry::{Entry, read_entry, signed_part, write_entry};
pub use fault::{EntryFault, GenesisFault};
pub use genesis::{Founders, Genesis, read_genesis, write_genesis};
pub use header::{CHANGE, EDIT, Header};
pub use limits::{HIGHEST_MEMBER, MAX_CHANGE_BODY, MAX_EDIT_BODY, MAX_ENTRY, MAX_SIGNATURE};
pub use skimming::header_in;
pub use sporc_base::{Bytes, Memory};
pub use version::{DEVICES_VERSION, FIRST_VERSION, body_at, fits_version, version_of};
pub use view::EntryView;
pub use wrap::{Wrap, Wraps};
