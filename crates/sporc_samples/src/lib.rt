//! Samples for tests: members with keys, a document that they founded, and signed histories of it;
//! and the loop of all tables of calls that fail. No program stands on this crate.
//!
//! - [`Cast`]: five members with their one-time keys, and the genesis of the document that they
//!   founded.
//! - [`Draft`]: an entry to be signed, each field of whose header can be spoilt first.
//! - [`Member::by_device`]: a further device of a member, with keys of its own.
//! - [`History`]: a history that grows by signed edits and changes, by first devices or any others;
//!   [`short_history`] is one of four entries.
//! - [`epoch_key`], [`pair_key`]: the keys that its edits are masked with and its changes seal.
//! - [`count_calls`]: lets each call of an object fail in turn, in a run anew for each.
//!
//! ```text
//! let cast = Cast::new(alloc)?;
//! let mut sample = History::new(alloc, &cast.genesis(alloc)?)?;
//! sample.insert(alloc, &cast, 2, 0, b"hi")?;
//! let mut draft = Draft::new(sample.header(2, EDIT));
//! draft.header.number += 1;                        // no check but that of the number fails
//! let bytes = draft.signed(alloc, cast.member(2)?, body)?;
//! ```
//!
//! The bytes of deltas and of the genesis follow the formats by their tables and not by the crates
//! that read them back; entries and changes are written by `sporc_entry`. Proved: nothing but that
//! each call is safe and ends, and that the genesis is one.
#![tactic(auto)]

mod bodies;
mod calls;
mod cast;
mod draft;
mod fault;
mod histories;
mod history;
mod keys;
mod member;

pub use bodies::{change_body, edit_body, insertion};
pub use calls::count_calls;
pub use cast::{Cast, DOCUMENT};
pub use draft::Draft;
pub use fault::SampleFault;
pub use histories::short_history;
pub use history::History;
pub use keys::{epoch_key, pair_key};
pub use member::Member;
pub use sporc_entry::{CHANGE, EDIT};
