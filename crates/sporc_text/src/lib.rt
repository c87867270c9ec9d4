//! The text of a document, to which deltas are applied.
//!
//! A [`Doc`] is a list of characters (Unicode scalar values). An edit has two halves: `ready` takes
//! all memory and leaves the text, `put` makes the text that was made ready and takes none.
//!
//! ```text
//! let ready = doc.ready(&delta)?;    // the text stays
//! doc.put(ready);                    // and is now the one after the delta
//! ```
//!
//! The characters stand in chunks, of which an edit copies those that it changes. What changes one
//! chunk alone writes that one anew; else the chunks move to a list that `ready` made, and are
//! joined on the way where two are small.
//!
//! Proved: the text after each call is the one that the definition `apply` of `sporc_delta` gives,
//! and if memory runs out the text is as before; how many chunks there are at least and at most.
//! Only tested: that memory suffices if there is ample. Neither: how long a call takes.
#![tactic(auto)]

mod chunk;
mod chunks;
mod doc;
mod edit;
pub mod laws;
mod limits;
mod ready;

pub use doc::Doc;
pub use limits::{MAX_CHUNK, MAX_JOINED, MEAN_CHUNK};
pub use ready::ReadyText;
pub use sporc_base::Memory;
