//! The forms of a history's entries, and a delta restated behind the last of them.
//!
//! The form of an entry is its delta as it was applied: stated on the text after all entries before
//! it. [`Blocks`] holds the forms in their order, with the composition of each whole aligned run of
//! 2, 4, 8, .. of them, and restates a delta from any place behind all forms after it, run by run.
//! [`Steps`] counts transforms, and takes no bytes.
//!
//! ```text
//! let mut blocks = Blocks::new(alloc, 3)?;                 // over a text of three characters
//! // takes the memory, and composes what becomes whole
//! let ready = blocks.ready(form)?;
//! blocks.put(ready);                                       // takes none
//! let last = blocks.later_over(&q, 0, &mut steps)?;        // q behind all forms
//! let all = blocks.composed(0)?;                           // all forms in one
//! ```
//!
//! Proved: `later_over` gives the delta passed over each form after `from`, in order, in at most
//! two steps for each binary digit of their number; `composed` gives these forms in one; forms
//! follow one another, each over the text after the one before. Only tested: that memory suffices
//! if there is ample. Neither: how long a call takes, and how many bytes the compositions have.
#![tactic(auto)]

mod blocks;
mod composing;
mod ready;
mod runs;
mod steps;

pub use crate::blocks::Blocks;
pub use crate::ready::ReadyForm;
pub use crate::steps::Steps;
pub use sporc_base::Memory;
