//! What every crate of `sporc` would write again: the error of a call that is out of memory, lists,
//! bytes, and the words that say what a call answers.
//!
//! - [`Memory`]: out of memory.
//! - [`Items`]: a `Vec` that contracts see as the list of its items; [`Bytes`] is one of bytes.
//! - [`is_same`]: whether two byte strings are the same.
//! - [`put_at`]: a field written into bytes, from a place on.
//! - `specs/Outcome.antt`: a call answers what a definition gives, a value or a fault: exactly that
//!   (`Gives`), or that unless memory runs out (`GivesUnless`).
//! - `specs/FirstFault.antt`: a call answers the first fault of a list of checks: exactly that
//!   (`Answers`), or that unless memory runs out (`AnswersUnless`).
//! - `specs/Numbers.antt`: the numbers from 1 to another (`up_to`).
//! - `specs/Bytes.antt`: numbers that are bytes (`IsBytes`); `proofs/ByteLemmas.antt` has their
//!   laws, `proofs/ListLemmas.antt` those of lists that several crates need.
//!
//! ```text
//! let name = Bytes::copy_of(alloc, b"ada")?;      // contracts see 97 ∷ 100 ∷ 97 ∷ []
//! if is_same(name.as_slice(), b"ada") { .. }
//! ```
//!
//! Proved: what each call answers. Only tested: that memory suffices if there is ample. Neither:
//! nothing else is claimed.
#![tactic(auto)]

mod bytes;
mod items;

pub use bytes::{is_same, put_at};
pub use items::{Bytes, Items};
use std::alloc::AllocError;

/// Out of memory.
pub type Memory = AllocError;
