//! The checks of an entry against a history that need no key of an epoch, and the history with what
//! they look up.
//!
//! [`Heads`] holds a document's genesis and the bytes of its entries, at most [`MAX_ENTRIES`]. An
//! entry is read once, where its bytes stand, and copied once, after all checks: so a refusal
//! copies nothing. It is hashed once for the chain: before its turn if it is examined then, or
//! else after all checks.
//!
//! ```text
//! // the first check that fails is the refusal
//! let checked = heads.check(None, heads.len() + 1, bytes)?;
//! heads.push(checked)                                         // takes no memory after `reserve`
//! ```
//!
//! The costly check, of the signature, can be done before an entry's turn:
//!
//! ```text
//! // the key of its author's device here; takes no memory
//! let key = heads.key_for(entry.as_slice())?;
//! let examined = Examined::of(&key, entry)?;           // needs no history
//! // verifies anew only under another key
//! let checked = heads.check_examined(None, heads.len() + 1, &examined)?;
//! ```
//!
//! The checks against an entry's author and of a change at a roster stand alone too, for who has
//! these without the history: [`check_author`], [`check_change`].
//!
//! Proved: a refusal is exactly the first check that fails over the whole list of entries, what is
//! looked up is what that list says, and an entry that was checked is appended as it is; a verdict
//! is exact, and the answer is the same whatever key an entry was examined under. Only tested: each
//! refusal by an entry with a real signature that fails its check alone, and by one that fails all
//! later checks too. Neither: that signatures can't be forged, and that a signature which was
//! examined isn't verified again.
#![tactic(auto)]

mod authors;
mod changes;
mod checked;
mod examined;
mod heads;
pub mod laws;
mod limits;
mod refusal;
mod tables;

pub use authors::{Author, allows, check_author};
pub use changes::check_change;
pub use checked::Checked;
pub use examined::{Examined, Verdict};
pub use heads::Heads;
pub use limits::MAX_ENTRIES;
pub use refusal::{NameParts, Refusal};
pub use sporc_base::Memory;
