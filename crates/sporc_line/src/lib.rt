//! A history as one member reads it: the entries that it accepted, with their forms, the text and
//! the key of the last epoch, and the first check that an entry fails.
//!
//! - [`Line`]: opened with a document's genesis and what the member was given. `accept` appends an
//!   entry or answers the first of the 23 checks that fails; `prepare` and `commit` are its two
//!   halves, the second of which takes no memory. `accept_examined` and `prepare_examined` do the
//!   same with an entry whose signature was examined before its turn, under the key that `key_for`
//!   tells.
//! - [`read_payload`], [`pass_forms`], [`started_key`] and [`check_new_key`] speak of values alone:
//!   what a line does with an edit's body and its delta, and with a change's key.
//! - `specs/`: each of the definitions recomputes everything from the first entry: the keys of
//!   epochs (`Keys`), what each entry does (`Operations`), forms and text (`Document`), the checks
//!   (`LineChecks`), good histories (`Good`), and the strings that are hashed for one
//!   (`LineStrings`).
//! - [`laws`]: members with one good history read it alike; what one entry more makes of a good
//!   history.
//!
//! ```text
//! let mut line = Line::open(alloc, genesis, me, device, ring, pairs)?;     // NoKey, WrongKey
//! // or the first check that fails
//! line.accept(1, entry)?;
//! let text = line.text()?;
//! ```
//!
//! Proved: `prepare` and `accept`, and what does the same with an examined entry, answer exactly
//! the first fault of the definition, unless memory runs out, and leave the line as it is, or
//! append; every getter is its definition over the list; the history stays good after any calls;
//! both laws. Only tested: each refusal by entries with real signatures, and what members, a joiner
//! and a removed member read (`sporc_history_tests`). Neither: how long a call takes, and that
//! nothing is looked up in the list of entries while one is checked.
#![tactic(auto)]

mod effect;
mod fault;
mod keys;
mod kit;
pub mod laws;
mod limits;
mod line;
mod opening;
mod passing;
mod payload;
mod prepared;

pub use fault::LineOpenFault;
pub use keys::check_new_key;
pub use kit::started_key;
pub use limits::MAX_COMMITTED_LEN;
pub use line::Line;
pub use passing::pass_forms;
pub use payload::read_payload;
pub use prepared::Prepared;
pub use sporc_base::Memory;
