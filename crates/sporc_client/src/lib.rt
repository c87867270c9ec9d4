//! One member's client of a shared text: it edits, signs entries and accepts them, and keeps a
//! journal from which all of its state can be computed anew.
//!
//! - [`Client`]: opened with a document's genesis and what the member was given, or resumed with a
//!   history. `edit` and `change` append pending items; `submit` signs an entry of the first;
//!   `accept` takes an entry, and the pending edits and another's edit pass each other;
//!   `accept_examined` does the same with an entry whose signature was examined before, under the
//!   key that `key_for` tells; `discard` gives up what is pending; `restart` goes back to an
//!   earlier history.
//! - [`Event`]: what the journal has, one for each call that did something.
//! - [`EditFault`], [`SubmitFault`], [`AcceptFault`], [`RestartFault`]: why a call is refused, in
//!   the order of the checks.
//! - `specs/`: a client as a plain record (`PlainClient`), its log (`Log`), what each event does
//!   (`Step`), what each call answers (`Answers`, `Submissions`), which logs its calls can make
//!   (`Allowed`), and what holds of it (`Soundness`).
//! - [`laws`]: what all clients of one document agree on, whatever a server hands them.
//!
//! ```text
//! let mut client = Client::open(alloc, genesis, me, device, ring, pairs, signer)?;
//! client.edit(1, 0, &Delta::insert_at(alloc, 0, 0, "a")?)?;
//! let submitted = client.submit(1, &random)?;          // Entry(bytes), for the server
//! client.accept(1, 1, bytes)?;                         // as the server hands it back
//! ```
//!
//! Proved: each call answers what its definition over the journal answers, unless memory runs out,
//! and the journal grows by that call's event or stays; the state is the replay of the journal;
//! both texts are the definition's; no two entries carry one leaf, over all calls, and no crash
//! makes the blocks of the leaves that signed free again; all laws. Only tested: that calls succeed
//! with ample memory (`sporc_client_tests`). Neither: how long they take.
#![tactic(auto)]

mod client;
mod coming;
mod event;
mod fault;
mod halves;
pub mod laws;
mod limits;
mod pending;
mod rebasing;
mod submitted;
mod workspace;

pub use crate::client::Client;
pub use crate::event::Event;
pub use crate::fault::{AcceptFault, ClientOpenFault, EditFault, RestartFault, SubmitFault};
pub use crate::halves::{first_half, second_half};
pub use crate::limits::{MAX_EDIT_BYTES, MAX_EVENTS, MAX_HEAD_BYTES, MAX_PENDING, MAX_SHOWN_LEN};
pub use crate::pending::Pending;
pub use crate::submitted::Submitted;
pub use sporc_base::Memory;
pub use sporc_hash::{Verdict, compare};
