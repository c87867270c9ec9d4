//! A client's session with a server.
//!
//! [`session`] has a client that threads share (`sporc_shared`) work with a server over a link: up
//! to eight editors, each in a thread of its own, do the lines of their scripts, while a receiver
//! pulls, accepts and submits in rounds; then the receiver goes on alone until nothing is pending
//! and the history is long enough.
//!
//! ```text
//! let (shared, first) = SharedClient::open(alloc, client)?;
//! let (result, first) = session(
//!     &rt, alloc, &shared, first, &mut link, &mut chance, &scripts, 64, 0, &OpenGate,
//! );
//! let client = shared.close(first)?;
//! ```
//!
//! [`fetch`] needs no client: it takes all entries that a server has, unchecked, for a member who
//! joins and reads its keys off them.
//!
//! ```text
//! let entries = fetch(alloc, &mut link, &document, member)?;
//! ```
//!
//! Proved of a session, over any link, chance and editors: the messages, random words and events of
//! the receiver, in the order of the table of its modes (`specs/Protocol.antt`); that each editor's
//! events are its lines, in order, each once; why it ended; that its events are moves of a run of
//! all clients of the document ([`laws`]). Of a fetch: its messages, that it gives all entries that
//! came, and why it ended (`specs/Fetches.antt`). Only tested: that sessions and fetches succeed
//! with ample memory (`sporc_thread_tests`). Neither: that an answer comes, or a turn.
#![tactic(auto)]

mod asking;
mod context;
mod crowd;
mod editor;
mod fault;
mod fetches;
pub mod laws;
mod phase;
mod receiver;
mod round;
mod sessions;

pub use crate::fault::SessionFault;
pub use crate::fetches::fetch;
pub use crate::sessions::session;
