//! What a client does with a server over a link, in one thread: it pulls the entries that there are.
//!
//! ```text
//! send(alloc, &mut link, &inbox, &hello_of(client.document(), client.me()))?;
//! pull_all(alloc, &mut client, &mut link, &mut inbox)?;     // until no more come
//! ```
//!
//! Proved: which messages are sent and which come; that the client's log grows by an accept by 0 of
//! each entry, up to one that removes its device, and that the first that it refuses decides; why
//! it stops. Neither proved nor tested: that memory suffices if there is ample, that an answer
//! comes, and how long a call takes.
#![tactic(auto)]

mod fault;
mod pulling;
mod taking;

pub use crate::fault::RoundFault;
pub use crate::pulling::pull_all;
