//! The exchange of messages with a server over a link.
//!
//! - [`Inbox`]: the bytes that were taken off a link and not handed out yet, of all its exchanges.
//! - [`send`] sends a message, as that of [`hello_of`]; [`pull`] asks for the entries after some,
//!   and [`send_entry`] for the ordering of one.
//!
//! ```text
//! let mut inbox = Inbox::new(alloc);
//! send(alloc, &mut link, &inbox, &hello_of(&document, member))?;
//! let entries = pull(alloc, &mut link, &mut inbox, line.len())?;          // none: no more
//! ```
//!
//! Proved: which bytes were written, which messages came, and why an exchange failed, over any link
//! (`specs/Asking.antt`). Only tested: that exchanges succeed with ample memory
//! (`sporc_thread_tests`, by sessions and fetches). Neither: that an answer comes.
#![tactic(auto)]

mod exchange;
mod fault;
mod inbox;

pub use crate::exchange::{Sent, hello_of, pull, send, send_entry};
pub use crate::fault::ExchangeFault;
pub use crate::inbox::Inbox;
