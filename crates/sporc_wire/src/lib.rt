//! The messages between a client and the server that orders its document's entries, and the frames
//! that carry them.
//!
//! A frame is the length of a body, four bytes with the highest first, and the body, at most
//! [`MAX_BODY`] bytes of one message. [`ToServer`] and [`ToClient`] are the messages,
//! [`write_to_server`] and [`write_to_client`] give a message's frame, and [`Frames`] reads a
//! stream of frames that comes in any pieces.
//!
//! ```text
//! let mut frames = Frames::new(alloc);
//! frames.feed(&[0, 0, 0, 5, 3, 0, 0])?;               // a part of a frame
//! frames.next_to_server()?                            // None
//! frames.feed(&[0, 7])?;
//! frames.next_to_server()?                            // Some(ToServer::Pull { from: 7 })
//! write_to_server(alloc, &ToServer::Pull { from: 7 })?    // 0 0 0 5 3 0 0 0 7
//! ```
//!
//! Proved: each call of `Frames` answers what `specs/Messages.antt` says of the bytes fed so far,
//! up to the first frame that is no message or is too long, with its place, and stays there; the
//! pieces of a stream don't matter and a stream has one reading; a message that is written reads
//! back, and a body that reads is the one spelling of its message ([`laws`]). Only tested: that
//! with ample memory no call answers that memory ran out. Neither: how long a call takes.
#![tactic(auto)]

mod cutter;
mod entries;
mod entry_frames;
mod fault;
mod frames;
pub mod laws;
mod limits;
mod message;
mod refusals;
mod to_client;
mod to_server;

pub use cutter::MAX_BODY;
pub use entries::Entries;
pub use entry_frames::{counted_len, put_entries};
pub use fault::FrameFault;
pub use frames::Frames;
pub use limits::{MAX_DOCUMENTS, MAX_SESSIONS};
pub use to_client::{MAX_PULLED, ToClient, write_entries, write_to_client};
pub use to_server::{ToServer, write_submit, write_to_server};
