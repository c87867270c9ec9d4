//! The server of `sporc_serve`.

mod bad_peers;
mod crowd;
mod failing_links;
mod held_sessions;
pub mod notes;
pub mod replies;
pub mod server;
pub mod streams;
mod unkept;
