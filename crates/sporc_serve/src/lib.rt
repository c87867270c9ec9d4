//! A server of many sessions at once, round one order.
//!
//! [`serve`] listens, takes so many links, and runs a session over each, in a thread of its own
//! where one can be made. The order lies under a ticket lock, with the number of the pass that
//! submitted each entry. A session takes a turn for each message, and holds none while it reads,
//! sends, or calls the gate. Of a submitted entry it asks the order for its author's key, in a turn
//! of its own, and examines the signature under that key before it takes the turn that orders the
//! entry: so sessions verify side by side.
//!
//! [`serve_kept`] is handed a tail too, which keeps each entry before the order takes it: so a stop
//! at any moment loses none that was answered.
//!
//! A server of another make, as one of many documents, runs the same session from its first message
//! on: [`first_message`] waits for it, [`serve_from`] serves from it at the order under a lock that
//! [`open_kept`] made, and [`close_kept`] takes the order out again.
//!
//! ```text
//! let (order, answer) = serve(&rt, alloc, &mut net, "localhost:4000", order, 2, &OpenGate);
//! ```
//!
//! Proved, over every way in which the turns of the sessions may follow one another: each session's
//! answers are the order's to the messages of its link, at lists that begin with one another, and
//! were sent; why it ended; that the order handed back begins with the one handed in, and each
//! further entry is one session's; that each link comes back, and was shut; that no other address
//! was asked for; that the tail keeps all entries of the order whenever nobody has a turn. Only
//! tested: that sessions go on beside one another, that a signature is examined while no turn is
//! held, and that the calls succeed with ample memory (`sporc_thread_tests`). Neither: that a
//! client gets an answer.
#![tactic(auto)]

mod crowd;
mod desk;
mod end;
mod fault;
mod first;
mod item;
mod kept_order;
pub mod laws;
mod opening;
mod replying;
mod sending;
mod server;
mod service;
mod session;
mod turns;

pub use crate::crowd::with_end;
pub use crate::desk::Desk;
pub use crate::end::SessionEnd;
pub use crate::fault::ServeFault;
pub use crate::first::first_message;
pub use crate::item::Item;
pub use crate::kept_order::KeptOrder;
pub use crate::opening::{close_kept, open_kept};
pub use crate::server::{serve, serve_kept};
pub use crate::service::Service;
pub use crate::session::serve_from;
pub use sporc_wire::MAX_SESSIONS;
