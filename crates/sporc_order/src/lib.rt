//! The order of a document's entries, as its server keeps it: a list that grows by each entry that
//! passes the checks which need no key, and that hands out its entries in order.
//!
//! [`Order`] is the list, and [`Session`] answers the messages of one client from it: with the
//! message that is to be sent, or with the frame of it, into which entries are copied once.
//!
//! ```text
//! let position = order.submit(entry)?;      // the first check that fails is the refusal
//! // under which key its signature may be examined before
//! order.key_for(entry)
//! order.submit_examined(&examined)?;        // answers as submit does
//! // the longest batch from the first entry on that its limits allow
//! order.pull(0)
//! session.step(&mut order, &message)       // what is sent, nothing, or that the session ends
//! // a reply where a tail keeps each entry before the order takes it
//! session.step_kept(.., &mut tail)
//! ```
//!
//! Proved: an entry is appended exactly if no check fails, whatever is known of its signature; an
//! answer is the longest batch within its limits, empty exactly if there are no more entries; each
//! answer of a session is the order's at its entries; and a tail that keeps an order's entries
//! keeps those after each call, and what it does not keep is neither taken nor answered. Only
//! tested: that the calls succeed with ample memory. Neither: that a client gets an answer, and
//! that a signature whose verdict is known is not verified again.
#![tactic(auto)]

pub mod laws;
mod order;
mod reply;
mod session;
mod tail;

pub use order::{MAX_PULLED_BYTES, Order};
pub use reply::Reply;
pub use session::{Answer, Session};
pub use sporc_base::Memory;
pub use sporc_wire::MAX_PULLED;
pub use tail::{NoTail, Tail, Unanswered, Unkept, Untaken};
