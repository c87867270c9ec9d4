//! A client that threads share.
//!
//! A [`SharedClient`] is a client under a lock whose holders take turns (`sporc_turn`). Who wants
//! the client has a [`Pass`]; a call takes a turn, makes one event of the client or none, and gives
//! the turn back. Each answer comes with the [`Front`] at which the call left the journal, and an
//! edit names the front on whose text it is stated.
//!
//! ```text
//! let (shared, first) = SharedClient::open(alloc, client)?;
//! let (first, second) = shared.split(first)?;                   // one pass for each thread
//! let Answered { answer, front, pass } = shared.look(&rt, second)?;
//! let delta = Delta::insert_at(alloc, answer.len, 0, "a")?;
//! let Answered { answer, front, pass } = shared.edit(&rt, pass, front, &delta)?;
//! let first = shared.join(first, pass);
//! let client = shared.close(first)?;
//! ```
//!
//! Verifying an entry's signature is what accepting it takes longest for, and it can be done before
//! the turn, under the key that the author's device has then:
//!
//! ```text
//! let Answered { answer: key, pass, .. } = shared.key_for(&rt, pass, &entry)?;
//! let examined = Examined::of(&key?, entry)?;                   // no turn is held
//! let Answered { answer, front, pass } = shared.accept_examined(&rt, pass, 1, &examined)?;
//! ```
//!
//! Proved, whatever the threads do between: each call answers what the plain client answers at one
//! moment of one journal, which begins with all that the pass had seen and has the pass's own
//! events, in order, and no others with its number; the call's event, if it made one, ends that
//! journal, and the pass has seen it all. What `close` gives back is the client with the journal
//! that its pass has seen, whose entries were signed by leaves from the opening's next one on, each
//! once. A submission answers that the disk of the leaves failed only if its pass has then seen
//! that this disk counted a fault; that of the client that `close` gives back has counted no fewer
//! than its pass has seen. Only tested: that calls of two passes succeed with ample memory
//! (`sporc_thread_tests`). Neither: that a turn comes, and whose turn comes first.
#![tactic(auto)]

mod answered;
mod desk;
mod front;
mod held;
mod item;
mod journal;
mod look;
mod membership;
mod shared_client;

pub use crate::answered::{Answered, Reply};
pub use crate::front::Front;
pub use crate::item::{Item, Pass};
pub use crate::look::Look;
pub use crate::membership::Membership;
pub use crate::shared_client::SharedClient;
pub use sporc_base::Memory;
pub use sporc_turn::{Away, Worn};
