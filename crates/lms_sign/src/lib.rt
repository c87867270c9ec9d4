//! A signer that uses each one-time key once.
//!
//! A [`Signer`] joins a tree of keys and the leaf numbers of its leaf file. It draws [`Ticket`]s,
//! and a ticket signs one message: the signature that succeeds spends it, and a ticket that is not
//! to sign is given up. A ticket has no `Drop`, so none is forgotten on the way; a [`KeptTicket`]
//! has, for a value that holds one over several calls.
//!
//! ```text
//! let mut signer = Signer::open(tree, leaves);
//! let ticket = signer.draw()?;
//! match signer.sign(alloc, ticket, &c, b"hello") {
//!     Ok(signature) => assert!(rt; verify(&signer.public(), b"hello", &signature)),
//!     Err((ticket, memory)) => ticket.give_up(), // or try again
//! }
//! ```
//!
//! Proved: a draw gives the next leaf of the file, with the faults of `lms_leaf`; a signature is
//! RFC 8554's by the ticket's leaf, and verifies under the public key. Only tested: that one
//! signature is Bouncy Castle's. Neither: that a ticket is given to the signer that drew it, as it
//! has to be, since another has other keys.
#![tactic(auto)]

mod signer;
mod ticket;

pub use crate::signer::Signer;
pub use crate::ticket::{KeptTicket, Ticket};
pub use sporc_base::Memory;
