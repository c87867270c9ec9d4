//! The keys of a document's epochs.
//!
//! Each change of the members ends an epoch and starts the next, which has a key of its own. The
//! change seals the new key for each member after it, under the pairwise key of its author with
//! that member ([`seal_change_at`], [`open_wrap_at`]), and the key of the epoch that it ends under
//! the new one ([`open_previous`]). So a member whom a change adds finds the keys of earlier epochs
//! backwards ([`hints_from`]). A [`Ring`] holds the keys that a member knows.
//!
//! A key of 32 bytes is sealed by a mask of `sporc_cipher` (exclusive or with a ChaCha20 stream):
//! for a member with the stream that the entry's signing device and leaf name ([`entry_stream`]),
//! and under a new key with one that the epoch names. The change commits to the new key by SHA-256
//! over the document, the epoch and the key.
//!
//! ```text
//! let stream = entry_stream(device, leaf);
//! let (change, members, document) = (&change, &members, &document);
//! let sealing = Sealing { change, members, document, stream, epoch, old: &old, new: &new };
//! let body = seal_change_at(alloc, &sealing, &pairs)?;
//! // Some(new), under the same pairwise key
//! open_wrap_at(&body, device.member, stream, me, &mine)
//! open_previous(&body, epoch + 1, &new)                // old
//! let ring = hints_from(alloc, &entries, me, &mine)?;  // the keys of the epochs before, too
//! ```
//!
//! Proved: each call answers what its definition in `specs/` says, over masks by RFC 8439 and
//! SHA-256 by FIPS 180-4, with the cause of each fault; what is sealed opens, has a spelling, and
//! names the members ([`laws`]); after [`Ring::reserve`] the next [`Ring::put`] takes no memory.
//! Only tested: bytes against OpenSSL and Python's hashlib. Neither: that a key is secret, and that
//! hints are the keys of a good history, which the checks of an entry find out.
#![tactic(auto)]

mod fault;
mod hints;
mod joining;
pub mod laws;
mod pairs;
mod ring;
mod seal;
mod sealing;
mod start;
mod streams;
mod wraps;

pub use fault::{HintFault, SealFault};
pub use hints::hints_from;
pub use pairs::Pairs;
pub use ring::Ring;
pub use seal::{least_unpaired, seal_change, seal_change_at};
pub use sealing::Sealing;
pub use sporc_base::Memory;
pub use streams::{MAX_EPOCH, entry_stream, stream_of};
pub use wraps::{open_previous, open_wrap, open_wrap_at};
