//! The files of keys and of rings, and what they are made of.
//!
//! A device's key file has the seed of its signatures, and a member's ring file the keys that it
//! has from the beginning, with all its devices: the key of epoch 0, if it is a founder, and a key
//! shared with each other member that is named. Both formats have big-endian numbers and one
//! spelling; a reader answers the file, or the place of the first byte of the first field that is
//! cut short or has a forbidden value.
//!
//! ```text
//! // key file, public key, blank leaf file
//! let key = keygen(rt, alloc, &mut chance, Device::first(3), LmsType::H10, OtsType::W4)?;
//! // genesis and rings
//! let founding = found(alloc, &mut chance, &named)?;
//! // Malformed(4) if it is another member's
//! let file = key_of_device(bytes, Device::first(3))?;
//! let ring = ring_of_member(alloc, bytes, 3)?;
//! ```
//!
//! Proved: what is read is spelled so, what is spelled so is read, and which place is named
//! otherwise; that the key file of another device is refused ([`laws`]); what is made of which
//! words of the chance, and how many a call that failed may have drawn; that each two who are named
//! share one key, which is in both rings. Only tested: the bytes of small files, spelled by hand,
//! and that calls succeed with ample memory (`sporc_commands_tests`). Neither: that a chance is
//! random, and that keys stay secret.
#![tactic(auto)]

mod draw;
mod fault;
mod format;
mod founders;
mod founding;
mod in_order;
mod key_file;
pub mod laws;
mod named;
mod new_key;
mod pair;
mod ring_file;
mod ring_reading;
mod rings;

pub use fault::{DrawFault, Malformed, RingFileFault};
pub use founding::{Founding, Rings, found};
pub use key_file::{KeyFile, key_of_device, write_key_file};
pub use named::Named;
pub use new_key::{NewKey, keygen};
pub use ring_file::{PairKey, PairKeys, RingFile, write_ring_file};
pub use ring_reading::{read_ring_file, ring_of_member};
pub use sporc_base::Memory;
