//! Members, their roles and devices, and the changes that a document's history makes to them.
//!
//! Members are named by numbers from 1 to 65,535. A number that was ever a member's is never used
//! again in a document. A member signs by devices, each with a number from 0 to 255 and a key of
//! its own. It begins with device 0 ([`FIRST_DEVICE`]). After an Upgrade it may have further ones,
//! at most [`MAX_DEVICES`] at one time, and at least one is always left; a number that was ever a
//! device of the member is never one again.
//!
//! A [`Roster`] holds the members, at most [`MAX_MEMBERS`], with their live devices, and tests and
//! makes [`Change`]s: a new member, one that leaves, another role, a further device, one that signs
//! no more, the Upgrade. At least one admin is always left. Its people ([`Person`]) are all who are
//! or were members, with every device that they ever used; a roster can be made of them again.
//!
//! ```text
//! let mut roster = Roster::found(alloc, genesis.founders.as_slice())?;
//! roster.test(&change)?;                    // the first fault of the change, if it has one
//! roster.make(&change)?;                    // takes no memory after `reserve`
//! ```
//!
//! Proved: a change is refused for exactly its first fault and otherwise makes exactly its change;
//! members stand in the order of their numbers; a device that was removed is live never again; what
//! takes memory leaves all as it was if there is none. Only tested: the names of faults by a table,
//! and that memory suffices if there is ample. Neither: nothing else is claimed.
#![tactic(auto)]

mod change;
mod device;
mod device_lists;
mod founder;
pub mod laws;
mod limits;
mod lists;
mod member;
mod people;
mod role;
mod roster;

pub use change::{Change, ChangeFault};
pub use device::{Device, FIRST_DEVICE, KeyedDevice};
pub use founder::Founder;
pub use limits::{MAX_DEVICES, MAX_MEMBERS};
pub use member::Member;
pub use people::{Owned, Person};
pub use role::{Role, role_name};
pub use roster::Roster;
pub use sporc_base::Memory;
