//! Signatures by trees of one-time keys over SHA-256: LMS of RFC 8554, section 5, with `m` = 32.
//!
//! A `Tree` holds the nodes of one private key and signs with a given leaf; `verify` needs the
//! public key alone and takes no memory. Which leaf comes next is not this crate's business: a
//! leaf that signs two messages lets anyone forge a third.
//!
//! The leaves are nearly all of a tree's cost: `Tree::build_by_workers` shares them out among
//! threads.
//!
//! All numbers in keys, signatures and hashed strings are big-endian.
//!
//! ```rust
//! use lms_tree::{LmsType, Tree, verify};
//!
//! let tree = Tree::build(alloc, &seed, &id, LmsType::H10, OtsType::W4)?;
//! let signature = tree.sign(alloc, q, &c, b"message")?;
//! assert!(rt; verify(&tree.public(), b"message", &signature));
//! ```
//!
//! Proved: keys, signatures and verification are exactly those of the RFC's text, written as
//! definitions in `specs/`, and every signature by every key verifies ([`laws`]); any number of
//! workers builds the tree that one thread builds. Only tested: that these definitions give the
//! keys and signatures that Bouncy Castle makes, for trees of heights 5 and 10, and verify its
//! signatures up to height 25. Neither: that signatures can't be forged, that the chance from which
//! seeds and randomizers come is good, and that seeds are wiped from memory: they are not.
#![tactic(auto)]

mod fields;
pub mod laws;
mod lms_type;
mod nodes;
mod public_key;
mod tree;
mod verification;

pub use lms_type::LmsType;
pub use public_key::LmsPublic;
pub use sporc_base::Memory;
pub use tree::Tree;
pub use verification::{verify, verify_parts};
