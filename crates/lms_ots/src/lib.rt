//! One-time signatures over SHA-256: LM-OTS of RFC 8554, section 4, with `n` = 32.
//!
//! A one-time key is named by the identifier `id` of its tree, its leaf number `q` and the seed
//! from which Appendix A derives its secret parts. It signs one message: two messages under one
//! key let anyone forge a third. Whoever calls `ots_sign` sees to it that no `(id, q)` signs
//! twice.
//!
//! All numbers in the hashed strings and in a signature are big-endian.
//!
//! ```rust
//! use lms_ots::{OtsType, ots_candidate, ots_public, ots_sign};
//!
//! let signature = ots_sign(alloc, OtsType::W4, &id, q, &seed, &c, b"message")?;
//! let candidate = ots_candidate(OtsType::W4, &id, q, b"message", &signature)?;
//! assert_eq!(rt; candidate, ots_public(OtsType::W4, &id, q, &seed));
//! ```
//!
//! Proved: each call answers exactly what the RFC's text, written as definitions in `specs/`, gives
//! for its arguments; and every signature leads to the public key of its seed ([`laws`]). Only
//! tested: that these definitions, with the trees of `lms_tree`, make the signatures that another
//! implementation makes. Neither: that signatures can't be forged.
#![tactic(auto)]

mod chains;
mod coefficients;
pub mod laws;
mod ots_type;
mod public_key;
mod signature;

pub use coefficients::{checksum, coef};
pub use ots_type::OtsType;
pub use public_key::ots_public;
pub use signature::{OtsFault, ots_candidate, ots_candidate_key, ots_sign};
pub use sporc_base::Memory;
