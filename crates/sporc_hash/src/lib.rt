//! The SHA-256 chain over a history of entries, the comparison of two histories by their chains,
//! and the commitments to the keys of a document's epochs.
//!
//! A chain has a value before the first entry, of the genesis, and one after each entry. Each kind
//! of hashed string begins with a byte of its own (0x00 the genesis, 0x01 a link, 0x02 an entry,
//! 0x04 a commitment; 0x03 begins what an author signs, in `sporc_entry`), so no string of one kind
//! is a string of another.
//!
//! ```rust
//! let first = genesis_hash(b"genesis");
//! let ours = [first, next_hash(&first, b"our entry")];
//! let theirs = [first, next_hash(&first, b"their entry")];
//! assert_eq!(rt; compare(&ours, &theirs), Verdict::ForkedAfter(0));
//! ```
//!
//! Proved: each value is the SHA-256 of exactly the string that `specs/Chain.antt` lists, for all
//! inputs; what `compare` says of any values; and, if no two different strings hashed for two
//! histories have one digest (`CollisionFree`), that one value means one history and that `compare`
//! says how the histories stand to each other. Only tested: that these strings give the digests
//! that Python's `hashlib` gives. Neither: that SHA-256 has no collisions.
#![tactic(auto)]

mod chain;
pub mod laws;
mod verdict;

pub use chain::{Digest32, commit, entry_hash, genesis_hash, link_hash, next_hash};
pub use verdict::{Verdict, compare};
