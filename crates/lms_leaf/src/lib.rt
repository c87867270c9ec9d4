//! Leaf numbers that no crash repeats.
//!
//! A key of many one-time keys may use each of them, its leaves, once only. So a file keeps which
//! of them may be used: it has a byte for each block of four leaves, zero at first. A block is
//! taken by writing 1 to its byte and by a sync that succeeds, before any of its leaves is given.
//! An opening begins with a sync, and the numbers go on behind the last block that is taken: some
//! leaves may stay unused.
//!
//! ```text
//! let mut leaves = Leaves::open(alloc, disk, 10)?;    // the file of a tree of 2^10 leaves
//! let leaf = leaves.draw()?;                          // to sign with, once
//! let disk = leaves.close();
//! ```
//!
//! Proved, of a disk that tells contracts its bytes and behaves as
//! [`LeafDisk`](sporc_outside::LeafDisk) says: no number is given twice, over any openings, draws,
//! failed calls and crashes ([`laws::no_leaf_is_drawn_twice`]), nor over runs of a program, of each
//! of which only its start and its end are known ([`laws::leaves_rise_over_lives`]); what each call
//! gives, and when it fails; that an opening syncs before it reads; that no crash makes the block
//! of a leaf drawn since the opening free again, and that whatever a crash leaves, a later opening
//! goes on at the next leaf or above it. There is one file per key, which one program at a time
//! opens and nobody sets back.
//!
//! Only tested: that calls succeed with ample memory. Neither: that a real file behaves as the
//! model.
#![tactic(auto)]

mod faults;
pub mod laws;
mod leaf_file;
mod leaves;

pub use crate::faults::{LeafFault, LeafOpenFault};
pub use crate::leaf_file::{LEAVES_PER_BLOCK, blank};
pub use crate::leaves::Leaves;
pub use sporc_base::Memory;
