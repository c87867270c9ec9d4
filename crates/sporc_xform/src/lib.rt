//! Transforms of deltas of texts.
//!
//! Of two deltas over one text, each is restated behind the other, so that both orders lead to one
//! text; and a delta and one over the text after it are put together. At one place the insertion
//! that is ordered earlier stands left.
//!
//! ```text
//! let x = Delta::insert_at(alloc, 1, 1, "X")?;    // "a" becomes "aX"
//! let y = Delta::insert_at(alloc, 1, 1, "Y")?;    // "a" becomes "aY"
//! let y = later(alloc, &y, &x)?;                  // "aX" becomes "aXY"
//! ```
//!
//! [`restate_later`] and [`pass`] do the same in place. Nearly all deltas are single edits, and
//! where two of them don't meet, only a count at one end of each changes.
//!
//! Proved: that each call gives what the definitions of `sporc_delta` say; that both orders lead to
//! one text; that compositions are associative; that a delta passes a composition as it passes its
//! two deltas; that memory can run out in place only if changes meet. Only tested: the worked rows
//! of two inserts at one place, of overlapping removals and of texts cut in their midst, and that
//! memory suffices if there is ample. Neither: how long a call takes.
#![tactic(auto)]

mod composition;
mod cursor;
pub mod laws;
mod restating;
mod side_by_side;
mod transform;

pub use crate::composition::compose;
pub use crate::restating::{Passed, pass, restate_later};
pub use crate::transform::{both, earlier, later};
pub use sporc_base::Memory;
