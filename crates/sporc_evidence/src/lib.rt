//! Evidence of a fork: what two members show to somebody who holds the genesis alone.
//!
//! A summary is all values of a history's chain, signed: digests alone, so it gives no entry away.
//! Two of them show whether their histories are one, or whether somebody was lied to.
//!
//! - [`summarize`]: the file of a line's summary, signed by the next leaf.
//! - [`read_summary`]: the [`Summary`] in a file, if it is evidence for a document: of its genesis,
//!   by a founder, with a good signature.
//! - [`judge`]: whether two summaries differ, and at which place first.
//!
//! ```text
//! let mine = summarize(alloc, &line, me, device, &mut signer, &c)?;
//! // elsewhere, with the genesis and both files
//! let a = read_summary(alloc, &mine, &genesis)?;
//! let b = read_summary(alloc, &theirs, &genesis)?;
//! match judge(&a, &b) {
//!     Judged::Consistent(verdict) => ..,
//!     Judged::Forked { after, left, right } => .., // no history has both
//! }
//! ```
//!
//! Proved: which bytes a summary is and which leaf signs it; the first fault of bytes that are no
//! evidence; what is written reads back, and what is read is written so; the judgment, which looks
//! at every place; and what it shows of the histories ([`laws::forks_are_shown`]).
//! Only tested: that calls succeed with ample memory, and each fault by files with real signatures
//! (`sporc_client_tests`). Neither: who lied, the server or one of the two who signed, and how long
//! a call takes.
#![tactic(auto)]

mod evidence;
mod fault;
mod fields;
mod founders;
mod judging;
pub mod laws;
mod summarizing;
mod summary;

pub use evidence::read_summary;
pub use fault::{EvidenceFault, SummaryFault};
pub use judging::{Judged, judge};
pub use sporc_base::Memory;
pub use summarizing::summarize;
pub use summary::Summary;
