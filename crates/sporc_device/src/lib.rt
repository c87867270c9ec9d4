//! What a member's device begins with, before its client works with a server: what its files say,
//! its line with the history that it saved, and its signer.
//!
//! ```text
//! let files = read_member(rt, alloc, &mut folder, &names, device, editors)?;
//! let signer = open_signer(alloc, disk, files.tree, device)?;
//! let member = Member { genesis: files.genesis, device, ring: files.ring, saved };
//! let line = resume_line(&platform, &mut net, address, member)?;
//! let client = resume_client(alloc, line, signer)?;
//! ```
//!
//! Proved: the genesis, the device's key, the member's ring and the scripts are what their files
//! say, and the first that fails decides; a signer goes on behind the last block that is taken in
//! its leaf file; a joiner's keys are the hints of exactly the entries that were fetched, over a
//! link that is shut and taken back; a line has all entries of its saved history, and a client that
//! goes on with it has an accept by 0 of each. Each fault names its cause, and no count of faults
//! falls. Only tested: that these calls succeed with ample memory (`sporc_top_tests`, by the
//! command `client`). Neither: that the server answers.
#![tactic(auto)]

mod causes;
mod fetching;
mod leaf_file;
mod member;
mod member_files;
mod opening;
mod platform;
mod resuming;

pub use crate::causes::session_fault;
pub use crate::fetching::fetch_entries;
pub use crate::leaf_file::open_signer;
pub use crate::member::Member;
pub use crate::member_files::{MemberFiles, read_member};
pub use crate::opening::open_member;
pub use crate::platform::Platform;
pub use crate::resuming::{resume_client, resume_line};
