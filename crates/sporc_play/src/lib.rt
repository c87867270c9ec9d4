//! Plays: scripts of what the members of a group do, performed one command after another on signing
//! clients.
//!
//! [`play`] reads a script from a source, performs it on the members' clients, and writes to a sink
//! what each command answers. [`play_generated`] performs a run of three members that needs no
//! script, and writes its summary. The script on the left has the report on the right:
//!
//! ```text
//! member 1 admin
//! edit 1 insert 0 "abc"     1 edit event 1
//! submit 1                  1 submit entry 1
//! give 1 1 1                1 accept 1 ok
//! show 1                    1 at 1 pending 0 text "abc"
//! ```
//!
//! Proved: the report and the generated run's line are those of the definitions, which perform the
//! commands on plain records of clients and recompute all from the first entry; each answer names
//! its cause, and after a fault a prefix of the report was written; each play is a run of its
//! members' clients ([`laws`]). Only tested: that plays succeed with ample memory
//! (`sporc_top_tests`, `examples/`). Neither: how long a play takes.
#![tactic(auto)]

mod acting;
mod cast;
mod derived;
mod fault;
mod forging;
mod generated;
mod joining;
pub mod laws;
mod made;
mod opening;
mod playing;
mod seat;
mod signing;
mod state;
mod trees;

pub use crate::fault::PlayFault;
pub use crate::generated::play_generated;
pub use crate::playing::{MAX_SCRIPT, play};
