//! The command `client`: a member's device works with a server, beside its editors, and its
//! journal, report and history are kept.
//!
//! ```text
//! client plan 4 here:7 --rounds 2 --until 1 hello.script      // hello.script: insert 0 "hello"
//! edit 1 0 i"hello"
//! submit 0 01..
//! accept 0 1
//! 4 at 1 pending 0 text "hello"
//! 4 hash 5e..
//! ```
//!
//! What a session begins with, from the files of its device to its client, `sporc_device` makes.
//!
//! Proved: [`client`] does what `ClientOutcome` says, by its answer. The genesis, the device's key,
//! the member's ring and the scripts are what their files say; a joiner's keys are the hints of
//! exactly the entries that were fetched; the device's client goes on with all entries of its saved
//! history, each an accept by 0, over the leaves behind the last block that is taken in its leaf
//! file; its session is one of `sporc_session` on that client's log (`IsSession`), over a link of
//! its own; the file has exactly the entries of the client behind it, and what is printed is its
//! journal and its report to the byte, or a prefix of them, however the session ended, and the
//! session's fault comes first, unless memory ran out at one of these; a session that the link, the
//! chance or the leaf file's disk ended stands for a count that rose. The leaves of its submissions
//! rise from the first of the opening on, and no crash frees their blocks on the disk that comes
//! back. Where no session began, nothing is printed, no file has changed, and no word of the chance
//! is taken; the fault names its cause. Whatever came of it, the files asked for are those of the
//! device, the ring, the genesis and the scripts, and no others; links are asked for at the address
//! alone, two at most; each disk is back, and each link, shut; and no count of faults has fallen.
//! Over runs one behind another no leaf signs twice ([`laws`]).
//!
//! Only tested: two members who work with a server, each status that a session ends with, and each
//! call outside failing in turn (`sporc_top_tests`). Neither: that the server answers, and,
//! but for a test on files of the system (`examples/commands/run`), that what is printed is saved
//! before.
#![tactic(auto)]

mod attending;
mod causes;
mod command;
mod concluding;
pub mod laws;
mod reporting;
mod session;
mod working;

pub use crate::command::client;
pub use sporc_device::Platform;
