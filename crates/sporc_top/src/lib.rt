//! The program as a function of its words and of what is outside.
//!
//! ```text
//! // over `member 1 admin` and `show 1`: 0, and the report on `out`
//! run(&rt, alloc, &["play"], &mut source, &mut out, ..)
//! // 3, and `fault missing plan.7.key` on `out`
//! run(&rt, alloc, &["check", "plan", "7"], ..)
//! ```
//!
//! Proved: what each run did, by its status ([`run`], in `specs/Outcome.antt`), which objects
//! outside it left as they were, what a source that tells its bytes calls for, and that over runs
//! no leaf signs twice ([`laws`]). Only tested: the reports of worked scripts; commands one after
//! the other, members who work with a server in another thread, and each call outside failing in
//! turn; that a run does not run out of memory if there is ample (`sporc_top_tests`,
//! `examples/`). Neither: that a real file, port or terminal gives and keeps the bytes.
#![tactic(auto)]

pub mod laws;
mod performing;
mod program;

pub use crate::program::run;
