//! The lines that tell of a client: its journal, what it shows, its members, the last value of its
//! chain, how its history stands to another's; those of a history's entries; and the names of
//! faults. What is named `push_` appends to a text. If it runs out of memory, the text begins with
//! what it was before, and may have a part of the line behind it.
//!
//! ```text
//! push_journal(alloc, &mut out, client.journal())?;   // edit 0 0 i"abc"
//! push_show(&mut out, &client)?;                      // 1 at 1 pending 0 text "abc"
//! push_members(&mut out, &client)?;                   // 1 members 1=admin 2=editor:0,1
//! push_verdict(&mut out, one, other, Verdict::Prefix)?; // 1 2.1 prefix
//! push_entries(alloc, &mut out, &line, 1)?;           // 1 1 1 0 edit i"abc"
//! ```
//!
//! Proved: a call that succeeds appends the line or the name of the definitions in `specs/`, and
//! names no `Memory` of the faults that it takes; after out of memory the text begins with what it
//! was; the text of a history can be followed by the lines of its entries ([`laws`]). Only tested:
//! that the calls succeed with ample memory (`sporc_top_tests`). Neither: how long they take.
#![tactic(auto, using(crate::proofs::Beginnings::begins_then, crate::proofs::Beginnings::begins_last))]

mod appending;
mod entries;
mod journal;
pub mod laws;
mod names;
mod quoted;
mod showing;

pub use crate::appending::{push_between, push_counted, push_decimal, push_word};
pub use crate::entries::push_entries;
pub use crate::journal::{push_delta, push_journal};
pub use crate::names::{
    edit_fault_name, hint_fault_parts, open_fault_name, push_accept_fault, push_edit_fault,
    push_hint_fault, push_open_fault, push_submit_fault,
};
pub use crate::quoted::push_quoted;
pub use crate::showing::{
    last_hash, push_device, push_digits, push_hash, push_members, push_number, push_show,
    push_start, push_verdict,
};
pub use sporc_base::Memory;
