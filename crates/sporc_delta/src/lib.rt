//! Deltas of texts.
//!
//! A [`Delta`] says how to come from one text to another: a list of parts that cover the whole text
//! before it, each of which keeps, inserts or removes some characters. Contracts see it as the list
//! of its marks, one for each character; its parts are the runs of equal marks, and it has one
//! spelling in bytes. [`Text`] and [`TextSlice`] are UTF-8 that counts its characters (Unicode
//! scalar values), seen as the list of them.
//!
//! ```text
//! let delta = Delta::insert_at(alloc, 3, 3, "d")?;     // "abc" becomes "abcd"
//! // 01 0000000000000003 02 0000000000000001 64
//! let bytes = delta.encode()?;
//! let again = Delta::decode(alloc, bytes.as_slice())?; // the same delta
//! ```
//!
//! Proved: each call's result, also which fault of the bytes is answered; that what is read is
//! spelled so and what is spelled so is read; that marks have one list of runs; that two deltas are
//! the same exactly if `is_same` says so. Only tested: the spelling of the format's example, and
//! that no call runs out of memory if there is ample. What deltas do to texts, and how they are
//! transformed, is defined here (`specs/Marks.antt`, `specs/Transforms.antt`) and proved in
//! `sporc_text` and `sporc_xform`. Neither: how long a call takes.
#![tactic(auto)]

mod decode;
mod delta;
mod encode;
mod ends;
mod fault;
pub mod laws;
mod limits;
mod part;
mod shift;
mod text;

pub use crate::delta::Delta;
pub use crate::fault::DeltaFault;
pub use crate::limits::{MAX_COUNT, MAX_DELTA_BYTES, MAX_TEXT_LEN};
pub use crate::part::{Kind, Part, Piece};
pub use crate::shift::Shift;
pub use crate::text::{Text, TextSlice};
