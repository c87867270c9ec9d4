//! Fields of bytes: a cursor that reads them one after another, and a buffer that they are written
//! into.
//!
//! All numbers are big-endian. A counted string is a `u32` length and then so many bytes.
//!
//! ```text
//! let mut cursor = Cursor::new(&[0, 7, 97, 98]);
//! let n = cursor.u16()?;        // 7
//! let rest = cursor.take(2)?;   // "ab"
//! let end = cursor.u8();        // Err(Short(4)): the field that is cut short begins at place 4
//! ```
//!
//! `specs/Fields.antt` is the one reading of fields that all formats are written over: a function
//! that gives a value and what is left, or the first fault, whose type is a parameter.
//! `proofs/Fields.antt` has its laws: a field that is read is spelled by the bytes that it took,
//! and a spelled field is read again. `proofs/ListLaws.antt` has the same of lists of values, and
//! `proofs/Lists.antt` what a loop that reads them keeps.
//!
//! Proved: what each call reads or writes, where it stands after, and which place it names if a
//! field is cut short. Only tested, by the formats that use it: that memory suffices if there is
//! ample. Neither: nothing else is claimed.
#![tactic(auto)]

mod cursor;
mod out;

pub use cursor::{Cursor, Short};
pub use out::Out;
pub use sporc_base::Memory;
