//! The lines of a text.

ghost use Rattle.std.specs.Prelude.{◌≡◌, ◌<◌, ◌≤◌, ◌↔◌, ◌∷◌, ◌++◌, IsTrue, OnOk, length};
ghost use Rattle.std.specs.Option.{option_to_list};
ghost use Rattle.sporc_script.specs.declared.lines.LineFault.TheVariants as faults;
ghost use Rattle.sporc_script.specs.Lines.{IsSkipped, lines_of};

use crate::words::split_once;
use sporc_base::Memory;
use std::alloc::{AllocError, AllocFailed};
use thiserror::Error;

/// Why a text is no script.
#[derive(Clone, Copy, Debug, PartialEq, Eq, Error)]
pub enum LineFault {
    #[error("out of memory")]
    Memory,
    /// The first line outside the grammar, counted from 1.
    #[error("line {line} is outside the grammar")]
    Line { line: u32 },
}

impl From<AllocError> for LineFault {
    ghost from_gives = { λ _ fault. fault ≡ faults.Memory };

    fn from(_: AllocError) -> LineFault {
        LineFault::Memory
    }
}

impl<T: Drop> From<AllocFailed<T>> for LineFault {
    ghost from_gives = { λ _ fault. fault ≡ faults.Memory };

    fn from(_: AllocFailed<T>) -> LineFault {
        LineFault::Memory
    }
}

// The first line, and what follows it.
pub fn next_line(text: &[u8]) -> (&[u8], &[u8])
    requires { 0 < length text.now }
    ensures lines { lines_of text.now ≡ result.0.now ∷ lines_of result.1.now }
    ensures shorter { length result.1.now < length text.now }
    ensures within { length result.0.now ≤ length text.now }
{
    match split_once(text, b'\n') {
        Some(parts) => parts,
        None => (text, &[]),
    }
}

/// Whether the line is empty, or a comment in UTF-8.
pub fn is_skipped(line: &[u8]) -> bool
    ensures value { IsTrue result ↔ IsSkipped line.now }
{
    match line {
        [] => true,
        [b'#', ..] => str::from_utf8(line).is_ok(),
        _ => false,
    }
}

// Keeps what was read of a line, if it is not skipped.
pub fn keep<T: Drop>(lines: &mut Vec<T>, read: Option<T>) -> Result<(), Memory>
    ensures { OnOk result (lines.new.items ≡ lines.old.items ++ option_to_list read) }
{
    if let Some(line) = read {
        lines.push(line)?;
    }
    Ok(())
}
