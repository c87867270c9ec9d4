//! Where the reading of a saved history stops.

use sporc_head::Refusal;

/// Where the reading of a saved history stops.
#[derive(Clone, Copy, PartialEq, Eq)]
pub enum Stop {
    /// At the end: every entry of the file is taken.
    End,
    /// Before everything: the file is no saved history of this document.
    Foreign,
    /// At this place of the file: the field that begins there is cut short, or it is a number of
    /// entries above 16,384, or bytes follow the last entry from there on.
    Cut(usize),
    /// Before the entry with this position, which fails this check.
    Refused(u32, Refusal),
}
