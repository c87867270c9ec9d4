//! Counts of characters that deltas keep at their ends.

ghost use Rattle.std.specs.Prelude.{◌≡◌, ◌<◌};
ghost use Rattle.sporc_delta.specs.Shifts.{Shifts, count_of, kept_at_start, kept_there};

use crate::Part;
use crate::ends::kept_last;

/// How many characters a delta keeps at one of its ends, in place of those that it keeps there.
#[derive(Clone, Copy, PartialEq, Eq)]
pub enum Shift {
    /// So many before its first change.
    First(u64),
    /// So many behind its last change.
    Last(u64),
}

impl Shift {
    /// The number of characters.
    pub fn count(self) -> u64
        ensures value { result ≡ count_of self }
    {
        match self {
            Shift::First(count) | Shift::Last(count) => count,
        }
    }
}

// The number of characters that a first part keeps.
pub(crate) fn kept_first(parts: &[Part]) -> u64
    ensures value { result ≡ kept_at_start parts.now }
{
    match parts.first() {
        Some(Part::Keep(count)) => *count,
        _ => 0,
    }
}

// The number of characters that these parts keep at one end.
pub(crate) fn kept_there(parts: &[Part], shift: Shift) -> u64
    ensures value { result ≡ kept_there shift parts.now }
{
    match shift {
        Shift::First(_) => kept_first(parts),
        Shift::Last(_) => kept_last(parts),
    }
}

// Keeps another number of characters at one end of these parts.
pub(crate) fn shift_parts(parts: &mut Vec<Part>, shift: Shift)
    requires positive { 0 < count_of shift }
    requires kept_positive { 0 < kept_there shift parts.old.items }
    ensures shifts { Shifts shift parts.old.items parts.new.items }
{
    match shift {
        Shift::First(count) => parts[0] = Part::Keep(count),
        Shift::Last(count) => {
            let last = parts.as_slice().len() - 1;
            parts[last] = Part::Keep(count);
        }
    }
}
