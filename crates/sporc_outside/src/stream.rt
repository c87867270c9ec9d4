//! What bytes come from or go to.

ghost use Rattle.std.specs.Prelude.{◌≡◌};
ghost use Rattle.sporc_outside.specs.Streams.{StreamTold};

use crate::counted::Counted;

/// A [`Source`](crate::Source) or a [`Sink`](crate::Sink), or both, as a [`Link`](crate::Link) is.
/// A link can be shut, and a read or a write doesn't shut it.
pub trait Stream: Counted {
    // What it tells.
    ghost told: { Self → StreamTold };

    // The faults that it tells are those that it counts.
    ghost faults_are_told: { (stream : Self) → (told stream).faults ≡ Self.faults stream };
}
