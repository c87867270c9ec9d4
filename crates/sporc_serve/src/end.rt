//! How a session ended.

use sporc_order::Unanswered;

/// How a session of a server ended.
#[derive(Clone, Copy)]
pub enum SessionEnd {
    /// The first message was no Hello with this document, or a later one was a Hello.
    Closed,
    /// The link gave its end.
    LinkEnded,
    /// A call on the link failed, which counts it.
    LinkFault,
    /// A frame of the link's bytes is no message, or too long.
    BadFrame,
    /// This ticket of the lock is never drawn.
    Worn(u64),
    /// Memory ran out.
    Memory,
    /// The entry that was submitted fails no check, and the tail did not keep it, so it was not
    /// ordered.
    Unkept,
}

impl From<Unanswered> for SessionEnd {
    ghost use Rattle.std.specs.Prelude.{◌≡◌};
    ghost use Rattle.sporc_serve.specs.Turns.{end_of};

    ghost from_gives = { λ why end. end ≡ end_of why };

    fn from(why: Unanswered) -> SessionEnd {
        match why {
            Unanswered::Memory => SessionEnd::Memory,
            Unanswered::Unkept => SessionEnd::Unkept,
        }
    }
}
