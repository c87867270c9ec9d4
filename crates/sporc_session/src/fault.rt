//! Why sessions end.

use lms_leaf::LeafFault;
use sporc_client::EditFault;
use sporc_head::{NameParts, Refusal};
use std::alloc::AllocError;
use std::fmt::{self, Display, Formatter, Write};
use thiserror::Error;

/// Why a session ended.
#[derive(Clone, Copy, Debug, PartialEq, Eq, Error)]
pub enum SessionFault {
    /// A call of the link failed.
    LinkFault,
    /// The client refuses the entry that came for this position, for this cause.
    Refused(u32, Refusal),
    /// After all rounds so many items are pending, and the history has so many entries.
    NotSettled(u32, u32),
    /// What came is no answer, from this place of the stream on.
    BadMessage(u64),
    /// No leaf was drawn for an entry: none is left, or the leaf file's disk failed.
    Leaf(LeafFault),
    /// A submission found the history with as many entries as it has at most.
    HistoryFull,
    /// The server rejected an entry for this cause, and it was still on its way after all other
    /// entries came.
    ServerRejected(Refusal),
    /// An event found the journal with as many events as it has at most.
    JournalFull,
    /// The client refuses an editor's line, by the editor's number and the line's, for this cause.
    EditRefused(u32, u32, EditFault),
    /// All tickets of the lock were drawn, so many.
    Worn(u64),
    /// A call of the chance failed.
    ChanceFault,
    /// The link ended after so many bytes, before an answer was whole.
    LinkEnded(u64),
    /// A call ran out of memory, or an editor's line inserts more than
    /// [`MAX_COUNT`](sporc_delta::MAX_COUNT) bytes.
    Memory,
}

impl SessionFault {
    // What it says, in parts, up to a second number or a cause.
    fn message(self) -> NameParts {
        match self {
            SessionFault::LinkFault => NameParts::of("the link failed"),
            SessionFault::Refused(pos, _) => NameParts {
                before: "the entry at position ",
                number: Some(u64::from(pos)),
                behind: " is refused: ",
            },
            SessionFault::NotSettled(pending, _) => NameParts {
                before: "",
                number: Some(u64::from(pending)),
                behind: " items are pending",
            },
            SessionFault::BadMessage(at) => NameParts {
                before: "no answer, from place ",
                number: Some(at),
                behind: " of the stream on",
            },
            SessionFault::Leaf(_) => NameParts::of("no leaf was drawn: "),
            SessionFault::HistoryFull => NameParts::of("the history is full"),
            SessionFault::ServerRejected(_) => NameParts::of("the server rejected an entry: "),
            SessionFault::JournalFull => NameParts::of("the journal is full"),
            SessionFault::EditRefused(_, line, _) => NameParts {
                before: "line ",
                number: Some(u64::from(line)),
                behind: " of editor ",
            },
            SessionFault::Worn(count) => NameParts::with_number("no ticket is left after ", count),
            SessionFault::ChanceFault => NameParts::of("no random word came"),
            SessionFault::LinkEnded(len) => NameParts {
                before: "the link ended after ",
                number: Some(len),
                behind: " bytes",
            },
            SessionFault::Memory => NameParts::of("out of memory"),
        }
    }
}

// By its message, in one step for all variants, and then by what some say behind it.
impl Display for SessionFault {
    fn fmt<W: Write>(&self, f: &mut Formatter<W>) -> fmt::Result {
        self.message().fmt(f)?;
        match self {
            SessionFault::Refused(_, cause) | SessionFault::ServerRejected(cause) => cause.fmt(f),
            SessionFault::Leaf(cause) => cause.fmt(f),
            SessionFault::NotSettled(_, count) => write!(f, " after {count} entries"),
            SessionFault::EditRefused(editor, _, cause) => {
                write!(f, "{editor} is refused: {cause}")
            }
            _ => Ok(()),
        }
    }
}

impl From<AllocError> for SessionFault {
    ghost use Rattle.std.specs.Prelude.{◌≡◌};
    ghost use Rattle.sporc_session.specs.declared.fault.SessionFault.TheVariants as faults;

    ghost from_gives = { λ _ fault. fault ≡ faults.Memory };

    fn from(_: AllocError) -> SessionFault {
        SessionFault::Memory
    }
}
