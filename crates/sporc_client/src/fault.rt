//! Why calls of a client are refused.

ghost use Rattle.std.specs.Prelude.{◌≡◌};
ghost use Rattle.sporc_client.specs.declared.fault.AcceptFault.TheVariants as accepts;
ghost use Rattle.sporc_client.specs.declared.fault.EditFault.TheVariants as edits;
ghost use Rattle.sporc_client.specs.declared.fault.RestartFault.TheVariants as restarts;
ghost use Rattle.sporc_client.specs.declared.fault.SubmitFault.TheVariants as submits;

use lms_leaf::LeafFault;
use sporc_head::{NameParts, Refusal};
use sporc_line::LineOpenFault;
use std::alloc::AllocError;
use std::fmt::{self, Display, Formatter, Write};
use thiserror::Error;

/// Why a client was not opened.
pub type ClientOpenFault = LineOpenFault;

/// Why an edit, a change or a discard is refused.
#[derive(Clone, Copy, Debug, PartialEq, Eq, Error)]
pub enum EditFault {
    /// The member was removed, or the device dropped.
    Removed,
    /// The member has no right to it.
    NoRight,
    /// The journal has only so many events.
    SeenAhead(u64),
    /// The delta is of a text of another length.
    WrongLength,
    /// The delta has so many bytes.
    TooLong(u64),
    /// Too much is pending.
    PendingFull,
    /// The journal is full.
    JournalFull,
    /// Out of memory.
    Memory,
}

/// Why a submission is refused.
#[derive(Clone, Copy, Debug, PartialEq, Eq, Error)]
pub enum SubmitFault {
    /// The member was removed, or the device dropped.
    Removed,
    /// The member has no right to the first pending item.
    NoRight,
    /// The history is full.
    HistoryFull,
    /// The journal is full.
    JournalFull,
    /// The first pending edit has so many bytes.
    HeadTooLong(u64),
    /// There is no pairwise key with this member.
    NoPairKey(u16),
    /// All leaves are drawn, so many.
    Exhausted(u32),
    /// The disk of the leaf file failed.
    LeafFault,
    /// Out of memory.
    Memory,
}

/// Why an entry is not accepted.
#[derive(Clone, Copy, Debug, PartialEq, Eq, Error)]
pub enum AcceptFault {
    #[error("the entry is refused: {0}")]
    Refused(Refusal),
    #[error("the journal is full")]
    JournalFull,
    #[error("out of memory")]
    Memory,
}

/// Why a client doesn't go back.
#[derive(Clone, Copy, Debug, PartialEq, Eq, Error)]
pub enum RestartFault {
    #[error("the history has only {0} entries")]
    Ahead(u32),
    #[error("out of memory")]
    Memory,
}

impl EditFault {
    // What it says, in parts.
    fn message(self) -> NameParts {
        match self {
            EditFault::Removed => NameParts::of("the member was removed, or the device dropped"),
            EditFault::NoRight => NameParts::of("the member has no right to it"),
            EditFault::SeenAhead(len) => NameParts {
                before: "the journal has only ",
                number: Some(len),
                behind: " events",
            },
            EditFault::WrongLength => NameParts::of("the delta is of a text of another length"),
            EditFault::TooLong(len) => NameParts {
                before: "the delta has ",
                number: Some(len),
                behind: " bytes",
            },
            EditFault::PendingFull => NameParts::of("too much is pending"),
            EditFault::JournalFull => NameParts::of("the journal is full"),
            EditFault::Memory => NameParts::of("out of memory"),
        }
    }
}

// By its message, in one step for all variants.
impl Display for EditFault {
    fn fmt<W: Write>(&self, f: &mut Formatter<W>) -> fmt::Result {
        self.message().fmt(f)
    }
}

impl SubmitFault {
    // What it says, in parts.
    fn message(self) -> NameParts {
        match self {
            SubmitFault::Removed => NameParts::of("the member was removed, or the device dropped"),
            SubmitFault::NoRight => {
                NameParts::of("the member has no right to the first pending item")
            }
            SubmitFault::HistoryFull => NameParts::of("the history is full"),
            SubmitFault::JournalFull => NameParts::of("the journal is full"),
            SubmitFault::HeadTooLong(len) => NameParts {
                before: "the first pending edit has ",
                number: Some(len),
                behind: " bytes",
            },
            SubmitFault::NoPairKey(member) => {
                NameParts::with_number("no pairwise key with member ", u64::from(member))
            }
            SubmitFault::Exhausted(count) => NameParts {
                before: "all ",
                number: Some(u64::from(count)),
                behind: " leaves are drawn",
            },
            SubmitFault::LeafFault => NameParts::of("the disk of the leaf file failed"),
            SubmitFault::Memory => NameParts::of("out of memory"),
        }
    }
}

// By its message, in one step for all variants.
impl Display for SubmitFault {
    fn fmt<W: Write>(&self, f: &mut Formatter<W>) -> fmt::Result {
        self.message().fmt(f)
    }
}

impl From<AllocError> for EditFault {
    ghost from_gives = { λ _ fault. fault ≡ edits.Memory };

    fn from(_: AllocError) -> EditFault {
        EditFault::Memory
    }
}

impl From<AllocError> for SubmitFault {
    ghost from_gives = { λ _ fault. fault ≡ submits.Memory };

    fn from(_: AllocError) -> SubmitFault {
        SubmitFault::Memory
    }
}

impl From<LeafFault> for SubmitFault {
    ghost use Rattle.sporc_client.specs.Submissions.{draw_fault};

    ghost from_gives = { λ leaf fault. fault ≡ draw_fault leaf };

    fn from(fault: LeafFault) -> SubmitFault {
        match fault {
            LeafFault::Exhausted(next) => SubmitFault::Exhausted(next),
            LeafFault::DiskFault => SubmitFault::LeafFault,
        }
    }
}

impl From<AllocError> for AcceptFault {
    ghost from_gives = { λ _ fault. fault ≡ accepts.Memory };

    fn from(_: AllocError) -> AcceptFault {
        AcceptFault::Memory
    }
}

impl From<AllocError> for RestartFault {
    ghost from_gives = { λ _ fault. fault ≡ restarts.Memory };

    fn from(_: AllocError) -> RestartFault {
        RestartFault::Memory
    }
}
