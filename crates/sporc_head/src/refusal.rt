//! Why an entry is refused.

ghost use Rattle.std.specs.Prelude.{◌≡◌, ◌++◌, IfOk, OnOk, string_bytes};
ghost use Rattle.sporc_head.specs.Refusal.{number_text};

use sporc_base::Memory;
use sporc_entry::EntryFault;
use sporc_member::ChangeFault;
use std::alloc::{AllocError, Global};
use std::fmt::{self, Display, Formatter, Write};
use thiserror::Error;

/// The first check that an entry fails at a history, in the order of the checks.
#[derive(Clone, Copy, Debug, PartialEq, Eq, Error)]
pub enum Refusal {
    /// The bytes are no entry: the first field from the left that is cut short or forbidden begins
    /// at this place.
    Malformed(usize),
    /// It is an entry of another document.
    WrongDocument,
    /// Its position is not the next one.
    WrongPosition,
    /// The history removes this member or its device.
    Removed,
    /// The history is full.
    HistoryFull,
    /// It is of another version than the history.
    WrongVersion,
    /// Its author is no member.
    UnknownAuthor,
    /// Its author has no such live device.
    UnknownDevice,
    /// Its base is ahead of the history.
    BaseAhead,
    /// Its base is before the last change.
    BeforeBarrier,
    /// Its base is another history.
    WrongHistory,
    /// Its number is not the next one of the author's device.
    WrongNumber,
    /// Its base is before the last entry of the author's device.
    BehindOwn,
    /// It is of another epoch.
    WrongEpoch,
    /// Its author may not make it.
    NoRight,
    /// Its signature is of another leaf than its header says.
    LeafMismatch,
    /// Its signature does not verify.
    BadSignature,
    /// Its edit is no delta.
    BadPayload,
    /// Its edit is of a text of another length.
    WrongLength,
    /// Its change is refused, for this cause.
    BadChange(ChangeFault),
    /// Its wraps are not for exactly the members after it.
    WrongWraps,
    /// No key opens its epoch.
    NoKey,
    /// Its epoch's key does not meet the commitment.
    WrongKey,
    /// Out of memory: nothing is said of the entry.
    Memory,
}

/// The parts of a name or a message: words, a number behind them, and words behind that, where it
/// has these.
#[derive(Clone, Copy)]
pub struct NameParts {
    pub before: &'static str,
    pub number: Option<u64>,
    pub behind: &'static str,
}

impl NameParts {
    ghost use Rattle.std.specs.Fmt.{decimal};
    ghost use Rattle.sporc_head.specs.Refusal.{name_of};

    /// Words alone.
    pub fn of(before: &'static str) -> NameParts
        ensures value { name_of result ≡ before.now }
    {
        NameParts {
            before,
            number: None,
            behind: "",
        }
    }

    /// Words and a number.
    pub fn with_number(before: &'static str, number: u64) -> NameParts
        ensures value { name_of result ≡ before.now ++ decimal number }
    {
        NameParts {
            before,
            number: Some(number),
            behind: "",
        }
    }
}

impl Display for NameParts {
    fn fmt<W: Write>(&self, f: &mut Formatter<W>) -> fmt::Result {
        f.write_str(self.before)?;
        if let Some(number) = self.number {
            write!(f, "{number}")?;
        }
        f.write_str(self.behind)
    }
}

// By its name, in one step for all variants.
impl Display for Refusal {
    fn fmt<W: Write>(&self, f: &mut Formatter<W>) -> fmt::Result {
        self.parts().fmt(f)
    }
}

impl Refusal {
    ghost use Rattle.sporc_head.specs.Refusal.{name_of, refusal_name, refusal_code_of};
    ghost use Rattle.sporc_head.specs.Refusal.{refusal_word};

    // The first word of its name.
    fn word(self) -> &'static str
        ensures value { result.now ≡ refusal_word self }
    {
        match self {
            Refusal::Malformed(_) => "malformed",
            Refusal::WrongDocument => "wrong-document",
            Refusal::WrongPosition => "wrong-position",
            Refusal::Removed => "removed",
            Refusal::HistoryFull => "history-full",
            Refusal::WrongVersion => "wrong-version",
            Refusal::UnknownAuthor => "unknown-author",
            Refusal::UnknownDevice => "unknown-device",
            Refusal::BaseAhead => "base-ahead",
            Refusal::BeforeBarrier => "before-barrier",
            Refusal::WrongHistory => "wrong-history",
            Refusal::WrongNumber => "wrong-number",
            Refusal::BehindOwn => "behind-own",
            Refusal::WrongEpoch => "wrong-epoch",
            Refusal::NoRight => "no-right",
            Refusal::LeafMismatch => "leaf-mismatch",
            Refusal::BadSignature => "bad-signature",
            Refusal::BadPayload => "bad-payload",
            Refusal::WrongLength => "wrong-length",
            Refusal::BadChange(_) => "bad-change",
            Refusal::WrongWraps => "wrong-wraps",
            Refusal::NoKey => "no-key",
            Refusal::WrongKey => "wrong-key",
            Refusal::Memory => "memory",
        }
    }

    /// Its name in parts: behind its word stands nothing, a place, or the name of a change's fault.
    pub fn parts(self) -> NameParts
        ensures value { name_of result ≡ refusal_name self }
    {
        match self {
            Refusal::Malformed(at) => NameParts::with_number("malformed ", at as u64),
            Refusal::BadChange(fault) => NameParts {
                before: "bad-change ",
                number: None,
                behind: fault.name(),
            },
            _ => NameParts::of(self.word()),
        }
    }

    /// The name that is printed.
    pub fn name(self, alloc: Global) -> Result<String, Memory>
        ensures ok { IfOk result (λ name. string_bytes name ≡ refusal_name self) }
    {
        let parts = self.parts();
        let mut name = String::new(alloc);
        name.push_str(parts.before)?;
        push_number(&mut name, parts.number)?;
        name.push_str(parts.behind)?;
        Ok(name)
    }

    /// The number of its check, from 1 to 23, and 0 if memory ran out. Checks 22 and 23 are made
    /// before and after check 6.
    pub fn code(self) -> u8
        ensures value { result ≡ refusal_code_of self }
    {
        match self {
            Refusal::Malformed(_) => 1,
            Refusal::WrongDocument => 2,
            Refusal::WrongPosition => 3,
            Refusal::Removed => 4,
            Refusal::HistoryFull => 5,
            Refusal::WrongVersion => 22,
            Refusal::UnknownAuthor => 6,
            Refusal::UnknownDevice => 23,
            Refusal::BaseAhead => 7,
            Refusal::BeforeBarrier => 8,
            Refusal::WrongHistory => 9,
            Refusal::WrongNumber => 10,
            Refusal::BehindOwn => 11,
            Refusal::WrongEpoch => 12,
            Refusal::NoRight => 13,
            Refusal::LeafMismatch => 14,
            Refusal::BadSignature => 15,
            Refusal::BadPayload => 16,
            Refusal::WrongLength => 17,
            Refusal::BadChange(_) => 18,
            Refusal::WrongWraps => 19,
            Refusal::NoKey => 20,
            Refusal::WrongKey => 21,
            Refusal::Memory => 0,
        }
    }
}

// Appends a number, if there is one.
fn push_number(name: &mut String, number: Option<u64>) -> Result<(), Memory>
    ensures { OnOk result (string_bytes name.new ≡ string_bytes name.old ++ number_text number) }
{
    match number {
        Some(number) => write!(name, "{number}"),
        None => Ok(()),
    }
}

impl From<AllocError> for Refusal {
    ghost use Rattle.std.specs.Prelude.{◌≡◌};
    ghost use Rattle.sporc_head.specs.declared.refusal.Refusal.TheVariants as refusals;

    ghost from_gives = { λ _ e. e ≡ refusals.Memory };

    fn from(_: AllocError) -> Refusal {
        Refusal::Memory
    }
}

impl From<EntryFault> for Refusal {
    ghost use Rattle.std.specs.Prelude.{◌≡◌};
    ghost use Rattle.sporc_head.specs.Reading.{refusal_read};

    ghost from_gives = { λ f e. e ≡ refusal_read f };

    fn from(fault: EntryFault) -> Refusal {
        match fault {
            EntryFault::Malformed(at) => Refusal::Malformed(at),
            EntryFault::Memory => Refusal::Memory,
        }
    }
}
