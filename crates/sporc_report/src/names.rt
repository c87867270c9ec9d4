//! The names of faults. The variant `Memory` of each has none.

ghost use Rattle.std.specs.Prelude.{◌≡◌, ◌≢◌, ◌++◌, OnErr, OnOk, string_bytes};
ghost use Rattle.sporc_base.specs.Lists.{StartsWith};
ghost use Rattle.sporc_head.specs.Refusal.{name_of, number_text};
ghost use Rattle.sporc_report.specs.Names.{accept_fault_name, edit_fault_name, hint_fault_name};
ghost use Rattle.sporc_report.specs.Names.{open_fault_name, submit_fault_name};

use crate::appending::{push_decimal, push_word};
use sporc_base::Memory;
use sporc_client::{AcceptFault, EditFault, SubmitFault};
use sporc_epoch::HintFault;
use sporc_head::NameParts;
use sporc_line::LineOpenFault;
use std::alloc::AllocError;

/// The name of why an edit, a change or a discard is refused: no text for `Memory`.
pub fn edit_fault_name(fault: EditFault) -> &'static str
    ensures value { result.now ≡ edit_fault_name fault }
{
    match fault {
        EditFault::Removed => "removed",
        EditFault::NoRight => "no-right",
        EditFault::SeenAhead(_) => "seen-ahead",
        EditFault::WrongLength => "wrong-length",
        EditFault::TooLong(_) => "too-long",
        EditFault::PendingFull => "pending-full",
        EditFault::JournalFull => "journal-full",
        EditFault::Memory => "",
    }
}

/// Appends the name of why an edit, a change or a discard is refused.
pub fn push_edit_fault(out: &mut String, fault: EditFault) -> Result<(), Memory>
    ensures ok { OnOk result
        (string_bytes out.new ≡ string_bytes out.old ++ edit_fault_name fault) }
    ensures named { OnOk result (fault ≢ EditFault.Memory) }
    ensures memory { OnErr result (StartsWith (string_bytes out.new) (string_bytes out.old)) }
{
    match fault {
        EditFault::Memory => Err(AllocError),
        _ => push_word(out, edit_fault_name(fault)),
    }
}

/// Appends the name of why a submission is refused.
pub fn push_submit_fault(out: &mut String, fault: SubmitFault) -> Result<(), Memory>
    ensures ok { OnOk result
        (string_bytes out.new ≡ string_bytes out.old ++ submit_fault_name fault) }
    ensures named { OnOk result (fault ≢ SubmitFault.Memory) }
    ensures memory { OnErr result (StartsWith (string_bytes out.new) (string_bytes out.old)) }
{
    match fault {
        SubmitFault::Memory => Err(AllocError),
        _ => push_name(out, submit_fault_parts(fault)),
    }
}

// The name of why a submission is refused, in parts: no text for `Memory`.
fn submit_fault_parts(fault: SubmitFault) -> NameParts
    ensures { name_of result ≡ submit_fault_name fault }
{
    match fault {
        SubmitFault::Removed => NameParts::of("removed"),
        SubmitFault::NoRight => NameParts::of("no-right"),
        SubmitFault::HistoryFull => NameParts::of("history-full"),
        SubmitFault::JournalFull => NameParts::of("journal-full"),
        SubmitFault::HeadTooLong(len) => NameParts::with_number("head-too-long ", len),
        SubmitFault::NoPairKey(member) => {
            NameParts::with_number("no-pair-key ", u64::from(member))
        }
        SubmitFault::Exhausted(_) => NameParts::of("exhausted"),
        SubmitFault::LeafFault => NameParts::of("leaf-fault"),
        SubmitFault::Memory => NameParts::of(""),
    }
}

/// Appends the name of why an entry is refused.
pub fn push_accept_fault(out: &mut String, fault: AcceptFault) -> Result<(), Memory>
    ensures ok { OnOk result
        (string_bytes out.new ≡ string_bytes out.old ++ accept_fault_name fault) }
    ensures named { OnOk result (fault ≢ AcceptFault.Memory) }
    ensures memory { OnErr result (StartsWith (string_bytes out.new) (string_bytes out.old)) }
{
    match fault {
        AcceptFault::Refused(refusal) => push_name(out, refusal.parts()),
        AcceptFault::JournalFull => push_word(out, "journal-full"),
        AcceptFault::Memory => Err(AllocError),
    }
}

/// Appends the name of why entries give no hints.
pub fn push_hint_fault(out: &mut String, fault: HintFault) -> Result<(), Memory>
    ensures ok { OnOk result
        (string_bytes out.new ≡ string_bytes out.old ++ hint_fault_name fault) }
    ensures named { OnOk result (fault ≢ HintFault.Memory) }
    ensures memory { OnErr result (StartsWith (string_bytes out.new) (string_bytes out.old)) }
{
    match fault {
        HintFault::Memory => Err(AllocError),
        _ => push_name(out, hint_fault_parts(fault)),
    }
}

/// The name of why entries give no hints, in parts: no text for `Memory`.
pub fn hint_fault_parts(fault: HintFault) -> NameParts
    ensures value { name_of result ≡ hint_fault_name fault }
{
    match fault {
        HintFault::NotAdded => NameParts::of("not-added"),
        HintFault::NoPairKey(member) => NameParts::with_number("no-pair-key ", u64::from(member)),
        HintFault::WrongKey(_) => NameParts::of("wrong-key"),
        HintFault::Memory => NameParts::of(""),
    }
}

/// The name of why a client does not open: no text for `Memory`.
pub fn open_fault_name(fault: LineOpenFault) -> &'static str
    ensures value { result.now ≡ open_fault_name fault }
{
    match fault {
        LineOpenFault::NoKey => "no-key",
        LineOpenFault::WrongKey => "wrong-key",
        LineOpenFault::Memory => "",
    }
}

/// Appends the name of why a client does not open.
pub fn push_open_fault(out: &mut String, fault: LineOpenFault) -> Result<(), Memory>
    ensures ok { OnOk result
        (string_bytes out.new ≡ string_bytes out.old ++ open_fault_name fault) }
    ensures named { OnOk result (fault ≢ LineOpenFault.Memory) }
    ensures memory { OnErr result (StartsWith (string_bytes out.new) (string_bytes out.old)) }
{
    match fault {
        LineOpenFault::Memory => Err(AllocError),
        _ => push_word(out, open_fault_name(fault)),
    }
}

// Appends a name of which these are the parts.
fn push_name(out: &mut String, parts: NameParts) -> Result<(), Memory>
    ensures ok { OnOk result (string_bytes out.new ≡ string_bytes out.old ++ name_of parts) }
    ensures memory { OnErr result (StartsWith (string_bytes out.new) (string_bytes out.old)) }
{
    push_word(out, parts.before)?;
    push_optional(out, parts.number)?;
    push_word(out, parts.behind)
}

// Appends a number, if there is one.
fn push_optional(out: &mut String, number: Option<u64>) -> Result<(), Memory>
    ensures ok { OnOk result (string_bytes out.new ≡ string_bytes out.old ++ number_text number) }
    ensures memory { OnErr result (StartsWith (string_bytes out.new) (string_bytes out.old)) }
{
    match number {
        Some(number) => push_decimal(out, number),
        None => Ok(()),
    }
}
