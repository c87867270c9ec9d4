//! What an editor is told, written.

ghost use Rattle.std.specs.Prelude.{◌≡◌, ◌≢◌, ◌++◌, codes, flat_map, OnErr, OnOk, string_bytes};
ghost use Rattle.sporc_base.specs.Lists.{StartsWith};
ghost use Rattle.sporc_editor.specs.Authors.{authors_text, listed};
ghost use Rattle.sporc_editor.specs.SaidLines.{IsCause, IsNamed, cause_name, numbers_text};
ghost use Rattle.sporc_editor.specs.SaidLines.{said_line, screen_fault_name};
ghost use Rattle.sporc_editor.specs.declared.said.Said.TheVariants as saids;
ghost use Rattle.sporc_report.specs.JournalLines.{delta_text};
ghost use Rattle.sporc_script.specs.Spelling.{device_text};

use crate::authors::Authors;
use crate::said::{Cause, Said};
use sporc_base::Memory;
use sporc_delta::{Delta, Text};
use sporc_member::{ChangeFault, Device};
use sporc_report::{
    push_between, push_counted, push_decimal, push_delta, push_device, push_edit_fault,
    push_quoted, push_word,
};
use sporc_screen::{Numbers, ScreenFault, Written};
use std::alloc::AllocError;

/// Appends the line that tells it. A refusal whose cause is its variant `Memory` has no line, and
/// the answer is out of memory.
pub fn push_said(out: &mut String, said: &Said) -> Result<(), Memory>
    ensures ok { OnOk result (string_bytes out.new ≡ string_bytes out.old ++ said_line said.now) }
    ensures named { OnOk result (IsNamed said.now) }
    ensures memory { OnErr result (StartsWith (string_bytes out.new) (string_bytes out.old)) }
{
    match said {
        Said::Text { numbers, text } => push_text(out, *numbers, text),
        Said::Shown { written, authors } => push_shown(out, written, authors),
        Said::At { entries, pending } => push_at(out, *entries, *pending),
        Said::Refused { line, cause } => push_refused(out, *line, *cause),
        Said::Dropped(fault) => push_dropped(out, *fault),
        Said::Away => push_word(out, "away\n"),
        Said::Removed => push_word(out, "removed\n"),
        Said::Saved { entries } => push_between(out, "saved ", *entries, "\n"),
    }
}

fn push_text(out: &mut String, numbers: Numbers, text: &Text) -> Result<(), Memory>
    ensures ok { OnOk result (string_bytes out.new
        ≡ string_bytes out.old ++ said_line (saids.Text numbers text.now)) }
    ensures memory { OnErr result (StartsWith (string_bytes out.new) (string_bytes out.old)) }
{
    push_numbers(out, "text ", numbers)?;
    push_quoted(out, text.as_str())?;
    push_word(out, "\n")
}

fn push_shown(out: &mut String, written: &Written, authors: &Authors) -> Result<(), Memory>
    ensures ok { OnOk result (string_bytes out.new
        ≡ string_bytes out.old ++ said_line (saids.Shown written.now authors.now)) }
    ensures memory { OnErr result (StartsWith (string_bytes out.new) (string_bytes out.old)) }
{
    push_numbers(out, "shown ", written.numbers)?;
    push_authors(out, authors)?;
    push_last_delta(out, &written.delta)
}

// Appends a space, a delta, and the end of a line.
fn push_last_delta(out: &mut String, delta: &Delta) -> Result<(), Memory>
    ensures ok { OnOk result (string_bytes out.new
        ≡ string_bytes out.old ++ (codes " " ++ (delta_text delta.now ++ codes "\n"))) }
    ensures memory { OnErr result (StartsWith (string_bytes out.new) (string_bytes out.old)) }
{
    push_word(out, " ")?;
    push_delta(out, delta)?;
    push_word(out, "\n")
}

// Appends a word, the numbers of a line, and a space.
fn push_numbers(out: &mut String, word: &str, numbers: Numbers) -> Result<(), Memory>
    ensures ok { OnOk result (string_bytes out.new
        ≡ string_bytes out.old ++ (word.now ++ (numbers_text numbers ++ codes " "))) }
    ensures memory { OnErr result (StartsWith (string_bytes out.new) (string_bytes out.old)) }
{
    push_between(out, word, numbers.line, " ")?;
    push_decimal(out, numbers.own)?;
    push_word(out, " ")
}

// Appends the devices of authors, as many as a line names, and whether there are more.
fn push_authors(out: &mut String, authors: &Authors) -> Result<(), Memory>
    ensures ok { OnOk result
        (string_bytes out.new ≡ string_bytes out.old ++ authors_text authors.now) }
    ensures memory { OnErr result (StartsWith (string_bytes out.new) (string_bytes out.old)) }
{
    push_listed(out, authors.named())?;
    push_word(out, if authors.has_more() { ",.." } else { "" })
}

// Appends devices with a comma between two of them, or `-` if there is none.
fn push_listed(out: &mut String, devices: &[Device]) -> Result<(), Memory>
    ensures ok { OnOk result (string_bytes out.new ≡ string_bytes out.old ++ listed devices.now) }
    ensures memory { OnErr result (StartsWith (string_bytes out.new) (string_bytes out.old)) }
{
    match devices {
        [] => push_word(out, "-"),
        [first, more @ ..] => {
            push_device(out, *first)?;
            push_further(out, more)
        }
    }
}

// Appends devices with a comma before each.
fn push_further(out: &mut String, devices: &[Device]) -> Result<(), Memory>
    ensures ok { OnOk result (string_bytes out.new ≡ string_bytes out.old
        ++ flat_map (λ d. codes "," ++ device_text d) devices.now) }
    ensures memory { OnErr result (StartsWith (string_bytes out.new) (string_bytes out.old)) }
{
    for device in devices {
        push_word(out, ",")?;
        push_device(out, *device)?;
    }
    Ok(())
}

fn push_at(out: &mut String, entries: u64, pending: u64) -> Result<(), Memory>
    ensures ok { OnOk result
        (string_bytes out.new ≡ string_bytes out.old ++ said_line (saids.At entries pending)) }
    ensures memory { OnErr result (StartsWith (string_bytes out.new) (string_bytes out.old)) }
{
    push_counted(out, "at ", entries)?;
    push_between(out, " pending ", pending, "\n")
}

fn push_refused(out: &mut String, line: u64, cause: Cause) -> Result<(), Memory>
    ensures ok { OnOk result
        (string_bytes out.new ≡ string_bytes out.old ++ said_line (saids.Refused line cause)) }
    ensures named { OnOk result (IsCause cause) }
    ensures memory { OnErr result (StartsWith (string_bytes out.new) (string_bytes out.old)) }
{
    push_between(out, "refused ", line, " ")?;
    push_cause(out, cause)?;
    push_word(out, "\n")
}

// Appends the name of a cause.
fn push_cause(out: &mut String, cause: Cause) -> Result<(), Memory>
    ensures ok { OnOk result (string_bytes out.new ≡ string_bytes out.old ++ cause_name cause) }
    ensures named { OnOk result (IsCause cause) }
    ensures memory { OnErr result (StartsWith (string_bytes out.new) (string_bytes out.old)) }
{
    match cause {
        Cause::Client(fault) => push_edit_fault(out, fault),
        Cause::Screen(fault) => push_screen_fault(out, fault),
    }
}

fn push_screen_fault(out: &mut String, fault: ScreenFault) -> Result<(), Memory>
    ensures ok { OnOk result
        (string_bytes out.new ≡ string_bytes out.old ++ screen_fault_name fault) }
    ensures named { OnOk result (fault ≢ ScreenFault.Memory) }
    ensures memory { OnErr result (StartsWith (string_bytes out.new) (string_bytes out.old)) }
{
    match fault {
        ScreenFault::Seen => push_word(out, "seen"),
        ScreenFault::Outside => push_word(out, "outside"),
        ScreenFault::TooLong => push_word(out, "too-long"),
        ScreenFault::Memory => Err(AllocError),
    }
}

fn push_dropped(out: &mut String, fault: ChangeFault) -> Result<(), Memory>
    ensures ok { OnOk result
        (string_bytes out.new ≡ string_bytes out.old ++ said_line (saids.Dropped fault)) }
    ensures memory { OnErr result (StartsWith (string_bytes out.new) (string_bytes out.old)) }
{
    push_word(out, "dropped ")?;
    push_word(out, fault.name())?;
    push_word(out, "\n")
}
