//! Short texts, which are written without memory, or appended to a string.

ghost use Rattle.std.specs.Prelude.{◌≡◌, ◌++◌, OnOk, OnErr, string_bytes};
ghost use Rattle.std.specs.Fmt.{decimal};
ghost use Rattle.std.specs.Io.KnownBytes.{Appends};
ghost use Rattle.sporc_head.specs.Refusal.{name_of};
ghost use Rattle.sporc_outside.specs.Counts.{CountsFaults};
ghost use Rattle.sporc_outside.specs.Writing.{AppendsPrefix};
ghost use Rattle.sporc_script.specs.Spelling.{device_text};
ghost use Rattle.sporc_files.specs.Arguments.{middle_bytes, text_bytes};

use itoa::Buffer;
use sporc_base::Memory;
use sporc_head::NameParts;
use sporc_member::{Device, FIRST_DEVICE};
use sporc_outside::{Failed, Sink, write_all};
use sporc_report::push_device;
use std::fmt::Write;

// What may stand in the middle of a text.
#[derive(Clone, Copy)]
pub(crate) enum Middle {
    Nothing,
    Number(u64),
    Device(Device),
}

// A text that may have a number or a device in it.
#[derive(Clone, Copy)]
pub(crate) struct Text {
    pub before: &'static str,
    pub middle: Middle,
    pub behind: &'static str,
}

impl Text {
    // A text with nothing in it.
    pub(crate) fn of(before: &'static str) -> Text
        ensures { text_bytes result ≡ before.now }
    {
        Text {
            before,
            middle: Middle::Nothing,
            behind: "",
        }
    }

    // The parts of a name.
    pub(crate) fn of_parts(parts: NameParts) -> Text
        ensures { text_bytes result ≡ name_of parts }
    {
        match parts.number {
            Some(number) => Text::with_number(parts.before, number, parts.behind),
            None => Text {
                before: parts.before,
                middle: Middle::Nothing,
                behind: parts.behind,
            },
        }
    }

    // A number between texts.
    pub(crate) fn with_number(before: &'static str, number: u64, behind: &'static str) -> Text
        ensures { text_bytes result ≡ before.now ++ (decimal number ++ behind.now) }
    {
        Text {
            before,
            middle: Middle::Number(number),
            behind,
        }
    }

    // A device between texts.
    pub(crate) fn with_device(before: &'static str, device: Device, behind: &'static str) -> Text
        ensures { text_bytes result ≡ before.now ++ (device_text device ++ behind.now) }
    {
        Text {
            before,
            middle: Middle::Device(device),
            behind,
        }
    }
}

// Appends a text.
pub(crate) fn push_text(string: &mut String, text: Text) -> Result<(), Memory>
    ensures { OnOk result (string_bytes string.new ≡ string_bytes string.old ++ text_bytes text) }
{
    string.push_str(text.before)?;
    push_middle(string, text.middle)?;
    string.push_str(text.behind)
}

// Appends a number or a device.
fn push_middle(string: &mut String, middle: Middle) -> Result<(), Memory>
    ensures { OnOk result
        (string_bytes string.new ≡ string_bytes string.old ++ middle_bytes middle) }
{
    match middle {
        Middle::Nothing => Ok(()),
        Middle::Number(number) => write!(string, "{number}"),
        Middle::Device(device) => push_device(string, device),
    }
}

// Writes a text.
pub(crate) fn write_text<O: Sink>(out: &mut O, text: Text) -> Result<(), Failed>
    ensures ok { OnOk result
        (Appends (O.told out.old).written (O.told out.new).written (text_bytes text)) }
    ensures err { OnErr result
        (AppendsPrefix (O.told out.old).written (O.told out.new).written (text_bytes text)) }
    ensures count { CountsFaults (O.told out.old).faults (O.told out.new).faults result }
{
    write_all(out, text.before.as_bytes())?;
    write_middle(out, text.middle)?;
    write_all(out, text.behind.as_bytes())
}

// Writes a number or a device.
fn write_middle<O: Sink>(out: &mut O, middle: Middle) -> Result<(), Failed>
    ensures ok { OnOk result
        (Appends (O.told out.old).written (O.told out.new).written (middle_bytes middle)) }
    ensures err { OnErr result
        (AppendsPrefix (O.told out.old).written (O.told out.new).written (middle_bytes middle)) }
    ensures count { CountsFaults (O.told out.old).faults (O.told out.new).faults result }
{
    match middle {
        Middle::Nothing => Ok(()),
        Middle::Number(number) => write_number(out, number),
        Middle::Device(device) => write_device(out, device),
    }
}

// Writes a number.
fn write_number<O: Sink>(out: &mut O, number: u64) -> Result<(), Failed>
    ensures ok { OnOk result
        (Appends (O.told out.old).written (O.told out.new).written (decimal number)) }
    ensures err { OnErr result
        (AppendsPrefix (O.told out.old).written (O.told out.new).written (decimal number)) }
    ensures count { CountsFaults (O.told out.old).faults (O.told out.new).faults result }
{
    let mut digits = Buffer::new();
    write_all(out, digits.format(number).as_bytes())
}

// Writes a device.
fn write_device<O: Sink>(out: &mut O, device: Device) -> Result<(), Failed>
    ensures ok { OnOk result
        (Appends (O.told out.old).written (O.told out.new).written (device_text device)) }
    ensures err { OnErr result
        (AppendsPrefix (O.told out.old).written (O.told out.new).written (device_text device)) }
    ensures count { CountsFaults (O.told out.old).faults (O.told out.new).faults result }
{
    write_number(out, u64::from(device.member))?;
    if device.number == FIRST_DEVICE {
        return Ok(());
    }
    write_all(out, b".")?;
    write_number(out, u64::from(device.number))
}
