//! The arguments of a fault's line, which are written without memory.

ghost use Rattle.std.specs.Prelude.{◌≡◌, OnOk, OnErr};
ghost use Rattle.std.specs.Io.KnownBytes.{Appends};
ghost use Rattle.std.specs.List.{flat_map};
ghost use Rattle.sporc_outside.specs.Counts.{CountsFaults};
ghost use Rattle.sporc_outside.specs.Writing.{AppendsPrefix};
ghost use Rattle.sporc_files.specs.Arguments.{argument_bytes, argument_text, space_of, stem_before};
ghost use Rattle.sporc_files.specs.Arguments.{text_bytes};

use crate::fault_names::{edit_fault_text, hint_fault_text, open_fault_text, refusal_text};
use crate::file::File;
use crate::names::Names;
use crate::text::{Text, write_text};
use sporc_client::EditFault;
use sporc_epoch::HintFault;
use sporc_head::Refusal;
use sporc_line::LineOpenFault;
use sporc_outside::{Failed, Sink, write_all};

// What stands behind the words of a fault's line.
#[derive(Clone, Copy)]
pub(crate) enum Argument {
    Nothing,
    Number(u64),
    Name(File),
    Refusal(Refusal),
    Hints(HintFault),
    Opening(LineOpenFault),
    Edit(EditFault),
}

// Up to three arguments.
pub(crate) type Arguments = [Argument; 3];

impl Argument {
    // What it says. Of a file's name, that is what stands behind its stem.
    fn text(self) -> Text
        ensures { text_bytes result ≡ argument_text self }
    {
        match self {
            Argument::Nothing => Text::of(""),
            Argument::Number(number) => Text::with_number("", number, ""),
            Argument::Name(file) => file.suffix(),
            Argument::Refusal(refusal) => refusal_text(refusal),
            Argument::Hints(fault) => hint_fault_text(fault),
            Argument::Opening(fault) => open_fault_text(fault),
            Argument::Edit(fault) => edit_fault_text(fault),
        }
    }

    // What stands before it.
    fn space(self) -> &'static str
        ensures { result.now ≡ space_of self }
    {
        match self {
            Argument::Nothing => "",
            _ => " ",
        }
    }
}

// The stem of the name of a file; nothing, if the argument is none.
fn stem_before<'a>(argument: Argument, names: &Names<'a>) -> &'a str
    ensures { result.now ≡ stem_before names.now argument }
{
    match argument {
        Argument::Name(file) => names.stem(file),
        _ => "",
    }
}

// Writes arguments, one behind another, each behind a space.
pub(crate) fn write_arguments<O: Sink>(
    out: &mut O,
    names: &Names<'_>,
    arguments: &[Argument],
) -> Result<(), Failed>
    ensures ok { OnOk result (Appends (O.told out.old).written (O.told out.new).written
        (flat_map (argument_bytes names.now) arguments.now)) }
    ensures err { OnErr result (AppendsPrefix (O.told out.old).written (O.told out.new).written
        (flat_map (argument_bytes names.now) arguments.now)) }
    ensures count { CountsFaults (O.told out.old).faults (O.told out.new).faults result }
{
    for argument in arguments {
        write_argument(out, names, *argument)?;
    }
    Ok(())
}

// Writes an argument behind a space.
fn write_argument<O: Sink>(out: &mut O, names: &Names<'_>, argument: Argument) -> Result<(), Failed>
    ensures ok { OnOk result (Appends (O.told out.old).written (O.told out.new).written
        (argument_bytes names.now argument)) }
    ensures err { OnErr result (AppendsPrefix (O.told out.old).written (O.told out.new).written
        (argument_bytes names.now argument)) }
    ensures count { CountsFaults (O.told out.old).faults (O.told out.new).faults result }
{
    write_all(out, argument.space().as_bytes())?;
    write_all(out, stem_before(argument, names).as_bytes())?;
    write_text(out, argument.text())
}
