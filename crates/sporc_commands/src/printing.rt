//! What a command prints.

ghost use Rattle.std.specs.Prelude.{◌≤◌};
ghost use Rattle.sporc_outside.specs.Uses.{use_of};
ghost use Rattle.sporc_commands.specs.Lines.{Prints};

use sporc_files::Fault;
use sporc_outside::{Sink, write_all};

// Prints a text, whole.
pub(crate) fn print<O: Sink>(out: &mut O, text: &str) -> Result<(), Fault>
    ensures prints { Prints (use_of O.told out.old out.new) text.now result }
    ensures kept { (O.told out.old).faults ≤ (O.told out.new).faults }
{
    match write_all(out, text.as_bytes()) {
        Ok(()) => Ok(()),
        Err(_) => Err(Fault::Outside),
    }
}
