//! `help`, `help COMMAND` and `version`.

ghost use Rattle.std.specs.Prelude.{◌≤◌};
ghost use Rattle.sporc_outside.specs.Uses.{use_of};
ghost use Rattle.sporc_words.specs.Pages.{page_text};
ghost use Rattle.sporc_commands.specs.Lines.{Prints};

use crate::printing::print;
use sporc_files::Fault;
use sporc_outside::Sink;
use sporc_words::{Page, VERSION};

/// Prints a page of the help.
pub fn help<O: Sink>(out: &mut O, page: Page) -> Result<(), Fault>
    ensures outcome { Prints (use_of O.told out.old out.new) (page_text page) result }
    ensures kept { (O.told out.old).faults ≤ (O.told out.new).faults }
{
    print(out, page.text())
}

/// Prints the program's name and its version.
pub fn version<O: Sink>(out: &mut O) -> Result<(), Fault>
    ensures outcome { Prints (use_of O.told out.old out.new) VERSION.now result }
    ensures kept { (O.told out.old).faults ≤ (O.told out.new).faults }
{
    print(out, VERSION)
}
