//! Faults of the program: a status and a line for each.

ghost use Rattle.std.specs.Prelude.{◌≡◌, ◌≤◌, OnOk, OnErr};
ghost use Rattle.std.specs.Io.KnownBytes.{Appends};
ghost use Rattle.sporc_outside.specs.Counts.{CountsFaults};
ghost use Rattle.sporc_outside.specs.Writing.{AppendsPrefix};
ghost use Rattle.sporc_outside.specs.Uses.{use_of};
ghost use Rattle.sporc_files.specs.Arguments.{none, one, two};
ghost use Rattle.sporc_files.specs.Faults.{WritesFaultLine, fault_among, fault_arguments};
ghost use Rattle.sporc_files.specs.Faults.{fault_line, fault_words, status_of};

use crate::argument::{Argument, Arguments, write_arguments};
use crate::file::File;
use crate::names::Names;
use sporc_client::EditFault;
use sporc_epoch::HintFault;
use sporc_head::Refusal;
use sporc_line::LineOpenFault;
use sporc_outside::{Failed, Sink, write_all};

/// Why a command did not do all its work.
///
/// | Status | Faults | The cause |
/// |---|---|---|
/// | 1 | `Memory` | memory ran out |
/// | 2 | `Words` | the words ask for nothing |
/// | 3 | `Missing` to `LongScript`, `Ahead` | a file is missing, is there already, or is too long or malformed, two names are of one document, a script has a line that is not valid or is too long, or a history has fewer entries than the words ask for |
/// | 4 | `Refused` to `Opening` | an entry was refused by a check or rejected by the server, or a member's keys do not open the document |
/// | 5 | `Unsettled` | the rounds of a session are over, and edits wait or the history is shorter than was asked for |
/// | 6 | `LinkEnded`, `Outside` | something outside failed, or a link ended before an answer was whole |
/// | 7 | `Leaf` | the device's key has no leaf left |
/// | 8 | `FullHistory` to `Worn` | a history, a journal or a file is full, or the tickets of a lock are used up |
/// | 9 | `Message` | what the server sent is no message |
/// | 10 | `Edit` | an edit of an editor's script was refused |
#[derive(Clone, Copy, PartialEq, Eq)]
pub enum Fault {
    /// Memory ran out.
    Memory,
    /// The words ask for nothing.
    Words,
    /// There is no such file.
    Missing(File),
    /// There is such a file already.
    Exists(File),
    /// The file is longer than any that is read.
    TooLong(File),
    /// The file is no such file: a field at this place is cut short or forbidden.
    Malformed(File, u64),
    /// This line of the script on standard input is the first outside the grammar.
    Line(u32),
    /// Of the script of this editor, this line is the first outside the grammar.
    EditorLine(u32, u32),
    /// The script on standard input is too long.
    LongScript,
    /// The entry at this position failed a check.
    Refused(u32, Refusal),
    /// The server rejected an entry.
    Rejected(Refusal),
    /// A history gives a joiner no keys of earlier epochs.
    Hints(HintFault),
    /// A member's key of epoch 0 does not open the history.
    Opening(LineOpenFault),
    /// So many items are pending, and the history has so many entries.
    Unsettled(u32, u32),
    /// The link ended after so many bytes, before an answer was whole.
    LinkEnded(u64),
    /// A file, a disk, a link, a net, the chance, the source or the sink failed.
    Outside,
    /// This is the number of the next leaf, which the key does not have.
    Leaf(u32),
    /// The history has as many entries as it may have.
    FullHistory,
    /// The journal has as many events as it may have.
    FullJournal,
    /// The history is too long to be saved.
    FullFile,
    /// The tickets of a lock are used up.
    Worn,
    /// What came from the server is no message, from this place on.
    Message(u64),
    /// Of the script of this editor, this line was refused.
    Edit(u32, u32, EditFault),
    /// The history has so many entries, fewer than the words ask for.
    Ahead(u32),
}

impl Fault {
    /// The exit status.
    pub fn status(self) -> u8
        ensures value { result ≡ status_of self }
    {
        match self {
            Fault::Memory => 1,
            Fault::Words => 2,
            Fault::Missing(_)
            | Fault::Exists(_)
            | Fault::TooLong(_)
            | Fault::Malformed(_, _)
            | Fault::Line(_)
            | Fault::EditorLine(_, _)
            | Fault::LongScript
            | Fault::Ahead(_) => 3,
            Fault::Refused(_, _) | Fault::Rejected(_) | Fault::Hints(_) | Fault::Opening(_) => 4,
            Fault::Unsettled(_, _) => 5,
            Fault::LinkEnded(_) | Fault::Outside => 6,
            Fault::Leaf(_) => 7,
            Fault::FullHistory | Fault::FullJournal | Fault::FullFile | Fault::Worn => 8,
            Fault::Message(_) => 9,
            Fault::Edit(_, _, _) => 10,
        }
    }

    /// The fault of a document's genesis, log or tail as that of one of several documents, counted
    /// from 1.
    pub fn among(self, number: u32) -> Fault
        ensures value { result ≡ fault_among number self }
    {
        match self {
            Fault::Missing(file) => Fault::Missing(file.among(number)),
            Fault::TooLong(file) => Fault::TooLong(file.among(number)),
            Fault::Malformed(file, at) => Fault::Malformed(file.among(number), at),
            _ => self,
        }
    }

    /// Writes the line of the fault, as far as the sink takes it. It takes no memory.
    pub fn tell<O: Sink>(self, names: &Names<'_>, out: &mut O)
        ensures line { WritesFaultLine (use_of O.told out.old out.new) names.now self }
        ensures kept { (O.told out.old).faults ≤ (O.told out.new).faults }
    {
        let _ = self.write_line(names, out);
    }

    // Writes the line.
    fn write_line<O: Sink>(self, names: &Names<'_>, out: &mut O) -> Result<(), Failed>
        ensures ok { OnOk result (Appends (O.told out.old).written (O.told out.new).written
            (fault_line names.now self)) }
        ensures err { OnErr result (AppendsPrefix (O.told out.old).written (O.told out.new).written
            (fault_line names.now self)) }
        ensures count { CountsFaults (O.told out.old).faults (O.told out.new).faults result }
    {
        write_all(out, b"fault ")?;
        write_all(out, self.words().as_bytes())?;
        write_arguments(out, names, &self.arguments())?;
        write_all(out, b"\n")
    }

    // What its line says.
    fn words(self) -> &'static str
        ensures value { result.now ≡ fault_words self }
    {
        match self {
            Fault::Memory => "memory",
            Fault::Words => "words",
            Fault::Missing(_) => "missing",
            Fault::Exists(_) => "exists",
            Fault::TooLong(_) => "too long",
            Fault::Malformed(_, _) => "malformed",
            Fault::Line(_) => "line",
            Fault::EditorLine(_, _) => "line",
            Fault::LongScript => "too long script",
            Fault::Refused(_, _) => "refused",
            Fault::Rejected(_) => "rejected",
            Fault::Hints(_) => "hints",
            Fault::Opening(_) => "hints",
            Fault::Unsettled(_, _) => "unsettled",
            Fault::LinkEnded(_) => "link ended",
            Fault::Outside => "outside",
            Fault::Leaf(_) => "leaf",
            Fault::FullHistory => "full history",
            Fault::FullJournal => "full journal",
            Fault::FullFile => "full file",
            Fault::Worn => "worn",
            Fault::Message(_) => "message",
            Fault::Edit(_, _, _) => "edit",
            Fault::Ahead(_) => "ahead",
        }
    }

    // What stands behind these words.
    fn arguments(self) -> Arguments
        ensures value { result ≡ fault_arguments self }
    {
        match self {
            Fault::Memory
            | Fault::Words
            | Fault::LongScript
            | Fault::Outside
            | Fault::FullHistory
            | Fault::FullJournal
            | Fault::FullFile
            | Fault::Worn => none(),
            Fault::Missing(file) => one(Argument::Name(file)),
            Fault::Exists(file) => one(Argument::Name(file)),
            Fault::TooLong(file) => one(Argument::Name(file)),
            Fault::Malformed(file, at) => two(Argument::Name(file), Argument::Number(at)),
            Fault::Line(line) => one(number(line)),
            Fault::EditorLine(editor, line) => {
                two(Argument::Name(File::Script(editor)), number(line))
            }
            Fault::Refused(position, refusal) => {
                two(number(position), Argument::Refusal(refusal))
            }
            Fault::Rejected(refusal) => one(Argument::Refusal(refusal)),
            Fault::Hints(fault) => one(Argument::Hints(fault)),
            Fault::Opening(fault) => one(Argument::Opening(fault)),
            Fault::Unsettled(pending, position) => two(number(pending), number(position)),
            Fault::LinkEnded(taken) => one(Argument::Number(taken)),
            Fault::Leaf(next) => one(number(next)),
            Fault::Message(at) => one(Argument::Number(at)),
            Fault::Edit(editor, line, fault) => {
                [number(editor), number(line), Argument::Edit(fault)]
            }
            Fault::Ahead(len) => one(number(len)),
        }
    }
}

// A number of 32 bits as an argument.
fn number(n: u32) -> Argument
    ensures value { result ≡ Argument.Number n }
{
    Argument::Number(u64::from(n))
}

// No argument, one, and two.
fn none() -> Arguments
    ensures value { result ≡ none }
{
    [Argument::Nothing, Argument::Nothing, Argument::Nothing]
}

fn one(first: Argument) -> Arguments
    ensures value { result ≡ one first }
{
    [first, Argument::Nothing, Argument::Nothing]
}

fn two(first: Argument, second: Argument) -> Arguments
    ensures value { result ≡ two first second }
{
    [first, second, Argument::Nothing]
}
