//! The files of a command.

ghost use Rattle.std.specs.Prelude.{◌≡◌, IfOk, string_bytes};
ghost use Rattle.sporc_files.specs.Arguments.{text_bytes};
ghost use Rattle.sporc_files.specs.Faults.{file_among};
ghost use Rattle.sporc_files.specs.Names.{file_name, suffix_of};

use crate::names::Names;
use crate::text::{Text, push_text};
use sporc_base::Memory;
use sporc_member::Device;
use std::alloc::Global;

/// A file of a command.
#[derive(Clone, Copy, PartialEq, Eq)]
pub enum File {
    /// `NAME.genesis`: what the document begins with.
    Genesis,
    /// `NAME.M.key` of a member's first device, `NAME.M.D.key` of a further one: the key of the
    /// device.
    Key(Device),
    /// `NAME.M.leaf`, or `NAME.M.D.leaf`: which leaves of that key are taken.
    Leaf(Device),
    /// `NAME.M.ring`: the keys that a member has from the beginning, the same for each of its
    /// devices.
    Ring(u16),
    /// `NAME.M.history`, or `NAME.M.D.history`: the history that a device saved.
    History(Device),
    /// `NAME.log`: the history that a server saved.
    Log,
    /// The script of an editor, counted from 1: its name is the word itself.
    Script(u32),
    /// `NAME.genesis` of one of several documents, counted from 1.
    GenesisOf(u32),
    /// `NAME.log` of one of several documents.
    LogOf(u32),
    /// One of several documents: its name is the word itself.
    Document(u32),
    /// `NAME.tail`: the entries that a server ordered since it saved the log.
    Tail,
    /// `NAME.tail` of one of several documents.
    TailOf(u32),
}

impl File {
    /// Its name.
    pub fn name(self, alloc: Global, names: &Names<'_>) -> Result<String, Memory>
        ensures ok { IfOk result (λ name. string_bytes name ≡ file_name names.now self) }
    {
        let mut name = String::from_str(alloc, names.stem(self))?;
        push_text(&mut name, self.suffix())?;
        Ok(name)
    }

    // This file of the document of this number, among those of several.
    pub(crate) fn among(self, number: u32) -> File
        ensures { result ≡ file_among number self }
    {
        match self {
            File::Genesis => File::GenesisOf(number),
            File::Log => File::LogOf(number),
            File::Tail => File::TailOf(number),
            _ => self,
        }
    }

    // What stands behind the stem of its name.
    pub(crate) fn suffix(self) -> Text
        ensures { text_bytes result ≡ suffix_of self }
    {
        match self {
            File::Genesis => Text::of(".genesis"),
            File::Key(device) => Text::with_device(".", device, ".key"),
            File::Leaf(device) => Text::with_device(".", device, ".leaf"),
            File::Ring(member) => Text::with_number(".", u64::from(member), ".ring"),
            File::History(device) => Text::with_device(".", device, ".history"),
            File::Log => Text::of(".log"),
            File::Script(_) => Text::of(""),
            File::GenesisOf(_) => Text::of(".genesis"),
            File::LogOf(_) => Text::of(".log"),
            File::Document(_) => Text::of(""),
            File::Tail => Text::of(".tail"),
            File::TailOf(_) => Text::of(".tail"),
        }
    }
}
