//! Entries that were prepared.

ghost use Rattle.std.specs.Prelude.{◌≡◌, Option, is_some};
ghost use Rattle.sporc_entry.specs.Entry.{author_device, change_of};

use sporc_delta::Delta;
use sporc_head::Checked;
use sporc_member::Device;
use sporc_suffix::ReadyForm;
use sporc_text::ReadyText;
use std::marker::Model;

/// An entry that failed no check at a line, with all that its commit needs.
///
/// Contracts see the checked entry, its form with the runs of forms that it ends, how it rewrites
/// the text, and the key of the last epoch after it.
#[derive(Drop)]
pub struct Prepared {
    pub(crate) checked: Checked,
    pub(crate) form: ReadyForm,
    pub(crate) text: ReadyText,
    pub(crate) key: Option<[u8; 32]>,
}

impl Model for Prepared {
    ghost use Rattle.sporc_line.specs.Prepared.{PreparedModel};

    ghost Value = { PreparedModel };

    ghost use Rattle.sporc_line.specs.PreparedFields.{prepared_of};

    ghost view = { prepared_of };
}

impl Prepared {
    /// The number of its author.
    pub fn author(&self) -> u16
        ensures value { result ≡ (author_device self.now.checked.entry.header).member }
    {
        self.author_device().member
    }

    /// The number of its author's device.
    pub fn device(&self) -> u8
        ensures value { result ≡ (author_device self.now.checked.entry.header).number }
    {
        self.author_device().number
    }

    /// The device of its author, by both numbers.
    pub fn author_device(&self) -> Device
        ensures value { result ≡ author_device self.now.checked.entry.header }
    {
        self.checked.header().author_device()
    }

    /// Whether it is a change.
    pub fn is_change(&self) -> bool
        ensures value { result ≡ is_some (change_of self.now.checked.entry) }
    {
        self.checked.change().is_some()
    }

    /// Its form: an edit's marks, restated behind the forms since its base; or, of a change, the
    /// delta that keeps all.
    pub fn form(&self) -> &Delta
        ensures value { result.now ≡ self.now.form }
    {
        self.form.form()
    }
}
