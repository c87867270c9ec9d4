//! Forms that were made ready.

ghost use Rattle.std.specs.Prelude.{◌≡◌, ◌<◌, length, slice_get, Some};

use sporc_delta::Delta;
use std::marker::Model;

/// A form for which the memory to put it is there, with the compositions of the whole runs of forms
/// that it ends, which contracts see with its marks.
#[derive(Drop)]
pub struct ReadyForm {
    form: Delta,
    // Those of the last two forms, of the last four, and so on.
    runs: Vec<Delta>,
}

impl Model for ReadyForm {
    ghost use Rattle.sporc_suffix.specs.Runs.{ReadyModel};

    ghost Value = { ReadyModel };

    ghost view = { λ r. record { form = r.form; runs = r.runs.items } };
}

impl ReadyForm {
    // A form with the runs that it ends.
    pub(crate) fn new(form: Delta, runs: Vec<Delta>) -> ReadyForm
        ensures value { result ≡ record { form = form; runs = runs.items } }
    {
        ReadyForm { form, runs }
    }

    /// The form.
    pub fn form(&self) -> &Delta
        ensures value { result.now ≡ self.now.form }
    {
        &self.form
    }

    // One of the runs that it ends.
    pub(crate) fn run(&self, place: usize) -> &Delta
        requires { place < length self.now.runs }
        ensures value { slice_get self.now.runs place ≡ Some result.now }
    {
        &self.runs[place]
    }
}
