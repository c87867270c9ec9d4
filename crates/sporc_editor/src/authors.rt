//! The authors of edits.

ghost use Rattle.std.specs.Prelude.{◌≡◌, [], length, nat_lt, take};
ghost use Rattle.std.specs.List.{list_any};
ghost use Rattle.sporc_member.specs.Device.{same_device};
ghost use Rattle.sporc_editor.specs.Authors.{kept_with};
ghost use Rattle.sporc_editor.specs.declared.limits.TheConstants.{MAX_AUTHORS};

use crate::limits::MAX_AUTHORS;
use sporc_member::Device;
use std::marker::Model;

// As many as a line names, and one more.
const MAX_KEPT: usize = MAX_AUTHORS + 1;

/// The authors of edits, each once, in the order in which they first come. As many are kept as a
/// line names, and one more, which tells that there are more. No call takes memory.
#[derive(Drop)]
pub struct Authors {
    devices: [Device; MAX_KEPT],
    len: usize,
}

impl Model for Authors {
    ghost use Rattle.std.specs.Prelude.{◌≤◌, List, take};
    ghost use Rattle.sporc_member.specs.declared.device.Device.{Device};
    ghost use Rattle.sporc_editor.specs.declared.authors.TheConstants.{MAX_KEPT};

    ghost Value = { List Device };

    ghost view = { λ a. take a.len a.devices };

    ghost invariant = { λ a. a.len ≤ MAX_KEPT };
}

impl Authors {
    /// None yet.
    pub fn new() -> Authors
        ensures value { result ≡ [] }
    {
        Authors {
            devices: [Device::first(0); MAX_KEPT],
            len: 0,
        }
    }

    /// The author of one more edit.
    pub fn add(&mut self, author: Device)
        ensures value { self.new ≡ kept_with self.old author }
    {
        let len = self.len;
        if len == MAX_KEPT || is_among(self.kept(), author) {
            return;
        }
        self.devices[len] = author;
        self.len = len + 1;
    }

    /// Those that a line names.
    pub fn named(&self) -> &[Device]
        ensures value { result.now ≡ take MAX_AUTHORS self.now }
    {
        &self.devices[..self.len.min(MAX_AUTHORS)]
    }

    /// Whether there are more than a line names.
    pub fn has_more(&self) -> bool
        ensures meaning { result ≡ nat_lt MAX_AUTHORS (length self.now) }
    {
        self.kept().len() > MAX_AUTHORS
    }

    // All that are kept.
    fn kept(&self) -> &[Device]
        ensures { result.now ≡ self.now }
    {
        &self.devices[..self.len]
    }
}

fn is_among(devices: &[Device], device: Device) -> bool
    ensures { result ≡ list_any (λ d. same_device d device) devices.now }
{
    devices.iter().any(|d| d.is(device))
}
