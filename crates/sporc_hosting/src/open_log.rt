//! A log as it was opened.

use std::marker::Model;

// The log of a document as it was opened: the name of its tail's file, and how many entries it had.
#[derive(Drop)]
pub(crate) struct OpenLog {
    pub(crate) name: String,
    pub(crate) logged: u32,
}

impl Model for OpenLog {
    ghost use Rattle.std.specs.String.{string_bytes};
    ghost use Rattle.sporc_hosting.specs.OpenLogModel.{OpenLogModel};

    ghost Value = { OpenLogModel };

    ghost view = { λ l. record { name = string_bytes l.name; logged = l.logged } };
}
