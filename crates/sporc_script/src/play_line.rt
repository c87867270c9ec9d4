//! Lines of play scripts.

use crate::command::Command;

/// A line of a script that is not skipped.
#[derive(Drop)]
pub struct PlayLine {
    /// Counted from 1, skipped lines counted too.
    pub number: u32,
    pub command: Command,
}
