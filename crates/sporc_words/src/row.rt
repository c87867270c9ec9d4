//! What is said of a command in one place.

use crate::arguments::Kind;

/// A command as its words are read and as the help shows it.
#[derive(Clone, Copy)]
pub(crate) struct CommandRow {
    /// Its first word.
    pub(crate) word: &'static str,
    /// Its arguments, in their order.
    pub(crate) arguments: &'static [(Kind, &'static str)],
    /// Its page of the help.
    pub(crate) page: &'static str,
}
