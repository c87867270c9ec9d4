//! What is called between the steps of editors, sessions and workers.

use std::sync::Wait;

/// Is called before each line of an editor, around the examination of an entry's signature, and
/// after each entry that is accepted, by a caller that holds no turn. A test's gate waits here.
pub trait Gate {
    /// Before a line of an editor: the editor's number, and the line's in its script, skipped lines
    /// counted. While a saved history loads, before a worker examines an entry: the worker's
    /// number, from 1, and the entry's position. In a session of a server, once a submitted entry
    /// was examined and before the turn that orders it: the number of the session's pass, and the
    /// position that the entry would have had as its key was looked up.
    fn before_line<R: Wait>(&self, rt: &R, editor: u32, line: u32);

    /// After an entry was accepted: how many entries there are then.
    fn after_accept<R: Wait>(&self, rt: &R, entries: u32);
}

/// A gate that does nothing.
#[derive(Clone, Copy)]
pub struct OpenGate;

impl Gate for OpenGate {
    fn before_line<R: Wait>(&self, _rt: &R, _editor: u32, _line: u32) {}

    fn after_accept<R: Wait>(&self, _rt: &R, _entries: u32) {}
}
