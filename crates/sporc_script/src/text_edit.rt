//! Edits of a text. Places and counts are in characters.

use sporc_delta::Text;

/// An edit of a text.
#[derive(Drop)]
pub enum TextEdit {
    /// `insert AT TEXT`
    Insert(Insertion),
    /// `remove AT COUNT`
    Remove(Removal),
}

/// A text that is inserted at a place.
#[derive(Drop)]
pub struct Insertion {
    pub at: u64,
    pub text: Text,
}

/// A number of characters that are removed from a place on.
#[derive(Clone, Copy)]
pub struct Removal {
    pub at: u64,
    pub count: u64,
}

/// The first word of an edit.
#[derive(Clone, Copy)]
pub enum TextWord {
    Insert,
    Remove,
}
