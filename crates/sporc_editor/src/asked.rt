//! What an editor asks for.

use sporc_member::Change;
use sporc_script::{Insertion, Removal};

/// What an editor asks for by a line.
#[derive(Drop)]
pub enum Asked {
    /// `insert SEEN AT TEXT`: an edit of the text that the editor has, which is that after the line
    /// SEEN with its own edits since.
    Insert { seen: u64, insertion: Insertion },
    /// `remove SEEN AT COUNT`: an edit of that text.
    Remove { seen: u64, removal: Removal },
    /// A change of the members, as lines of editor scripts ask for it.
    Change(Change),
    /// `pull`: what others added.
    Pull,
    /// `sync`: the same, and what was done here goes to the others.
    Sync,
    /// `text`: the whole text anew.
    Text,
    /// `save`: that the history is saved.
    Save,
}
