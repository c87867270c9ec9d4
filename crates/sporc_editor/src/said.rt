//! What an editor is told.

use crate::authors::Authors;
use sporc_client::EditFault;
use sporc_delta::Text;
use sporc_member::ChangeFault;
use sporc_screen::{Numbers, ScreenFault, Written};

/// What an editor is told by a line.
#[derive(Drop)]
pub enum Said {
    /// `text W OWN TEXT`: the whole text.
    Text { numbers: Numbers, text: Text },
    /// `shown W OWN BY DELTA`: what leads from the text that the editor has to the text shown, and
    /// the authors of the others' edits that it brings.
    Shown { written: Written, authors: Authors },
    /// `at N pending P`: how many entries the history has, and how many items are not committed.
    At { entries: u64, pending: u64 },
    /// `refused LINE NAME`: the line of this number, counted from 1, is not done.
    Refused { line: u64, cause: Cause },
    /// `dropped NAME`: a change is given up, since the roster refuses it as its turn comes.
    Dropped(ChangeFault),
    /// `away`: the server could not be had, or the link to it failed.
    Away,
    /// `removed`: the member was removed, or its device dropped.
    Removed,
    /// `saved N`: the history was saved with so many entries.
    Saved { entries: u64 },
}

/// Why a line is refused.
#[derive(Clone, Copy)]
pub enum Cause {
    /// By the client.
    Client(EditFault),
    /// By the screen.
    Screen(ScreenFault),
}
