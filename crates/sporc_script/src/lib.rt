//! Scripts: what members of a group do, a line each.
//!
//! [`read_play`] reads a play, which declares members and then has commands, and [`read_editor`]
//! the lines of one editor. Both answer the lines that are not skipped, with their numbers and the
//! values that their words stand for, or the first line outside the grammar. A grammar with lines
//! like those of editors reads them by [`read_editor_command`], [`cut`] and the readers of edits. The
//! grammar stands in docs/FORMATS.md:
//!
//! ```text
//! member 1 admin
//! rogue 2 editor
//! device 1 3
//! edit 1.3 seen 0 insert 0 "abc"
//! sign 2 from 1 insert 0 "x" with number 7
//! ```
//!
//! Proved: a text is one script or has one first line outside the grammar, and the readers answer
//! which. A line is in the grammar if it is how some command is spelled (`specs/Commands.antt`,
//! `specs/EditorLines.antt`) that may follow the lines before it (`specs/Declarations.antt`). Only
//! tested: that reading does not run out of memory if there is ample, of plays in
//! `sporc_top_tests`, through `run`, and of editors' lines in `sporc_thread_tests`. Neither: how
//! long it takes.
#![tactic(auto)]

mod command;
mod commands;
mod declared;
mod editor_commands;
mod editor_line;
mod editor_script;
mod edits;
mod hex_word;
pub mod laws;
mod limits;
mod lines;
mod member_role;
mod named;
mod names;
mod numbers;
mod plain;
mod play_line;
mod play_script;
mod quoted;
mod roster_change;
mod sign;
mod signs;
mod text_edit;
mod words;

pub use command::{
    Command, DevicePair, Edit, Flip, Give, Height, Join, Pair, Restart, RosterEdit, Tree, Width,
};
pub use declared::MAX_DECLARED;
pub use editor_commands::read_editor_command;
pub use editor_line::{EditorCommand, EditorLine, KEY_BYTES};
pub use editor_script::{EditorScript, read_editor};
pub use edits::{read_insertion, read_removal};
pub use limits::{MAX_EDITORS, MAX_GENERATED, MAX_SCRIPT_BYTES};
pub use lines::{LineFault, is_skipped};
pub use member_role::MemberRole;
pub use names::parse_role;
pub use play_line::PlayLine;
pub use play_script::{PlayScript, read_play};
pub use roster_change::RosterChange;
pub use sign::{Forgery, Signed, Suffix, What};
pub use text_edit::{Insertion, Removal, TextEdit};
pub use words::{cut, parse_device, parse_member, parse_u32, parse_u64};
