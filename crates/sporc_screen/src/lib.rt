//! What an editor that types ahead has to be sent.
//!
//! An editor's buffer runs ahead of the client behind it: while another's edit is on its way to the
//! editor, the user types on. A [`Screen`] does what each edit asks for, and says for each edit and
//! for each delta that comes which line leads the editor on, so that the editor itself transforms
//! nothing. Each line begins with two numbers: its own, and how many of the editor's edits are in
//! it. The rule of the editor, whole:
//!
//! ```text
//! seen = 0, sent = 0
//! on a line:                 if its `own` is `sent`: apply its delta; seen = its number
//!                            // else ignore it: one with all edits comes
//! on a change of the user:   send `seen` with the edit; sent += 1
//! ```
//!
//! The edits that were done are one delta of the client's text, the draft, which is ordered later
//! than whatever comes, until the client takes it.
//!
//! ```text
//! let mut screen = Screen::open(alloc, 2)?;          // client and editor have "ab"
//! // another's "A" comes: line 1, with no edit of the editor's
//! let line = screen.come(&form)?;
//! // the editor has not read that, and has "xab": line 2, with one edit, leads it to "Axab"
//! let text = TextSlice::new("x");
//! let line = screen.edit(0, &Edit::Insert { at: 0, text })?;
//! let kept = Delta::keep_all(alloc, 4)?;
//! let draft = screen.take_draft(kept);               // "Aab" becomes "Axab"
//! ```
//!
//! Proved: what each call does and answers, and which fault comes; that after out of memory all is
//! as before; over every list of moves of an editor and a screen with a pipe each way, while fewer
//! than [`MAX_NAMED`] lines stand behind what the editor has, that each edit names a line and a
//! place that are known, that a line that is applied leads to the text that was shown as it was
//! written, and that both texts are one if nothing is under way
//! ([`laws::lines_lead_to_the_text`]; no edit is refused there, and no text is written anew).
//! Neither proved nor tested: how long a call takes; that an editor keeps the rule, and that pipes
//! keep lines and their order, which the law says of its machine; that memory suffices if there is
//! ample.
#![tactic(auto)]

mod edit;
mod fault;
pub mod laws;
mod limits;
mod lines;
mod restating;
mod screen;

pub use crate::edit::Edit;
pub use crate::fault::ScreenFault;
pub use crate::limits::MAX_NAMED;
pub use crate::lines::{Numbers, Written};
pub use crate::screen::Screen;
pub use sporc_base::Memory;
