//! What holds of an editor that types ahead.

ghost use Rattle.std.specs.Prelude.{ℕ, List};
ghost use Rattle.sporc_screen.specs.Machine.{Agree, Move, StaysNear, after, begun};

/// Lines lead an editor to the text that was shown as they were written, whatever it types ahead
/// and however long edits and lines take, unless 1,024 lines stand behind the one that it applied
/// last: each of its edits names a line that is known and a place in the text there, and if nothing
/// is under way, its text is the text shown.
pub fn lines_lead_to_the_text()
    ensures { (text : List ℕ) (moves : List Move) → StaysNear moves (begun text)
        → Agree (after moves (begun text)) }
{}
