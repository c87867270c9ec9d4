//! An edit, restated behind the lines that the editor had not read.

ghost use Rattle.std.specs.Prelude.{◌≡◌, IfOk};
ghost use Rattle.sporc_base.specs.FirstFault.{AnswersUnless, first_of};
ghost use Rattle.sporc_delta.specs.Marks.{out_len};
ghost use Rattle.sporc_screen.specs.Edits.{bounds_checks, draft_with, line_with};
ghost use Rattle.sporc_screen.specs.Lines.{LeadTo};
ghost use Rattle.sporc_screen.specs.declared.fault.ScreenFault.TheVariants as faults;

use crate::lines::{composed, len_before};
use crate::{Edit, ScreenFault};
use sporc_delta::{Delta, MAX_COUNT};
use sporc_xform::{both, compose};
use std::alloc::Global;

/// An edit that is restated.
#[derive(Drop)]
pub(crate) struct Restated {
    /// The draft with the edit.
    pub draft: Delta,
    /// What leads to the text after it from the text with the edit.
    pub line: Delta,
}

/// An edit of the text before these lines, which lead to the text after the draft.
pub(crate) fn restate(
    alloc: Global,
    draft: &Delta,
    lines: &[Delta],
    edit: &Edit<'_>,
) -> Result<Restated, ScreenFault>
    requires { LeadTo lines.now (out_len draft.now) }
    ensures fault { AnswersUnless faults.Memory result
        (first_of (bounds_checks draft.now lines.now edit.now)) }
    ensures draft { IfOk result (λ r. r.draft ≡ draft_with draft.now lines.now edit.now) }
    ensures line { IfOk result (λ r. r.line ≡ line_with draft.now lines.now edit.now) }
{
    let len = len_before(lines, draft.out_len());
    if !edit.is_in_bounds(len) {
        return Err(ScreenFault::Outside);
    }
    let texts = draft.base_len() + draft.out_len() + len;
    if texts > MAX_COUNT || edit.typed_len() > MAX_COUNT - texts {
        return Err(ScreenFault::TooLong);
    }
    let edited = edit.delta(alloc, len)?;
    let shown = composed(alloc, lines, draft.out_len())?;
    let (line, edited) = both(alloc, &shown, &edited)?;
    let draft = compose(alloc, draft, &edited)?;
    Ok(Restated { draft, line })
}
