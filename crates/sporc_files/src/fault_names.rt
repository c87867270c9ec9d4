//! The names of faults, as texts.

ghost use Rattle.std.specs.Prelude.{◌≡◌};
ghost use Rattle.sporc_head.specs.Refusal.{refusal_name};
ghost use Rattle.sporc_report.specs.Names.{edit_fault_name, hint_fault_name, open_fault_name};
ghost use Rattle.sporc_files.specs.Arguments.{text_bytes};

use crate::text::Text;
use sporc_client::EditFault;
use sporc_epoch::HintFault;
use sporc_head::Refusal;
use sporc_line::LineOpenFault;
use sporc_report::{edit_fault_name, hint_fault_parts, open_fault_name};

// The name of a refusal.
pub(crate) fn refusal_text(refusal: Refusal) -> Text
    ensures { text_bytes result ≡ refusal_name refusal }
{
    Text::of_parts(refusal.parts())
}

// The name of why an edit is refused.
pub(crate) fn edit_fault_text(fault: EditFault) -> Text
    ensures { text_bytes result ≡ edit_fault_name fault }
{
    Text::of(edit_fault_name(fault))
}

// The name of why there are no hints.
pub(crate) fn hint_fault_text(fault: HintFault) -> Text
    ensures { text_bytes result ≡ hint_fault_name fault }
{
    Text::of_parts(hint_fault_parts(fault))
}

// The name of why a member's key of epoch 0 does not open a history.
pub(crate) fn open_fault_text(fault: LineOpenFault) -> Text
    ensures { text_bytes result ≡ open_fault_name fault }
{
    Text::of(open_fault_name(fault))
}
