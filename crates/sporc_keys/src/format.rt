//! The four bytes that name a format.

ghost use Rattle.sporc_bytes.specs.Fields.{Reads};
ghost use Rattle.sporc_keys.specs.Fields.{format_at};

use sporc_base::is_same;
use sporc_bytes::{Cursor, Short};

// The next four bytes, which are these.
#[tactic(auto, unfolding(crate::specs::Fields::format_at))]
pub(crate) fn read_format(cursor: &mut Cursor<'_>, format: &[u8; 4]) -> Result<(), Short>
    ensures { Reads (λ _. cursor.new) result (format_at format.now cursor.old) }
{
    let at = cursor.at();
    let bytes = cursor.take(4)?;
    if !is_same(bytes, format) {
        return Err(Short(at));
    }
    Ok(())
}
