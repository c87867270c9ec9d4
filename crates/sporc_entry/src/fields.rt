//! A field of a role.

ghost use Rattle.std.specs.Prelude.{◌≡◌, OnErr};
ghost use Rattle.sporc_bytes.specs.Fields.{Reads};
ghost use Rattle.sporc_entry.specs.Fields.{role_at};

use sporc_bytes::{Cursor, Short};
use sporc_member::Role;

// The next byte as a role.
#[tactic(auto, unfolding(crate::specs::Fields::role_at))]
pub(crate) fn read_role(cursor: &mut Cursor<'_>) -> Result<Role, Short>
    ensures value { Reads (λ role. (role, cursor.new)) result (role_at cursor.old) }
    ensures unchanged { OnErr result (cursor.new ≡ cursor.old) }
{
    let at = cursor.at();
    let code = cursor.u8_within(1, 3)?;
    match Role::from_code(code) {
        Some(role) => Ok(role),
        None => Err(Short(at)),
    }
}
