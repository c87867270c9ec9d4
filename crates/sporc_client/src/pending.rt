//! A client's own edits and changes that are not committed yet.

use sporc_delta::Delta;
use sporc_member::Change;

/// An edit or a change of a client's own that is not committed yet.
#[derive(Drop)]
pub enum Pending {
    Edit(Delta),
    Change(Change),
}
