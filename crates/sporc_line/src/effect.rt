//! What an entry does.

use sporc_delta::Delta;

/// What an entry does to the text, and the key of the last epoch after it. None if it removes the
/// member.
#[derive(Drop)]
pub(crate) struct Effect {
    pub(crate) form: Delta,
    pub(crate) key: Option<[u8; 32]>,
}
