//! Epoch keys sealed for members.

use sporc_base::Items;

/// The key of the next epoch, sealed for a member.
#[derive(Clone, Copy, PartialEq, Eq)]
pub struct Wrap {
    pub member: u16,
    pub sealed: [u8; 32],
}

/// The sealed keys of a change, seen as the list of them.
pub type Wraps = Items<Wrap>;
