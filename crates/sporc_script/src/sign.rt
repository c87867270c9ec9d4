//! What a script signs for a rogue.

use crate::roster_change::RosterChange;
use crate::text_edit::Insertion;
use sporc_base::Bytes;
use sporc_member::Device;

/// An entry that a rogue signs.
#[derive(Drop)]
pub struct Forgery {
    /// The rogue that signs.
    pub member: u16,
    /// The client whose history the entry follows.
    pub from: Device,
    pub signed: Signed,
}

/// What is signed, and what is wrong about it.
#[derive(Drop)]
pub struct Signed {
    pub what: What,
    /// What is wrong about the entry, if that is stated.
    pub suffix: Option<Suffix>,
}

/// What is signed.
#[derive(Drop)]
pub enum What {
    /// `insert AT TEXT`
    Insert(Insertion),
    /// `raw HEX` is the payload before masking.
    Raw(Bytes),
    /// `add N ROLE`, `remove N`, `role N ROLE`, `device N D`, `drop-device N D` or `upgrade`
    Change(RosterChange),
}

/// What is wrong about an entry that a rogue signs.
///
/// Those from `Wrap` to `Previous` stand behind a change of the members alone.
#[derive(Clone, Copy)]
pub enum Suffix {
    /// `with number K`
    Number(u32),
    /// `with base B`
    Base(u32),
    /// `with epoch K`
    Epoch(u32),
    /// `with leaf K`
    Leaf(u32),
    /// `with wrap N` changes the member's wrap.
    Wrap(u16),
    /// `with drop N` leaves the member's wrap out.
    Drop(u16),
    /// `with commit` changes the commitment.
    Commit,
    /// `with previous` changes the sealed previous key.
    Previous,
    /// `with version K`, which is 1 or 2
    Version(u8),
    /// `with device D` states the device in the header.
    Device(u8),
}

/// The first word of what is signed.
#[derive(Clone, Copy)]
pub enum WhatWord {
    Insert,
    Raw,
    Add,
    Remove,
    Role,
    Device,
    DropDevice,
    Upgrade,
}

/// The word behind `with`, if a number follows it.
#[derive(Clone, Copy)]
pub enum SuffixWord {
    Number,
    Base,
    Epoch,
    Leaf,
    Wrap,
    Drop,
    Version,
    Device,
}

/// The word behind `with`, if nothing follows it.
#[derive(Clone, Copy)]
pub enum LoneWord {
    Commit,
    Previous,
}
