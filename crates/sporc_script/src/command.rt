//! What the lines of a play script stand for.

use crate::member_role::MemberRole;
use crate::roster_change::RosterChange;
use crate::sign::Forgery;
use crate::text_edit::TextEdit;
use sporc_base::Items;
use sporc_member::Device;

/// A line of a play script.
#[derive(Drop)]
pub enum Command {
    /// `tree H W` has the sizes of all members' signature trees.
    Tree(Tree),
    /// `member M ROLE` declares a founder with a client.
    Member(MemberRole),
    /// `rogue M ROLE` declares a founder without a client.
    Rogue(MemberRole),
    /// `joiner M` declares one whose client opens by `join`.
    Joiner(u16),
    /// `unpaired M N` takes the key from a pair.
    Unpaired(Pair),
    /// `edit C ..` edits the text that a client shows.
    Edit(Edit),
    /// `change C ..` asks for a change of the members.
    Change(RosterEdit),
    /// `discard C` gives up the pending items.
    Discard(Device),
    /// `submit C` makes an entry of the first pending item.
    Submit(Device),
    /// `give C POS E` hands a client an entry at a position.
    Give(Give),
    /// `restart C K` opens a client again from the first entries of its history.
    Restart(Restart),
    /// `join C E1 E2 ..` opens a joiner's client from entries.
    Join(Join),
    /// `show C` shows the text of a client.
    Show(Device),
    /// `members C` lists the members.
    Members(Device),
    /// `hash C` shows the last value of the chain.
    Hash(Device),
    /// `journal C` lists the events.
    Journal(Device),
    /// `compare C C` compares what two clients accepted.
    Compare(DevicePair),
    /// `flip E AT` makes an entry that differs in a bit.
    Flip(Flip),
    /// `cut E` makes an entry that lacks the last byte.
    Cut(u64),
    /// `sign M from C ..` signs for a rogue.
    Sign(Forgery),
    /// `device M D` declares a further device, with a client.
    Device(Device),
}

/// The first word of a line.
#[derive(Clone, Copy)]
pub enum Keyword {
    Tree,
    Member,
    Rogue,
    Joiner,
    Unpaired,
    Edit,
    Change,
    Discard,
    Submit,
    Give,
    Restart,
    Join,
    Show,
    Members,
    Hash,
    Journal,
    Compare,
    Flip,
    Cut,
    Sign,
    Device,
}

/// The height of a signature tree.
#[derive(Clone, Copy)]
pub enum Height {
    Five,
    Ten,
}

/// The width of a Winternitz coefficient in bits.
#[derive(Clone, Copy)]
pub enum Width {
    Four,
    Eight,
}

/// The sizes of signature trees.
#[derive(Clone, Copy)]
pub struct Tree {
    pub height: Height,
    pub width: Width,
}

/// Two members.
#[derive(Clone, Copy)]
pub struct Pair {
    pub first: u16,
    pub second: u16,
}

/// Two devices.
#[derive(Clone, Copy)]
pub struct DevicePair {
    pub first: Device,
    pub second: Device,
}

/// An edit of the text that a client shows, or showed.
#[derive(Drop)]
pub struct Edit {
    pub device: Device,
    /// How many events of the journal its author has seen, if that is stated.
    pub seen: Option<u64>,
    pub change: TextEdit,
}

/// A change of the members that a client asks for.
#[derive(Clone, Copy)]
pub struct RosterEdit {
    pub device: Device,
    pub change: RosterChange,
}

/// An entry that a client is handed.
#[derive(Clone, Copy)]
pub struct Give {
    pub device: Device,
    /// The position that is stated, counted from 1.
    pub position: u32,
    /// The entry, counted from 1 in the order in which entries were made.
    pub entry: u64,
}

/// A client that goes back to the first entries of its history.
#[derive(Clone, Copy)]
pub struct Restart {
    pub device: Device,
    /// How many entries of its history are kept.
    pub entries: u64,
}

/// A joiner and the entries that its client opens from.
#[derive(Drop)]
pub struct Join {
    pub device: Device,
    /// The entries, at least one, by their numbers.
    pub entries: Items<u64>,
}

/// An entry, and the byte of it in which a bit is turned.
#[derive(Clone, Copy)]
pub struct Flip {
    pub entry: u64,
    /// The byte, counted from 0.
    pub at: u64,
}
