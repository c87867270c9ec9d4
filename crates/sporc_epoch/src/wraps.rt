//! Sealed keys, opened.

ghost use Rattle.std.specs.Prelude.{◌≡◌};
ghost use Rattle.sporc_member.specs.Device.{first_device};
ghost use Rattle.sporc_epoch.specs.Keys.{pairs_in};
ghost use Rattle.sporc_epoch.specs.Streams.{entry_stream};
ghost use Rattle.sporc_epoch.specs.Wraps.{wrap_for, wrap_opened, previous_opened};

use crate::pairs::Pairs;
use crate::streams::{entry_stream, masked, previous_stream};
use sporc_entry::{ChangeBody, Wrap};
use sporc_member::Device;

/// The key of the epoch that a change starts, by the first wrap for `me`, opened under the pairwise
/// key with the change's author; `leaf` is that of the entry, which the author's first device
/// signs. None if the change has no wrap for `me`, or if `me` holds no pairwise key with the
/// author.
pub fn open_wrap(
    body: &ChangeBody,
    author: u16,
    leaf: u32,
    me: u16,
    pairs: &Pairs,
) -> Option<[u8; 32]>
    ensures value { result ≡ wrap_opened body.now author
        (entry_stream (first_device author) leaf) me (pairs_in pairs.now) }
{
    open_wrap_at(
        body,
        author,
        entry_stream(Device::first(author), leaf),
        me,
        pairs,
    )
}

/// The key in the first wrap for `me`, of an entry by the number of its stream.
#[tactic(auto, using(crate::proofs::Lookups::get_pairs), unfolding(crate::specs::Wraps::wrap_opened))]
pub fn open_wrap_at(
    body: &ChangeBody,
    author: u16,
    stream: u64,
    me: u16,
    pairs: &Pairs,
) -> Option<[u8; 32]>
    ensures value { result ≡ wrap_opened body.now author stream me (pairs_in pairs.now) }
{
    let wrap = wrap_for(body.wraps.as_slice(), me)?;
    let pair = pairs.get(&author)?;
    Some(masked(pair, stream, &wrap.sealed))
}

// The first wrap for a member.
pub(crate) fn wrap_for(wraps: &[Wrap], member: u16) -> Option<Wrap>
    ensures value { result ≡ wrap_for member wraps.now }
{
    wraps.iter().copied().find(|w| w.member == member)
}

/// The key of the epoch that a change ends, opened under the key of the one that it starts, whose
/// number is `epoch`.
#[tactic(auto, unfolding(crate::specs::Wraps::previous_opened))]
pub fn open_previous(body: &ChangeBody, epoch: u32, key: &[u8; 32]) -> [u8; 32]
    ensures value { result ≡ previous_opened body.now epoch key.now }
{
    masked(key, previous_stream(epoch), &body.previous)
}
