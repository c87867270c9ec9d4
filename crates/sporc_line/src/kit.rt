//! What a device of a member was given.

ghost use Rattle.std.specs.Prelude.{◌≡◌, ◌==◌, Option, IfOk};
ghost use Rattle.std.specs.FinMap as map;
ghost use Rattle.std.specs.List.{list_any};
ghost use Rattle.sporc_member.specs.Device.{same_device};
ghost use Rattle.sporc_member.specs.Roster.{removes};
ghost use Rattle.sporc_epoch.specs.Keys.{pairs_in};
ghost use Rattle.sporc_line.specs.Kit.{kit_of};
ghost use Rattle.sporc_line.specs.Started.{key_by_wraps, started_key};

use sporc_base::Memory;
use sporc_entry::{ChangeBody, Header, Wrap};
use sporc_epoch::{Pairs, Ring, open_wrap_at, stream_of};
use sporc_member::{Change, Device};
use std::marker::Model;

/// Which device it is, its keys of epochs, and the keys that its member shares with others.
#[derive(Drop)]
pub(crate) struct MemberKit {
    me: Device,
    ring: Ring,
    pairs: Pairs,
}

impl Model for MemberKit {
    ghost use Rattle.sporc_line.specs.Kit.{Kit};
    ghost use Rattle.sporc_line.specs.Codes.{kit_code};
    ghost use Rattle.sporc_epoch.specs.Keys.{pairs_in};

    ghost Value = { Kit };

    ghost coded = { kit_code };

    ghost view = { λ k. record { me = k.me; ring = k.ring.keys; pairs = pairs_in k.pairs } };
}

impl MemberKit {
    /// The kit of these parts.
    pub(crate) fn new(me: Device, ring: Ring, pairs: Pairs) -> MemberKit
        ensures value { result ≡ kit_of me ring.keys (pairs_in pairs) }
    {
        MemberKit { me, ring, pairs }
    }

    /// Which device it is.
    pub(crate) fn me(&self) -> Device
        ensures value { result ≡ self.now.me }
    {
        self.me
    }

    /// The keys that it shares with other members.
    pub(crate) fn pairs(&self) -> &Pairs
        ensures value { pairs_in result.now ≡ self.now.pairs }
    {
        &self.pairs
    }

    /// A key of its ring.
    pub(crate) fn hint(&self, epoch: u32) -> Option<[u8; 32]>
        ensures value { result ≡ map.get self.now.ring epoch }
    {
        self.ring.key(epoch).copied()
    }

    /// A copy.
    pub(crate) fn copy(&self) -> Result<MemberKit, Memory>
        ensures ok { IfOk result (λ copy. copy ≡ self.now) }
    {
        let ring = self.ring.copy()?;
        let pairs = self.pairs.clone()?;
        Ok(MemberKit {
            me: self.me,
            ring,
            pairs,
        })
    }

    /// The key of the epoch that a change starts.
    pub(crate) fn started_key(
        &self,
        header: &Header,
        body: &ChangeBody,
        epoch: u32,
    ) -> Option<[u8; 32]>
        ensures value { result ≡ key_by_wraps self.now epoch header.now body.now }
    {
        started_key(self.me, &self.pairs, self.hint(epoch), header, body)
    }
}

/// The key of the epoch that a change starts, for a device of a member that shares these keys with
/// others: from the member's own wrap, or the hint, if the change has no wrap for it. None if the
/// change removes the member or drops the device.
pub fn started_key(
    me: Device,
    pairs: &Pairs,
    hint: Option<[u8; 32]>,
    header: &Header,
    body: &ChangeBody,
) -> Option<[u8; 32]>
    ensures value { result ≡ started_key me (pairs_in pairs.now) hint header.now body.now }
{
    if is_removal(&body.change, me) {
        return None;
    }
    if has_wrap(body.wraps.as_slice(), me.member) {
        open_wrap_at(body, header.author, stream_of(header), me.member, pairs)
    } else {
        hint
    }
}

/// Whether a change removes this device, or its member.
pub(crate) fn is_removal(change: &Change, me: Device) -> bool
    ensures value { result ≡ removes me change.now }
{
    match change {
        Change::Remove { member } => *member == me.member,
        Change::DropDevice { member, device } => is_device(me, *member, *device),
        Change::Add { .. } | Change::SetRole { .. } | Change::AddDevice { .. } | Change::Upgrade =>
            false,
    }
}

// Whether it is this device of a member.
fn is_device(me: Device, member: u16, number: u8) -> bool
    ensures value { result ≡ same_device (record { member = member; number = number }) me }
{
    let device = Device { member, number };
    device.is(me)
}

// Whether a change has a wrap for this member.
fn has_wrap(wraps: &[Wrap], me: u16) -> bool
    ensures value { result ≡ list_any (λ w. w.member == me) wraps.now }
{
    wraps.iter().any(|w| w.member == me)
}
