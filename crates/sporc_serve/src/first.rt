//! The first message of a session.

ghost use Rattle.std.specs.Prelude.{◌≡◌, ◌≢◌, ◌≤◌, [], Err};
ghost use Rattle.sporc_wire.specs.Messages.{stream_of};
ghost use Rattle.sporc_serve.specs.Endings.{inlet_at, ReadsFirst};

use crate::end::SessionEnd;
use crate::session::next_message;
use sporc_outside::Link;
use sporc_wire::{Frames, ToServer};
use std::sync::Wait;

/// Takes the first message of a link's bytes, however many pieces it comes in.
pub fn first_message<R: Wait, L: Link>(
    rt: &R,
    link: &mut L,
    frames: &mut Frames,
) -> Result<ToServer, SessionEnd>
    requires fresh { frames.old ≡ stream_of [] }
    ensures first { ReadsFirst (inlet_at (L.told link.old) frames.old)
        (inlet_at (L.told link.new) frames.new) result }
    ensures written { (L.told link.new).written ≡ (L.told link.old).written }
    ensures shut { (L.told link.new).is_shut ≡ (L.told link.old).is_shut }
    ensures kept { (L.told link.old).faults ≤ (L.told link.new).faults }
    ensures none_unkept { result ≢ Err SessionEnd.Unkept }
{
    for _ in rt.forever() {
        let found = match next_message(link, frames) {
            Ok(found) => found,
            Err(end) => return Err(end),
        };
        if let Some(message) = found {
            return Ok(message);
        }
    }
    unreachable!()
}
