//! The line of a member's device, opened.

ghost use Rattle.std.specs.Prelude.{◌≡◌, ◌≤◌, [], IfErr, IfOk};
ghost use Rattle.sporc_entry.specs.Genesis.{IsGenesis};
ghost use Rattle.sporc_outside.specs.Nets.{AreShutBehind};
ghost use Rattle.sporc_outside.specs.Uses.{use_of};
ghost use Rattle.sporc_files.specs.Uses.{AsksAtMost};
ghost use Rattle.sporc_device.specs.Opening.{NotOpened, Opens, begin_with, links_for_hints};

use crate::fetching::fetch_entries;
use sporc_entry::Genesis;
use sporc_files::{Fault, open_line};
use sporc_keys::RingFile;
use sporc_line::Line;
use sporc_member::Device;
use sporc_outside::Dial;
use std::alloc::Global;
use std::sync::Wait;

/// The empty line of a member's device, by what the member's ring file says. A joiner's file has no
/// key of epoch 0: its keys are those that the entries of the server at an address give it.
pub fn open_member<R: Wait, N: Dial>(
    rt: &R,
    alloc: Global,
    net: &mut N,
    address: &str,
    genesis: Genesis,
    device: Device,
    ring: &RingFile,
) -> Result<Line, Fault>
    requires genesis { IsGenesis genesis }
    ensures ok { IfOk result (λ line. Opens (begin_with genesis device ring.now address.now)
        (use_of N.told net.old net.new) line.kit) }
    ensures genesis { IfOk result (λ line. line.genesis ≡ genesis) }
    ensures empty { IfOk result (λ line. line.entries ≡ []) }
    ensures err { IfErr result (NotOpened (begin_with genesis device ring.now address.now)
        (use_of N.told net.old net.new)) }
    ensures shut { AreShutBehind (N.told net.old).returned (N.told net.new).returned }
    ensures links_out { (N.told net.new).out ≡ (N.told net.old).out }
    ensures may_ask { AsksAtMost (links_for_hints ring.now) (N.told net.old).asked
        (N.told net.new).asked address.now }
    ensures kept { (N.told net.old).faults ≤ (N.told net.new).faults }
    ensures links_kept { (N.told net.old).link_faults ≤ (N.told net.new).link_faults }
{
    match ring.epoch_key {
        Some(_) => {
            let none = Vec::new(alloc);
            open_line(alloc, genesis, device, ring, none.as_slice())
        }
        None => {
            let document = &genesis.document;
            let entries = fetch_entries(rt, alloc, net, address, document, device.member)?;
            open_line(alloc, genesis, device, ring, entries.as_slice())
        }
    }
}
