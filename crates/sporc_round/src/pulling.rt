//! Pulls over a link.

ghost use Rattle.std.specs.Prelude.{◌≡◌, ◌≤◌, length};
ghost use Rattle.sporc_client.specs.ClientModel.{state_of};
ghost use Rattle.sporc_exchange.specs.Wires.{link_at};
ghost use Rattle.sporc_head.specs.declared.limits.TheConstants.{MAX_ENTRIES};
ghost use Rattle.sporc_round.specs.Pulling.{GatherEnds, PullsEnd};

use crate::fault::RoundFault;
use crate::taking::take_all;
use sporc_client::Client;
use sporc_exchange::{Inbox, pull};
use sporc_outside::{LeafDisk, Link};
use std::alloc::Global;

// Pulls the entries behind those that the client has, and accepts them. Whether any came.
fn gather<D: LeafDisk, L: Link>(
    alloc: Global,
    client: &mut Client<D>,
    link: &mut L,
    inbox: &mut Inbox,
) -> Result<bool, RoundFault>
    ensures gathers { GatherEnds client.old client.new
        (link_at (L.told link.old) inbox.old) (link_at (L.told link.new) inbox.new) result }
    ensures within { length (state_of client.old).entries ≤ MAX_ENTRIES }
    ensures shut { (L.told link.new).is_shut ≡ (L.told link.old).is_shut }
{
    let entries = pull(alloc, link, inbox, client.heads().len())?;
    take_all(client, entries.as_slice())?;
    Ok(entries.len() > 0)
}

/// Pulls the entries behind those that a client has, and accepts each as one by 0, until no more
/// come or one removes the member or drops the device. Such a client pulls nothing.
pub fn pull_all<D: LeafDisk, L: Link>(
    alloc: Global,
    client: &mut Client<D>,
    link: &mut L,
    inbox: &mut Inbox,
) -> Result<(), RoundFault>
    ensures pulls { PullsEnd client.old client.new
        (link_at (L.told link.old) inbox.old) (link_at (L.told link.new) inbox.new) result }
    ensures shut { (L.told link.new).is_shut ≡ (L.told link.old).is_shut }
{
    loop {
        if client.removed() {
            return Ok(());
        }
        let more = gather(alloc, client, link, inbox)?;
        if !more {
            return Ok(());
        }
    }
}
